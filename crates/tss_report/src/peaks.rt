// The greatest counts of a run, each with its size.
ghost use Rattle.std.specs.Prelude.{◌≡◌, ◌≤◌};
ghost use Rattle.tss_protocol.specs.Counts.{sizes_of as sizes_for};
ghost use Rattle.tss_text.specs.Pieces.{Emits};
ghost use Rattle.tss_report.specs.Peaks.{HasRanges, count_name, count_in, events_text, peak_text, counts_text, peaks_text};

use itoa::Buffer;
use tss_base::{Counts, Machine, Peaks};
use tss_outside::{Failed, Sink};
use tss_text::PieceWriter;

/// A count of the unit machine.
#[derive(Clone, Copy, Debug, PartialEq, Eq)]
pub(crate) enum Count {
    Messages,
    Slots,
    Ready,
    Workers,
    Entries,
    Versions,
    Buffers,
}

/// The counts in the order of a report.
const COUNTS: [Count; 7] = [
    Count::Messages,
    Count::Slots,
    Count::Ready,
    Count::Workers,
    Count::Entries,
    Count::Versions,
    Count::Buffers,
];

impl Count {
    /// The count as a report has it.
    fn name(&self) -> &'static str
        ensures { result.now ≡ count_name self.now }
    {
        match self {
            Count::Messages => "messages",
            Count::Slots => "slots",
            Count::Ready => "ready",
            Count::Workers => "workers",
            Count::Entries => "entries",
            Count::Versions => "versions",
            Count::Buffers => "buffers",
        }
    }

    /// Its number among several.
    fn number_in(&self, counts: &Counts) -> u32
        ensures { result ≡ count_in counts.now self.now }
    {
        match self {
            Count::Messages => counts.messages,
            Count::Slots => counts.slots,
            Count::Ready => counts.ready,
            Count::Workers => counts.workers,
            Count::Entries => counts.entries,
            Count::Versions => counts.versions,
            Count::Buffers => counts.buffers,
        }
    }
}

/// The sizes of the counts of a machine.
fn sizes_of(machine: &Machine) -> Counts
    requires { HasRanges machine.now }
    ensures { result ≡ sizes_for machine.now }
{
    let sizes = &machine.sizes;
    let operands = machine.limits.max_operands;
    let slots = sizes.stations * sizes.slots;
    let decodes = sizes.window * operands;
    let wakes = 2 * slots * operands;
    let places = sizes.banks * sizes.versions;
    Counts {
        messages: decodes + wakes + places,
        slots: sizes.slots,
        ready: slots,
        workers: sizes.workers,
        entries: sizes.entries,
        versions: sizes.versions,
        buffers: sizes.buffers,
    }
}

/// Puts how many events a run has.
fn put_events<K: Sink>(to: &mut PieceWriter<'_, K>, events: u64) -> Result<(), Failed>
    ensures { Emits K.Sink to.old to.new result (events_text events) }
{
    let mut number = Buffer::new();
    to.put_all(&[b"events ", number.format(events).as_bytes(), b"\n"])
}

/// Puts the greatest of a count, and its size.
fn put_peak<K: Sink>(
    to: &mut PieceWriter<'_, K>,
    peaks: &Counts,
    sizes: &Counts,
    count: Count,
) -> Result<(), Failed>
    ensures { Emits K.Sink to.old to.new result (peak_text peaks.now sizes.now count) }
{
    let mut number = Buffer::new();
    let mut size = Buffer::new();
    to.put_all(&[
        b"peak ",
        count.name().as_bytes(),
        b" ",
        number.format(count.number_in(peaks)).as_bytes(),
        b" of ",
        size.format(count.number_in(sizes)).as_bytes(),
        b"\n",
    ])
}

/// Puts the greatest of each count, and its size.
fn put_counts<K: Sink>(
    to: &mut PieceWriter<'_, K>,
    peaks: &Counts,
    sizes: &Counts,
) -> Result<(), Failed>
    ensures { Emits K.Sink to.old to.new result (counts_text peaks.now sizes.now) }
{
    for count in COUNTS.iter() {
        put_peak(to, peaks, sizes, *count)?;
    }
    Ok(())
}

/// Puts the number of events, and the greatest of each count with its size.
pub(crate) fn put_peaks<K: Sink>(
    to: &mut PieceWriter<'_, K>,
    peaks: &Peaks,
    machine: &Machine,
) -> Result<(), Failed>
    requires { HasRanges machine.now }
    ensures { Emits K.Sink to.old to.new result (peaks_text (sizes_for machine.now) peaks.now) }
{
    put_events(to, peaks.events)?;
    put_counts(to, &peaks.counts, &sizes_of(machine))
}
