// The report of a run.
ghost use Rattle.std.specs.Prelude.{◌≡◌, IsSome, option_map};
ghost use Rattle.tss_model.specs.Memory.{loaded};
ghost use Rattle.tss_protocol.specs.Counts.{sizes_of};
ghost use Rattle.tss_report.specs.Peaks.{HasRanges};
ghost use Rattle.tss_text.specs.Pieces.{Emits, Writes};
ghost use Rattle.tss_report.specs.Report.{ending_text, tasks_text, output_text, summary_text, memory_text, told_peaks, report_text};

use crate::peaks::put_peaks;
use crate::rows::put_changed;
use itoa::Buffer;
use tss_base::{Ending, Image, Machine, Peaks};
use tss_memory::Space;
use tss_outside::{Failed, Sink};
use tss_text::{PieceWriter, hex_word};

/// Puts the line that says how a run ended.
pub fn put_ending<K: Sink>(to: &mut PieceWriter<'_, K>, ending: &Ending) -> Result<(), Failed>
    ensures { Emits K.Sink to.old to.new result (ending_text ending.now) }
{
    let mut first = Buffer::new();
    let mut second = Buffer::new();
    match ending {
        Ending::Exit(status) => {
            to.put_all(&[b"end exit ", first.format(*status).as_bytes(), b"\n"])
        }
        Ending::MainTrap(trap) => to.put_all(&[
            b"end main-trap ",
            &hex_word(trap.pc),
            b" ",
            first.format(trap.cause).as_bytes(),
            b" ",
            &hex_word(trap.value),
            b"\n",
        ]),
        Ending::TaskTrap(task, trap) => to.put_all(&[
            b"end task-trap ",
            second.format(*task).as_bytes(),
            b" ",
            &hex_word(trap.pc),
            b" ",
            first.format(trap.cause).as_bytes(),
            b" ",
            &hex_word(trap.value),
            b"\n",
        ]),
        Ending::Refused(number, pc) => to.put_all(&[
            b"end refused ",
            first.format(*number).as_bytes(),
            b" ",
            &hex_word(*pc),
            b"\n",
        ]),
    }
}

/// Puts the line that says how many tasks were spawned.
pub fn put_tasks<K: Sink>(to: &mut PieceWriter<'_, K>, tasks: u32) -> Result<(), Failed>
    ensures { Emits K.Sink to.old to.new result (tasks_text tasks) }
{
    let mut number = Buffer::new();
    to.put_all(&[b"tasks ", number.format(tasks).as_bytes(), b"\n"])
}

/// Puts how many bytes were printed, and these.
pub fn put_output<K: Sink>(to: &mut PieceWriter<'_, K>, bytes: &[u8]) -> Result<(), Failed>
    ensures { Emits K.Sink to.old to.new result (output_text bytes.now) }
{
    let mut number = Buffer::new();
    to.put_all(&[
        b"output ",
        number.format(bytes.len()).as_bytes(),
        b"\n",
        bytes,
        b"\n",
    ])
}

/// Puts the part of a report that says ending, tasks and output.
pub fn put_summary<K: Sink>(
    to: &mut PieceWriter<'_, K>,
    ending: &Ending,
    tasks: u32,
    output: &[u8],
) -> Result<(), Failed>
    ensures { Emits K.Sink to.old to.new result (summary_text ending.now tasks output.now) }
{
    put_ending(to, ending)?;
    put_tasks(to, tasks)?;
    put_output(to, output)
}

/// Puts the rows of memory that have changed since it was loaded, unless a task trapped.
fn put_memory<K: Sink>(
    to: &mut PieceWriter<'_, K>,
    ending: &Ending,
    image: &Image,
    space: &Space,
) -> Result<(), Failed>
    requires { space.now.ranges ≡ (loaded image.now).ranges }
    ensures { Emits K.Sink to.old to.new result (memory_text ending.now (loaded image.now) space.now) }
{
    match ending {
        Ending::TaskTrap(_, _) => Ok(()),
        Ending::Exit(_) | Ending::MainTrap(_) | Ending::Refused(_, _) => {
            put_changed(to, image, space)
        }
    }
}

/// Puts the peaks, where there are any.
fn put_told_peaks<K: Sink>(
    to: &mut PieceWriter<'_, K>,
    peaks: Option<&Peaks>,
    machine: &Machine,
) -> Result<(), Failed>
    requires { IsSome peaks → HasRanges machine.now }
    ensures { Emits K.Sink to.old to.new result
        (told_peaks (option_map (λ p. p.now) peaks.entry) (sizes_of machine.now)) }
{
    match peaks {
        None => Ok(()),
        Some(peaks) => put_peaks(to, peaks, machine),
    }
}

/// Puts the report of a run.
fn put_report<K: Sink>(
    to: &mut PieceWriter<'_, K>,
    ending: &Ending,
    tasks: u32,
    output: &[u8],
    image: &Image,
    space: &Space,
    peaks: Option<&Peaks>,
    machine: &Machine,
) -> Result<(), Failed>
    requires ranges { space.now.ranges ≡ (loaded image.now).ranges }
    requires machine { IsSome peaks → HasRanges machine.now }
    ensures text { Emits K.Sink to.old to.new result (report_text
        (record { ending = ending.now; tasks = tasks; output = output.now; memory = space.now })
        (loaded image.now) (option_map (λ p. p.now) peaks.entry) (sizes_of machine.now)) }
    ensures same_sink { to.new.out.ghost_name ≡ to.old.out.ghost_name }
{
    put_summary(to, ending, tasks, output)?;
    put_memory(to, ending, image, space)?;
    put_told_peaks(to, peaks, machine)
}

/// Writes the report of a run, in pieces of 4,096 bytes and a last shorter one: how it ended, how many tasks were
/// spawned, what was printed, the rows in which memory differs from the image as loaded, unless a task trapped, and the
/// peaks with their sizes, where there are any.
pub fn write_report<K: Sink>(
    out: &mut K,
    ending: &Ending,
    tasks: u32,
    output: &[u8],
    image: &Image,
    space: &Space,
    peaks: Option<&Peaks>,
    machine: &Machine,
) -> Result<(), Failed>
    requires ranges { space.now.ranges ≡ (loaded image.now).ranges }
    requires machine { IsSome peaks → HasRanges machine.now }
    ensures { Writes K.Sink out.old out.new result (report_text
        (record { ending = ending.now; tasks = tasks; output = output.now; memory = space.now })
        (loaded image.now) (option_map (λ p. p.now) peaks.entry) (sizes_of machine.now)) }
{
    let mut to = PieceWriter::new(out);
    put_report(&mut to, ending, tasks, output, image, space, peaks, machine)?;
    to.flush()
}
