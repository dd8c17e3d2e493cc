// The report of the workload that comes with the program.
ghost use Rattle.std.specs.Prelude.{◌≡◌};
ghost use Rattle.tss_protocol.specs.Counts.{sizes_of};
ghost use Rattle.tss_report.specs.Peaks.{HasRanges};
ghost use Rattle.tss_text.specs.Pieces.{Emits, Writes};
ghost use Rattle.tss_report.specs.SelfReport.{form_text, words_text, sum_line, sum_text, self_text};

use crate::peaks::put_peaks;
use crate::report::put_summary;
use itoa::Buffer;
use tss_base::{Ending, Machine, Peaks};
use tss_outside::{Failed, Sink};
use tss_text::{PieceWriter, write_hex};

/// How many bytes a digest has.
const DIGEST_LEN: usize = 32;

/// What the first line has after the number.
fn form_text(mul: bool) -> &'static [u8]
    ensures { result.now ≡ form_text mul }
{
    if mul { b" mul" } else { b"" }
}

/// Puts the line of words that the program was called with.
fn put_words<K: Sink>(to: &mut PieceWriter<'_, K>, n: u32, mul: bool) -> Result<(), Failed>
    ensures { Emits K.Sink to.old to.new result (words_text n mul) }
{
    let mut number = Buffer::new();
    to.put_all(&[b"self ", number.format(n).as_bytes(), form_text(mul), b"\n"])
}

/// Puts the line of a digest.
fn put_sum_line<K: Sink>(to: &mut PieceWriter<'_, K>, sum: &[u8; DIGEST_LEN]) -> Result<(), Failed>
    ensures { Emits K.Sink to.old to.new result (sum_line sum.now) }
{
    let mut digits = [0; 2 * DIGEST_LEN];
    write_hex(sum, &mut digits);
    to.put_all(&[b"digest ", &digits, b"\n"])
}

/// Puts the digest, unless a task trapped.
fn put_sum<K: Sink>(
    to: &mut PieceWriter<'_, K>,
    ending: &Ending,
    sum: &[u8; DIGEST_LEN],
) -> Result<(), Failed>
    ensures { Emits K.Sink to.old to.new result (sum_text ending.now sum.now) }
{
    match ending {
        Ending::TaskTrap(_, _) => Ok(()),
        Ending::Exit(_) | Ending::MainTrap(_) | Ending::Refused(_, _) => put_sum_line(to, sum),
    }
}

/// Puts the report of the workload.
fn put_self<K: Sink>(
    to: &mut PieceWriter<'_, K>,
    n: u32,
    mul: bool,
    ending: &Ending,
    tasks: u32,
    output: &[u8],
    sum: &[u8; DIGEST_LEN],
    peaks: &Peaks,
    machine: &Machine,
) -> Result<(), Failed>
    requires { HasRanges machine.now }
    ensures text { Emits K.Sink to.old to.new result
        (self_text n mul ending.now tasks output.now sum.now peaks.now (sizes_of machine.now)) }
    ensures same_sink { to.new.out.ghost_name ≡ to.old.out.ghost_name }
{
    put_words(to, n, mul)?;
    put_summary(to, ending, tasks, output)?;
    put_sum(to, ending, sum)?;
    put_peaks(to, peaks, machine)
}

/// Writes the report of the workload with n blocks a side, in the form with products where `mul` is true, in pieces of
/// 4,096 bytes and a last shorter one: `self n`, or `self n mul`, then how it ended, how many tasks were spawned, what
/// was printed, the digest of memory in lower-case hexadecimal digits, unless a task trapped, and the peaks with their
/// sizes. It fails only where the sink does, and then a part of the report from its beginning on was put.
pub fn write_self<K: Sink>(
    out: &mut K,
    n: u32,
    mul: bool,
    ending: &Ending,
    tasks: u32,
    output: &[u8],
    sum: &[u8; DIGEST_LEN],
    peaks: &Peaks,
    machine: &Machine,
) -> Result<(), Failed>
    requires { HasRanges machine.now }
    ensures { Writes K.Sink out.old out.new result
        (self_text n mul ending.now tasks output.now sum.now peaks.now (sizes_of machine.now)) }
{
    let mut to = PieceWriter::new(out);
    put_self(&mut to, n, mul, ending, tasks, output, sum, peaks, machine)?;
    to.flush()
}
