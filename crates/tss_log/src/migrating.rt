// A log of the older format, put into the present one.
ghost use Rattle.std.specs.Prelude.{◌≡◌, ◌↔◌, ◌∷◌, ◌++◌, ℕ, Ok, Err, IfOk, IfErr, IsErrOf};
ghost use Rattle.tss_protocol.specs.Text.{lines_of, log_header, text_of_lines};
ghost use Rattle.tss_protocol.specs.Migration as migration;
ghost use Rattle.tss_log.specs.declared.migrating.LogFault.TheVariants as fault;

use crate::lines::{HEADER, cut_line};
use std::alloc::{AllocError, AllocFailed, Global};
use thiserror::Error;
use tss_events::read_event;

/// Why a log was not put into the present format.
#[derive(Clone, Copy, Debug, PartialEq, Eq, Error)]
pub enum LogFault {
    /// The first line that is no event's text, by its number from 1.
    #[error("line {0} is no event")]
    BadLine(u64),
    /// Memory ran out.
    #[error("out of memory")]
    NoMemory,
}

impl From<AllocError> for LogFault {
    ghost from_gives = { λ _ e. e ≡ fault.NoMemory };

    fn from(_e: AllocError) -> LogFault {
        LogFault::NoMemory
    }
}

impl<T: Drop> From<AllocFailed<T>> for LogFault {
    ghost from_gives = { λ _ e. e ≡ fault.NoMemory };

    fn from(_e: AllocFailed<T>) -> LogFault {
        LogFault::NoMemory
    }
}

/// The number of the first line that is no event's text.
fn first_bad_line(bytes: &[u8]) -> Option<u64>
    ensures { result ≡ migration.first_bad_line 1 (lines_of bytes.now) }
{
    let mut rest = bytes;
    let mut before = 0;
    while !rest.is_empty() {
        let (line, after) = cut_line(rest);
        if read_event(line).is_none() {
            return Some(before + 1);
        }
        rest = after;
        before += 1;
    }
    None
}

/// The end that the last line lacks, if any.
fn last_end(bytes: &[u8]) -> &'static [u8]
    ensures { bytes.now ++ result.now ≡ text_of_lines (lines_of bytes.now) }
{
    match bytes.last() {
        Some(last) => { if *last == b'\n' { &[] } else { b"\n" } }
        None => &[],
    }
}

/// The header, and then the lines of these bytes, each with its end.
fn with_header(alloc: Global, bytes: &[u8]) -> Result<Vec<u8>, LogFault>
    ensures ok { IfOk result (λ log. log.items ≡ text_of_lines (log_header ∷ lines_of bytes.now)) }
    ensures err { IfErr result (λ e. e ≡ LogFault.NoMemory) }
{
    let mut log = Vec::with_capacity(alloc, bytes.len().saturating_add(HEADER.len() + 2))?;
    log.extend_from_slice(&HEADER)?;
    log.push(b'\n')?;
    log.extend_from_slice(bytes)?;
    log.extend_from_slice(last_end(bytes))?;
    Ok(log)
}

/// A log of the older format in the present one: the header and then its lines, each with its end. Memory may run out
/// only where each line is an event's text.
pub fn migrate_log(alloc: Global, bytes: &[u8]) -> Result<Vec<u8>, LogFault>
    ensures ok { IfOk result (λ log. migration.migrated bytes.now ≡ Ok log.items) }
    ensures bad_line { (n : ℕ) → IsErrOf result (LogFault.BadLine n) ↔ (migration.migrated bytes.now ≡ Err n) }

    // The new log gives the same run.
    ensures keeps_run { migration.KeepsRun }
{
    match first_bad_line(bytes) {
        Some(number) => Err(LogFault::BadLine(number)),
        None => with_header(alloc, bytes),
    }
}
