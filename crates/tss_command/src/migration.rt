// A log of the older format, put into the present one.
ghost use Rattle.std.specs.Prelude.{◌≡◌, ℕ, List, Some, IfErr, OnOk, OnErr};
ghost use Rattle.tss_outside.specs.Outside.{AppendsTo};
ghost use Rattle.tss_command.specs.Outcomes.{files_seen, FailedToAppend, AppendsPartTo, IsDueTo};
ghost use Rattle.tss_command.specs.Reading.{Gives, bytes_found};
ghost use Rattle.tss_command.specs.Words.{Migrate};
ghost use Rattle.tss_command.specs.Work.{migrated_log};

use crate::inputs::schedule_in;
use crate::outcome::{Refusal, Report};
use std::alloc::Global;
use tss_log::{LogFault, line_count, migrate_log};
use tss_outside::{Failed, Files};
use tss_unit_runs::LineFault;

/// The bytes of a log in the present format, or the first line that is no event's text.
fn migrated(alloc: Global, log: &[u8]) -> Result<Vec<u8>, Refusal>
    ensures { Gives (bytes_found result) (migrated_log log.now) }
{
    match migrate_log(alloc, log) {
        Ok(log) => Ok(log),
        Err(LogFault::BadLine(n)) => Err(Refusal::Schedule(LineFault::BadLine(n))),
        Err(LogFault::NoMemory) => Err(Refusal::NoMemory),
    }
}

/// Appends a log to a file.
fn append<F: Files>(files: &mut F, name: &str, log: &[u8]) -> Result<(), Refusal>
    ensures ok { OnOk result (AppendsTo (F.held files.old) (F.held files.new) name.now log.now) }
    ensures err { IfErr result (λ e. e ≡ Refusal.WriteLog) }
    ensures part { OnErr result (AppendsPartTo (F.held files.old) (F.held files.new) name.now log.now) }
    ensures cause { OnErr result (FailedToAppend (files_seen F.Files files.old) (files_seen F.Files files.new) name.now) }
    ensures read_faults { (n : List ℕ) → F.read_faults files.new n ≡ F.read_faults files.old n }
{
    match files.append(name, log) {
        Ok(()) => Ok(()),
        Err(Failed) => Err(Refusal::WriteLog),
    }
}

/// Appends a log to another file, in the present format. All lines are judged before anything is appended.
pub fn report_migrated<F: Files>(
    alloc: Global,
    log: &str,
    new_log: &str,
    files: &mut F,
) -> Result<Report, Refusal>
    ensures due { IsDueTo (Some (Migrate (record { log = log.now; new_log = new_log.now })))
        (files_seen F.Files files.old) (files_seen F.Files files.new) result }
{
    let old = schedule_in(alloc, files, log)?;
    let new = migrated(alloc, old.as_slice())?;
    append(files, new_log, new.as_slice())?;
    Ok(Report::Migrated(line_count(old.as_slice())))
}
