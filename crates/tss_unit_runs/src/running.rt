// Runs of an image: by a seed, and by a log that is given.
ghost use Rattle.std.specs.Prelude.{◌≡◌, ◌≤◌, ℕ, false, List, Some, None, IfOk, IfErr, IsErrOf, OnOk, OnErr};
ghost use Rattle.tss_base.specs.Machine.{IsAdmissible};
ghost use Rattle.tss_model.specs.Memory.{loaded};
ghost use Rattle.tss_outside.specs.Outside.{Rose, AppendsTo};
ghost use Rattle.tss_protocol.specs.Run.{IsRun};
ghost use Rattle.tss_protocol.specs.Schedule.{seeded_events, judged};
ghost use Rattle.tss_protocol.specs.State.{initial_state};
ghost use Rattle.tss_protocol.specs.Text.{ended_line, log_header, log_text};
ghost use Rattle.tss_log.specs.FileLogs.{KeepsFiles};
ghost use Rattle.tss_unit_runs.specs.Runs.{run_of, fault_of, PutsPart, Finishes, later_fault, IsCounted, is_short, IsWholeOrShort};

use crate::faults::{GivenFault, LineFault, LoggedFault};
use crate::finished::FinishedRun;
use std::alloc::Global;
use tss_base::{Image, Machine, NoMemory};
use tss_log::{FileLog, Log, NoLog};
use tss_outside::Files;
use tss_pipeline::Pipeline;
use tss_schedule::{Given, Schedule, ScheduleFault, Seeded, drive};

/// Drives a pipeline from the first event of an image's run to its end.
fn finish<S: Schedule, L: Log>(
    mut pipeline: Pipeline,
    image: Image,
    schedule: &mut S,
    log: &mut L,
) -> Result<FinishedRun, ScheduleFault>
    requires { pipeline.state ≡ initial_state image }
    ensures { Finishes S.Schedule.picks L.Log pipeline.machine image schedule.old log.old log.new result }
{
    let _entry = image.entry();
    pipeline.reached();
    match drive(&mut pipeline, schedule, log) {
        Ok(peaks) => Ok(FinishedRun {
            image,
            pipeline,
            peaks,
        }),
        Err(fault) => {
            pipeline.close();
            Err(fault)
        }
    }
}

/// The run of a seed.
pub fn run_seeded(
    alloc: Global,
    machine: Machine,
    image: Image,
    seed: u64,
) -> Result<FinishedRun, NoMemory>
    requires { IsAdmissible machine }
    ensures { IfOk result (λ r. r ≡ run_of machine image (seeded_events machine image seed)) }
{
    let pipeline = Pipeline::open(alloc, &image, &machine)?;
    match finish(pipeline, image, &mut Seeded::new(seed), &mut NoLog {}) {
        Ok(over) => Ok(over),
        Err(_) => unreachable!(),
    }
}

/// Drives a pipeline by a seed from the first event of an image's run, with a log that keeps the header.
fn finish_logged<'a, F: Files>(
    pipeline: Pipeline,
    image: Image,
    seed: u64,
    log: &mut FileLog<'a, F>,
) -> Result<FinishedRun, LoggedFault>
    requires first { pipeline.state ≡ initial_state image }
    requires admissible { IsAdmissible pipeline.machine }
    requires header { log.old.kept ≡ ended_line log_header }
    ensures ok { IfOk result (λ r. r ≡ run_of pipeline.machine image (seeded_events pipeline.machine image seed)) }
    ensures log { OnOk result (AppendsTo (F.held log.old.files.now) (F.held log.new.files.now) log.old.name.now
        (log_text (seeded_events pipeline.machine image seed))) }
    ensures err { IfErr result (λ e. e ≡ LoggedFault.WriteFault) }
    ensures write_fault { OnErr result (PutsPart (F.held log.old.files.now) (F.held log.new.files.now) log.old.name.now
        (log_text (seeded_events pipeline.machine image seed))) }
    ensures cause { OnErr result (Rose (F.append_faults log.old.files.now log.old.name.now)
        (F.append_faults log.new.files.now log.old.name.now)) }
    ensures keeps { KeepsFiles F.Files log.old log.new }
{
    match finish(pipeline, image, &mut Seeded::new(seed), log) {
        Ok(over) => Ok(over),
        Err(_) => Err(LoggedFault::WriteFault),
    }
}

/// The run of a seed, with its log put into a file. The file has the whole log where it answers Ok, and a part of it
/// after a write that failed. Where there was no memory nothing was written.
pub fn run_logged<F: Files>(
    alloc: Global,
    machine: Machine,
    image: Image,
    seed: u64,
    files: &mut F,
    name: &str,
) -> Result<FinishedRun, LoggedFault>
    requires { IsAdmissible machine }
    ensures ok { IfOk result (λ r. r ≡ run_of machine image (seeded_events machine image seed)) }
    ensures log { OnOk result (AppendsTo (F.held files.old) (F.held files.new) name.now
        (log_text (seeded_events machine image seed))) }
    ensures write_fault { IsErrOf result LoggedFault.WriteFault → PutsPart (F.held files.old) (F.held files.new) name.now
        (log_text (seeded_events machine image seed)) }
    ensures cause { IsErrOf result LoggedFault.WriteFault
        → Rose (F.append_faults files.old name.now) (F.append_faults files.new name.now) }
    ensures no_memory { IsErrOf result LoggedFault.NoMemory → files.new ≡ files.old }
    ensures read_faults { (n : List ℕ) → F.read_faults files.new n ≡ F.read_faults files.old n }
    ensures append_faults { (n : List ℕ) → F.append_faults files.old n ≤ F.append_faults files.new n }
{
    let Ok(pipeline) = Pipeline::open(alloc, &image, &machine) else {
        return Err(LoggedFault::NoMemory);
    };
    let mut log = FileLog::new(files, name);
    finish_logged(pipeline, image, seed, &mut log)
}

/// A fault of a schedule's pick as one of a line, where so many lines come before the first pick.
fn line_fault(fault: ScheduleFault, offset: u64) -> LineFault
    requires { IsCounted offset fault }
    ensures { Some (fault_of result) ≡ later_fault offset fault }
{
    match fault {
        ScheduleFault::BadLine(n) => LineFault::BadLine(n + offset),
        ScheduleFault::NotEnabled(n) => LineFault::NotEnabled(n + offset),
        ScheduleFault::Short(n) => LineFault::Short(n + offset),
        ScheduleFault::Long(n) => LineFault::Long(n + offset),
        ScheduleFault::WriteFault => unreachable!(),
    }
}

/// The run of a log's bytes, where they give a whole run.
pub fn run_given(
    alloc: Global,
    machine: Machine,
    image: Image,
    bytes: &[u8],
) -> Result<FinishedRun, GivenFault>
    requires { IsAdmissible machine }
    ensures ok { IfOk result (λ r. r ≡ run_of machine image (judged machine image bytes.now).events) }
    ensures whole { OnOk result ((judged machine image bytes.now).fault ≡ None) }
    ensures line { (f : LineFault) → IsErrOf result (GivenFault.Line f)
        → (judged machine image bytes.now).fault ≡ Some (fault_of f) }
{
    let Ok(pipeline) = Pipeline::open(alloc, &image, &machine) else {
        return Err(GivenFault::NoMemory);
    };
    let mut lines = Given::new(bytes);
    let offset = lines.offset();
    match finish(pipeline, image, &mut lines, &mut NoLog {}) {
        Ok(over) => Ok(over),
        Err(fault) => Err(GivenFault::Line(line_fault(fault, offset))),
    }
}

/// The unit machine after the events of a log's bytes, which may end before the run is over.
pub fn state_given(
    alloc: Global,
    machine: &Machine,
    image: &Image,
    bytes: &[u8],
) -> Result<Pipeline, GivenFault>
    requires { IsAdmissible machine.now }
    ensures machine { IfOk result (λ p. p.machine ≡ machine.now) }
    ensures state { IfOk result (λ p. IsRun machine.now image.now (judged machine.now image.now bytes.now).events p.state) }
    ensures ranges { IfOk result (λ p. p.state.home.ranges ≡ (loaded image.now).ranges) }
    ensures ok { OnOk result (IsWholeOrShort (judged machine.now image.now bytes.now).fault) }
    ensures line { (f : LineFault) → IsErrOf result (GivenFault.Line f)
        → ((judged machine.now image.now bytes.now).fault ≡ Some (fault_of f)) × (is_short f ≡ false) }
{
    let _entry = image.entry();
    let Ok(mut pipeline) = Pipeline::open(alloc, image, machine) else {
        return Err(GivenFault::NoMemory);
    };
    let mut lines = Given::new(bytes);
    let offset = lines.offset();
    match drive(&mut pipeline, &mut lines, &mut NoLog {}) {
        Ok(_) => Ok(pipeline),
        Err(fault) => {
            let line = line_fault(fault, offset);
            if line.is_short() {
                return Ok(pipeline);
            }
            pipeline.close();
            Err(GivenFault::Line(line))
        }
    }
}
