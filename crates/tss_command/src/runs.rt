// Runs of the unit machine.
ghost use Rattle.std.specs.Prelude.{◌≤◌, Some, IfOk};
ghost use Rattle.tss_command.specs.Outcomes.{FilesSeen, files_seen, IsDueTo};
ghost use Rattle.tss_command.specs.Words.{RunSeeded, RunLogged, RunGiven, StateGiven, Workload};
ghost use Rattle.tss_command.specs.Work.{IsSoundReport};

use crate::inputs::{program_in, schedule_in};
use crate::outcome::{Refusal, Report, Stopped};
use std::alloc::Global;
use tss_outside::Files;
use tss_self::{Form, SelfRun};
use tss_unit_runs::{GivenFault, LoggedFault};

/// Runs a program by the events that a seed draws. No file is changed.
pub fn report_seeded<F: Files>(
    alloc: Global,
    image: &str,
    machine: &str,
    seed: u64,
    files: &mut F,
) -> Result<Report, Refusal>
    ensures due { IsDueTo (Some (RunSeeded (record { image = image.now; machine = machine.now }) seed))
        (files_seen F.Files files.old) (files_seen F.Files files.new) result }
    ensures sound { IfOk result IsSoundReport }
{
    let program = program_in(alloc, files, image, machine)?;
    let run = tss_unit_runs::run_seeded(alloc, program.machine, program.image, seed)?;
    Ok(Report::Ran(run))
}

/// The same, and appends the events to a file.
pub fn report_logged<F: Files>(
    alloc: Global,
    image: &str,
    machine: &str,
    seed: u64,
    log: &str,
    files: &mut F,
) -> Result<Report, Refusal>
    ensures due { IsDueTo (Some (RunLogged (record { image = image.now; machine = machine.now }) seed log.now))
        (files_seen F.Files files.old) (files_seen F.Files files.new) result }
    ensures sound { IfOk result IsSoundReport }
{
    let program = program_in(alloc, files, image, machine)?;
    match tss_unit_runs::run_logged(alloc, program.machine, program.image, seed, files, log) {
        Ok(run) => Ok(Report::Ran(run)),
        Err(LoggedFault::NoMemory) => Err(Refusal::NoMemory),
        Err(LoggedFault::WriteFault) => Err(Refusal::WriteLog),
    }
}

/// Runs a program by the events that a file gives. No file is changed.
pub fn report_given<F: Files>(
    alloc: Global,
    image: &str,
    machine: &str,
    schedule: &str,
    files: &mut F,
) -> Result<Report, Refusal>
    ensures due { IsDueTo (Some (RunGiven (record { image = image.now; machine = machine.now }) schedule.now))
        (files_seen F.Files files.old) (files_seen F.Files files.new) result }
    ensures sound { IfOk result IsSoundReport }
{
    let program = program_in(alloc, files, image, machine)?;
    let bytes = schedule_in(alloc, files, schedule)?;
    match tss_unit_runs::run_given(alloc, program.machine, program.image, bytes.as_slice()) {
        Ok(run) => Ok(Report::Ran(run)),
        Err(GivenFault::NoMemory) => Err(Refusal::NoMemory),
        Err(GivenFault::Line(fault)) => Err(Refusal::Schedule(fault)),
    }
}

/// Shows the state of the unit machine after the events that a file gives. No file is changed.
pub fn report_state<F: Files>(
    alloc: Global,
    image: &str,
    machine: &str,
    schedule: &str,
    files: &mut F,
) -> Result<Report, Refusal>
    ensures due { IsDueTo (Some (StateGiven (record { image = image.now; machine = machine.now }) schedule.now))
        (files_seen F.Files files.old) (files_seen F.Files files.new) result }
    ensures sound { IfOk result IsSoundReport }
{
    let program = program_in(alloc, files, image, machine)?;
    let bytes = schedule_in(alloc, files, schedule)?;
    match tss_unit_runs::state_given(alloc, &program.machine, &program.image, bytes.as_slice()) {
        Ok(pipeline) => Ok(Report::Stopped(Stopped {
            image: program.image,
            pipeline,
        })),
        Err(GivenFault::NoMemory) => Err(Refusal::NoMemory),
        Err(GivenFault::Line(fault)) => Err(Refusal::Schedule(fault)),
    }
}

/// Runs the workload with n blocks a side.
pub fn report_workload(alloc: Global, n: u32, form: Form) -> Result<Report, Refusal>
    requires low { 1 ≤ n }
    requires high { n ≤ 40 }
    ensures due { (s : FilesSeen) → IsDueTo (Some (Workload (record { n = n; form = form }))) s s result }
    ensures sound { IfOk result IsSoundReport }
{
    let run = SelfRun::new(alloc, n, form)?;
    Ok(Report::Workload(run))
}
