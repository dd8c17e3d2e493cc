// From words to an outcome, and from an outcome to an answer.
ghost use Rattle.std.specs.Prelude.{Some, All, IsTrue, IfOk};
ghost use Rattle.tss_outside.specs.Real.{counted_names};
ghost use Rattle.tss_command.specs.Call.{called, sink_seen, Tells};
ghost use Rattle.tss_command.specs.Outcomes.{files_seen, IsDueTo};
ghost use Rattle.tss_command.specs.RunStates.{IsProgramCall};
ghost use Rattle.tss_command.specs.Words.{words_of, command_of, InOrder};
ghost use Rattle.tss_command.specs.Work.{IsSoundReport};

use crate::command::{Command, parse};
use crate::inputs::program_in;
use crate::migration::report_migrated;
use crate::outcome::{Refusal, Report, Run};
use crate::runs::{report_given, report_logged, report_seeded, report_state, report_workload};
use crate::statuses::WRITE_FAILED;
use crate::texts::{status, write_outcome};
use std::alloc::Global;
use tss_inorder::run_in_order;
use tss_outside::{Failed, Files, Sink};

/// Runs the image of a file under the machine of another, in program order. No file is changed.
fn report_in_order<F: Files>(
    alloc: Global,
    image: &str,
    machine: &str,
    files: &mut F,
) -> Result<Report, Refusal>
    ensures due { IsDueTo (Some (InOrder (record { image = image.now; machine = machine.now })))
        (files_seen F.Files files.old) (files_seen F.Files files.new) result }
    ensures sound { IfOk result IsSoundReport }
{
    let program = program_in(alloc, files, image, machine)?;
    let reference = run_in_order(alloc, &program.image, &program.machine.limits)?;
    Ok(Report::InOrder(Run {
        machine: program.machine,
        image: program.image,
        reference,
    }))
}

/// What the words come to.
fn outcome<F: Files>(alloc: Global, words: &[String], files: &mut F) -> Result<Report, Refusal>
    ensures due { IsDueTo (command_of (words_of words.now)) (files_seen F.Files files.old) (files_seen F.Files files.new)
        result }
    ensures sound { IfOk result IsSoundReport }
{
    match parse(words) {
        None => Err(Refusal::Usage),
        Some(
            Command::RunSeeded {
                image,
                machine,
                seed,
            },
        ) => report_seeded(alloc, image, machine, seed, files),
        Some(
            Command::RunLogged {
                image,
                machine,
                seed,
                log,
            },
        ) => report_logged(alloc, image, machine, seed, log, files),
        Some(
            Command::RunGiven {
                image,
                machine,
                schedule,
            },
        ) => report_given(alloc, image, machine, schedule, files),
        Some(
            Command::StateGiven {
                image,
                machine,
                schedule,
            },
        ) => report_state(alloc, image, machine, schedule, files),
        Some(Command::Workload { n, form }) => report_workload(alloc, n, form),
        Some(Command::InOrder { image, machine }) => report_in_order(alloc, image, machine, files),
        Some(Command::Migrate { log, new_log }) => report_migrated(alloc, log, new_log, files),
    }
}

/// Writes the text of an outcome. It answers the outcome's status, or that of a write that failed.
fn tell<K: Sink>(out: &mut K, outcome: &Result<Report, Refusal>) -> u8
    requires { IfOk outcome.now IsSoundReport }
    ensures { Tells (sink_seen K.Sink out.old) (sink_seen K.Sink out.new) result outcome.now }
{
    match write_outcome(out, outcome) {
        Ok(()) => status(outcome),
        Err(Failed) => WRITE_FAILED,
    }
}

/// Lets go of all that was run.
fn close(outcome: Result<Report, Refusal>) {
    match outcome {
        Ok(report) => report.close(),
        Err(_) => {}
    }
}

/// All that the program does: it does what the words ask for, prints the report or why there is none, and answers its
/// own status. What is claimed of the call, its words, the files and the sink before and after it, and its status, are
/// the parts of `IsProgramCall`: `answered`, `complete`, `of_state`, `appended`, `appended_part` and `kept`.
pub fn tss_main<F: Files, K: Sink>(
    alloc: Global,
    words: &[String],
    files: &mut F,
    out: &mut K,
) -> u8
    requires { All (λ w. IsTrue (F.knows files.old w)) (counted_names (words_of words.now)) }
    ensures { IsProgramCall (called F.Files K.Sink words.now files.old out.old files.new out.new result) }
{
    let outcome = outcome(alloc, words, files);
    let status = tell(out, &outcome);
    close(outcome);
    status
}
