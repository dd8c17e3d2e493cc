// The text and the status of an outcome.
ghost use Rattle.std.specs.Prelude.{◌≡◌, IfOk, option_map};
ghost use Rattle.tss_text.specs.Pieces.{Emits, Writes};
ghost use Rattle.tss_command.specs.Answer.{ending_status, report_status, refusal_status, status_of, input_name, machine_line, refusal_text, fault_name, fault_line, schedule_line, finished_text, migrated_text, run_text, text_of_report, text_of};
ghost use Rattle.tss_model.specs.Memory.{loaded};
ghost use Rattle.tss_command.specs.Work.{IsSoundReport};

use crate::outcome::{Input, Refusal, Report, Run};
use crate::statuses::{
    BAD_IMAGE, BAD_MACHINE, BAD_SCHEDULE, BAD_WORDS, EXITED, NO_MEMORY, READ_FAILED, REFUSED,
    TRAPPED, WRITE_FAILED,
};
use itoa::Buffer;
use tss_base::Ending;
use tss_outside::{Failed, Sink};
use tss_report::write_report;
use tss_state_text::write_state;
use tss_text::PieceWriter;
use tss_unit_runs::{FinishedRun, LineFault};

/// The forms of the words.
const USAGE: &[u8] = b"usage: run IMAGE MACHINE seed N [log FILE] | run IMAGE MACHINE given FILE | \
    state IMAGE MACHINE given FILE | inorder IMAGE MACHINE | self N | migrate FILE NEW | self N mul\n";

/// What a file is called in a text.
fn input_name(input: Input) -> &'static [u8]
    ensures { result.now ≡ input_name input }
{
    match input {
        Input::Machine => b"machine",
        Input::Image => b"image",
        Input::Schedule => b"schedule",
    }
}

/// Puts the line of a machine that is refused.
fn put_machine<K: Sink>(
    to: &mut PieceWriter<'_, K>,
    number: u32,
    key: Option<&[u8]>,
) -> Result<(), Failed>
    ensures { Emits K.Sink to.old to.new result (machine_line number (option_map (λ k. k.now) key.entry)) }
{
    let mut digits = Buffer::new();
    let number = digits.format(number).as_bytes();
    match key {
        None => to.put_all(&[b"machine ", number, b"\n"]),
        Some(key) => to.put_all(&[b"machine ", number, b" ", key, b"\n"]),
    }
}

/// What a fault of a schedule is called in a text.
fn fault_name(fault: LineFault) -> &'static [u8]
    ensures { result.now ≡ fault_name fault }
{
    match fault {
        LineFault::BadLine(_) => b"bad-line ",
        LineFault::NotEnabled(_) => b"not-enabled ",
        LineFault::Short(_) => b"short ",
        LineFault::Long(_) => b"long ",
    }
}

/// The number of its line.
fn fault_line(fault: LineFault) -> u64
    ensures { result ≡ fault_line fault }
{
    match fault {
        LineFault::BadLine(n)
        | LineFault::NotEnabled(n)
        | LineFault::Short(n)
        | LineFault::Long(n) => n,
    }
}

/// Puts the line of a schedule that is refused.
fn put_schedule<K: Sink>(to: &mut PieceWriter<'_, K>, fault: LineFault) -> Result<(), Failed>
    ensures { Emits K.Sink to.old to.new result (schedule_line fault) }
{
    let mut digits = Buffer::new();
    let line = digits.format(fault_line(fault)).as_bytes();
    to.put_all(&[b"schedule ", fault_name(fault), line, b"\n"])
}

/// Puts the text of a refusal.
fn put_refusal<K: Sink>(to: &mut PieceWriter<'_, K>, refusal: &Refusal) -> Result<(), Failed>
    ensures text { Emits K.Sink to.old to.new result (refusal_text refusal.now) }
    ensures same_sink { to.new.out.ghost_name ≡ to.old.out.ghost_name }
{
    match refusal {
        Refusal::Usage => to.put(USAGE),
        Refusal::ReadFault(input) => to.put_all(&[b"read ", input_name(*input), b"\n"]),
        Refusal::TooLong(input) => to.put_all(&[b"long ", input_name(*input), b"\n"]),
        Refusal::Machine(bad) => put_machine(to, bad.number(), bad.key()),
        Refusal::Image(n) => {
            let mut digits = Buffer::new();
            to.put_all(&[b"image ", digits.format(*n).as_bytes(), b"\n"])
        }
        Refusal::Schedule(fault) => put_schedule(to, *fault),
        Refusal::WriteLog => to.put(b"write log\n"),
        Refusal::NoMemory => to.put(b"no memory\n"),
    }
}

/// Writes the text of a refusal.
fn write_refusal<K: Sink>(out: &mut K, refusal: &Refusal) -> Result<(), Failed>
    ensures { Writes K.Sink out.old out.new result (refusal_text refusal.now) }
{
    let mut to = PieceWriter::new(out);
    put_refusal(&mut to, refusal)?;
    to.flush()
}

/// Writes the report of a run in program order.
fn write_run<K: Sink>(out: &mut K, run: &Run) -> Result<(), Failed>
    requires { run.now.reference.memory.ranges ≡ (loaded run.now.image).ranges }
    ensures { Writes K.Sink out.old out.new result (run_text run.now) }
{
    write_report(
        out,
        &run.reference.ending(),
        run.reference.tasks(),
        run.reference.output(),
        &run.image,
        run.reference.space(),
        None,
        &run.machine,
    )
}

/// Writes the report of a run of the unit machine.
fn write_finished<K: Sink>(out: &mut K, run: &FinishedRun) -> Result<(), Failed>
    ensures { Writes K.Sink out.old out.new result (finished_text run.now) }
{
    write_report(
        out,
        &run.ending(),
        run.tasks(),
        run.output(),
        run.image(),
        run.space(),
        Some(run.peaks()),
        run.machine(),
    )
}

/// Puts how many lines a log has that was put into the present format.
fn put_migrated<K: Sink>(to: &mut PieceWriter<'_, K>, lines: u64) -> Result<(), Failed>
    ensures { Emits K.Sink to.old to.new result (migrated_text lines) }
{
    let mut digits = Buffer::new();
    to.put_all(&[b"migrated ", digits.format(lines).as_bytes(), b"\n"])
}

/// Writes how many lines a log has that was put into the present format.
fn write_migrated<K: Sink>(out: &mut K, lines: u64) -> Result<(), Failed>
    ensures { Writes K.Sink out.old out.new result (migrated_text lines) }
{
    let mut to = PieceWriter::new(out);
    put_migrated(&mut to, lines)?;
    to.flush()
}

/// Writes the text of a report.
fn write_text_of_report<K: Sink>(out: &mut K, report: &Report) -> Result<(), Failed>
    requires { IsSoundReport report.now }
    ensures { Writes K.Sink out.old out.new result (text_of_report report.now) }
{
    match report {
        Report::Ran(run) => write_finished(out, run),
        Report::Stopped(stopped) => write_state(out, &stopped.pipeline, &stopped.image),
        Report::Workload(run) => run.write(out),
        Report::InOrder(run) => write_run(out, run),
        Report::Migrated(lines) => write_migrated(out, *lines),
    }
}

/// Writes the text of an outcome.
pub fn write_outcome<K: Sink>(out: &mut K, outcome: &Result<Report, Refusal>) -> Result<(), Failed>
    requires { IfOk outcome.now IsSoundReport }
    ensures { Writes K.Sink out.old out.new result (text_of outcome.now) }
{
    match outcome {
        Ok(report) => write_text_of_report(out, report),
        Err(refusal) => write_refusal(out, refusal),
    }
}

/// The status of an ending.
fn ending_status(ending: Ending) -> u8
    ensures { result ≡ ending_status ending }
{
    match ending {
        Ending::Exit(_) => EXITED,
        Ending::MainTrap(_) | Ending::TaskTrap(..) => TRAPPED,
        Ending::Refused(..) => REFUSED,
    }
}

/// The status of a report.
fn report_status(report: &Report) -> u8
    ensures { result ≡ report_status report.now }
{
    match report {
        Report::Ran(run) => ending_status(run.ending()),
        Report::Stopped(_) => EXITED,
        Report::Workload(run) => ending_status(run.ending()),
        Report::InOrder(run) => ending_status(run.reference.ending()),
        Report::Migrated(_) => EXITED,
    }
}

/// The status of a refusal.
fn refusal_status(refusal: &Refusal) -> u8
    ensures { result ≡ refusal_status refusal.now }
{
    match refusal {
        Refusal::Image(_) => BAD_IMAGE,
        Refusal::Machine(_) => BAD_MACHINE,
        Refusal::Schedule(_) => BAD_SCHEDULE,
        Refusal::Usage => BAD_WORDS,
        Refusal::ReadFault(_) | Refusal::TooLong(_) => READ_FAILED,
        Refusal::WriteLog => WRITE_FAILED,
        Refusal::NoMemory => NO_MEMORY,
    }
}

/// The status of an outcome.
pub fn status(outcome: &Result<Report, Refusal>) -> u8
    ensures { result ≡ status_of outcome.now }
{
    match outcome {
        Ok(report) => report_status(report),
        Err(refusal) => refusal_status(refusal),
    }
}
