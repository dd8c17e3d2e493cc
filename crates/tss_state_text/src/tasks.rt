// The tasks in flight, with their operands.
ghost use Rattle.std.specs.Prelude.{◌≡◌, Some, slice_get};
ghost use Rattle.std.specs.FinMap.{entries, get};
ghost use Rattle.tss_text.specs.Pieces.{Emits};
ghost use Rattle.tss_stations.specs.Reading.{found_in};
ghost use Rattle.tss_protocol.specs.Stations.{operand_at};
ghost use Rattle.tss_state_lines.specs.Lines.{operand_line};
ghost use Rattle.tss_state_text.specs.StateText.{operands_text, task_text, text_if};

use tss_base::{OpName, Stage, Task};
use tss_outside::{Failed, Sink};
use tss_pipeline::Pipeline;
use tss_state_lines::{put_operand, put_task};
use tss_text::PieceWriter;

/// Puts the line of an operand of a task in flight, by its place.
fn put_operand_at<K: Sink>(
    to: &mut PieceWriter<'_, K>,
    p: &Pipeline,
    o: OpName,
) -> Result<(), Failed>
    ensures { Emits K.Sink to.old to.new result (text_if (operand_line o) (operand_at p.now.state.flight o)) }
{
    match p.operand(o) {
        Some(view) => put_operand(to, o, &view),
        None => Ok(()),
    }
}

/// Puts the lines of the operands of a task in flight.
fn put_operands<K: Sink>(to: &mut PieceWriter<'_, K>, p: &Pipeline, task: u32) -> Result<(), Failed>
    ensures { Emits K.Sink to.old to.new result
        (text_if (λ x. operands_text task 0 x.operands) (get p.now.state.flight task)) }
{
    let Some(count) = p.operand_count(task) else {
        return Ok(());
    };
    for place in 0..count {
        put_operand_at(to, p, OpName { task, place })?;
    }
    Ok(())
}

/// Puts the lines of a task in flight and of its operands.
fn put_flying<K: Sink>(
    to: &mut PieceWriter<'_, K>,
    p: &Pipeline,
    task: &Task,
    stage: Stage,
) -> Result<(), Failed>
    requires { found_in p.now.state.flight task.now.number ≡ Some (task.now, stage) }
    ensures { Emits K.Sink to.old to.new result
        (text_if (λ x. task_text (task.now.number, x)) (get p.now.state.flight task.now.number)) }
{
    put_task(to, task, stage)?;
    put_operands(to, p, task.number)
}

/// Puts the lines of a task in flight, by its place in order of number.
pub(crate) fn put_task_at<K: Sink>(
    to: &mut PieceWriter<'_, K>,
    p: &Pipeline,
    i: u32,
) -> Result<(), Failed>
    ensures { Emits K.Sink to.old to.new result (text_if task_text (slice_get (entries p.now.state.flight) i)) }
{
    match p.task_at(i) {
        Some((task, stage)) => put_flying(to, p, task, stage),
        None => Ok(()),
    }
}
