// The lines of tasks, from the inbox to the ready queue.
ghost use Rattle.std.specs.Prelude.{◌≡◌};
ghost use Rattle.tss_text.specs.Pieces.{Emits};
ghost use Rattle.tss_stations.specs.Views.{source_by, state_of};
ghost use Rattle.tss_state_lines.specs.Words.{optional, source_words};
ghost use Rattle.tss_state_lines.specs.Lines.{gateway_line, inbox_line, operand_line, queue_line, task_line};

use crate::line::put_line;
use crate::marks::{farewell_word, link_word, mode_word, source_words, stage_word};
use crate::word::Word;
use tss_base::{OpName, Stage, Task};
use tss_outside::{Failed, Sink};
use tss_stations::OperandView;
use tss_text::PieceWriter;

/// Puts the line of the task in the inbox.
pub fn put_inbox<K: Sink>(to: &mut PieceWriter<'_, K>, task: &Task) -> Result<(), Failed>
    ensures { Emits K.Sink to.old to.new result (inbox_line task.now) }
{
    put_line(to, b"inbox", &[Word::number(u64::from(task.number))])
}

/// Puts the line of a task that the gateway holds, and how many of its operands are still to be acknowledged.
pub fn put_held<K: Sink>(
    to: &mut PieceWriter<'_, K>,
    task: u32,
    operands: u32,
) -> Result<(), Failed>
    ensures { Emits K.Sink to.old to.new result (gateway_line (record { task = task; operands = operands })) }
{
    put_line(
        to,
        b"gateway",
        &[
            Word::number(u64::from(task)),
            Word::number(u64::from(operands)),
        ],
    )
}

/// Puts the line of a task in flight.
pub fn put_task<K: Sink>(
    to: &mut PieceWriter<'_, K>,
    task: &Task,
    stage: Stage,
) -> Result<(), Failed>
    ensures { Emits K.Sink to.old to.new result (task_line task.now stage) }
{
    put_line(
        to,
        b"task",
        &[Word::number(u64::from(task.number)), stage_word(stage)],
    )
}

/// Puts the line of an operand of a task in flight.
pub fn put_operand<K: Sink>(
    to: &mut PieceWriter<'_, K>,
    o: OpName,
    view: &OperandView,
) -> Result<(), Failed>
    ensures { Emits K.Sink to.old to.new result (operand_line o (state_of view.now)) }
{
    let object = view.operand.object;
    let (version, storage) = source_words(view.version, view.storage);
    put_line(
        to,
        b"operand",
        &[
            Word::name(o),
            Word::hex(object.base),
            Word::number(u64::from(object.len)),
            mode_word(view.operand.mode),
            version,
            storage,
            link_word(view.link),
            farewell_word(view.farewell),
        ],
    )
}

/// Puts the line of a task in the ready queue.
pub fn put_queued<K: Sink>(to: &mut PieceWriter<'_, K>, task: u32) -> Result<(), Failed>
    ensures { Emits K.Sink to.old to.new result (queue_line task) }
{
    put_line(to, b"queue", &[Word::number(u64::from(task))])
}
