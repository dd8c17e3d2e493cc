// The items of each part of the text: one where the part is there once, one for each worker or bank, and one for each
// element of a list.
ghost use Rattle.std.specs.Prelude.{◌≡◌};
ghost use Rattle.std.specs.FinMap.{get};
ghost use Rattle.tss_model.specs.Memory.{loaded};
ghost use Rattle.tss_protocol.specs.Gateway.{held_tasks};
ghost use Rattle.std.specs.Prelude.{slice_get};
ghost use Rattle.tss_text.specs.Pieces.{Emits};
ghost use Rattle.tss_report.specs.Report.{ending_text};
ghost use Rattle.tss_state_lines.specs.Lines.{epoch_line, gateway_line, inbox_line, piece_line, queue_line, trap_line};
ghost use Rattle.tss_state_text.specs.StateText.{text_if};
ghost use Rattle.tss_state_text.specs.Items.{item_count as count_of, item_text};

use crate::banks::{Table, put_copying, put_table};
use crate::messages::put_message_at;
use crate::part::Part;
use crate::tasks::put_task_at;
use crate::versions::put_versions;
use crate::workers::put_worker;
use tss_base::Image;
use tss_outside::{Failed, Sink};
use tss_pipeline::Pipeline;
use tss_report::{put_changed, put_ending};
use tss_state_lines::{
    put_enabled, put_held, put_inbox, put_main, put_main_registers, put_named, put_piece,
    put_queued, put_trap,
};
use tss_text::PieceWriter;

/// How many items a part has.
pub(crate) fn item_count(p: &Pipeline, part: Part) -> u32
    ensures { result ≡ count_of p.now.machine p.now.state part }
{
    match part {
        Part::Main
        | Part::Registers
        | Part::Ending
        | Part::Inbox
        | Part::Versions
        | Part::Trap
        | Part::Rows
        | Part::Enabled => 1,
        Part::Epoch => p.epoch_count(),
        Part::Gateway => p.held_count(),
        Part::Tasks => p.task_count(),
        Part::Queue => p.queue_count(),
        Part::Workers => p.machine().sizes.workers,
        Part::Entries | Part::Places | Part::Buffers | Part::Copies => p.machine().sizes.banks,
        Part::Messages => p.message_count(),
        Part::Pieces => p.piece_count(),
    }
}

/// Puts the line of main's ending, where it has ended.
fn put_ended<K: Sink>(to: &mut PieceWriter<'_, K>, p: &Pipeline) -> Result<(), Failed>
    ensures { Emits K.Sink to.old to.new result (text_if ending_text p.now.state.main.ending) }
{
    match p.main_ending() {
        Some(ending) => put_ending(to, &ending),
        None => Ok(()),
    }
}

/// Puts the line of the object that was named at a place in order of naming.
fn put_named_at<K: Sink>(to: &mut PieceWriter<'_, K>, p: &Pipeline, i: u32) -> Result<(), Failed>
    ensures { Emits K.Sink to.old to.new result (text_if epoch_line (slice_get p.now.state.main.epoch i)) }
{
    match p.epoch_at(i) {
        Some(object) => put_named(to, &object),
        None => Ok(()),
    }
}

/// Puts the line of the task in the inbox.
fn put_arrival<K: Sink>(to: &mut PieceWriter<'_, K>, p: &Pipeline) -> Result<(), Failed>
    ensures { Emits K.Sink to.old to.new result (text_if inbox_line p.now.state.inbox) }
{
    match p.inbox() {
        Some(task) => put_inbox(to, task),
        None => Ok(()),
    }
}

/// Puts the line of a task that the gateway holds, by its place.
fn put_held_at<K: Sink>(to: &mut PieceWriter<'_, K>, p: &Pipeline, i: u32) -> Result<(), Failed>
    ensures { Emits K.Sink to.old to.new result (text_if gateway_line (slice_get (held_tasks p.now.state.gateway) i)) }
{
    match p.held_at(i) {
        Some((task, operands)) => put_held(to, task, operands),
        None => Ok(()),
    }
}

/// Puts the line of a task of the ready queue, by its place.
fn put_queued_at<K: Sink>(to: &mut PieceWriter<'_, K>, p: &Pipeline, i: u32) -> Result<(), Failed>
    ensures { Emits K.Sink to.old to.new result (text_if queue_line (slice_get p.now.state.queue i)) }
{
    match p.queue_at(i) {
        Some(task) => put_queued(to, task),
        None => Ok(()),
    }
}

/// Puts the line of the held trap.
fn put_held_trap<K: Sink>(to: &mut PieceWriter<'_, K>, p: &Pipeline) -> Result<(), Failed>
    ensures { Emits K.Sink to.old to.new result (text_if trap_line p.now.state.trap) }
{
    match p.trap() {
        Some((task, trap)) => put_trap(to, task, trap),
        None => Ok(()),
    }
}

/// Puts the line of a piece that main has printed, by its place.
fn put_piece_at<K: Sink>(to: &mut PieceWriter<'_, K>, p: &Pipeline, i: u32) -> Result<(), Failed>
    ensures { Emits K.Sink to.old to.new result (text_if piece_line (slice_get p.now.state.main.pieces i)) }
{
    match p.piece_at(i) {
        Some((before, bytes)) => put_piece(to, before, bytes),
        None => Ok(()),
    }
}

/// Puts the item of a part at a place, from 0.
pub(crate) fn put_item<K: Sink>(
    to: &mut PieceWriter<'_, K>,
    p: &Pipeline,
    image: &Image,
    part: Part,
    i: u32,
) -> Result<(), Failed>
    requires { p.now.state.home.ranges ≡ (loaded image.now).ranges }
    ensures { Emits K.Sink to.old to.new result (item_text (loaded image.now) p.now.machine p.now.state part i) }
{
    match part {
        Part::Main => put_main(to, p.main(), p.spawned(), p.main_ending().is_some()),
        Part::Registers => put_main_registers(to, p.main()),
        Part::Ending => put_ended(to, p),
        Part::Epoch => put_named_at(to, p, i),
        Part::Inbox => put_arrival(to, p),
        Part::Gateway => put_held_at(to, p, i),
        Part::Tasks => put_task_at(to, p, i),
        Part::Queue => put_queued_at(to, p, i),
        Part::Workers => put_worker(to, p, i),
        Part::Entries => put_table(to, p, Table::Entries, i),
        Part::Places => put_table(to, p, Table::Places, i),
        Part::Buffers => put_table(to, p, Table::Buffers, i),
        Part::Versions => put_versions(to, p),
        Part::Messages => put_message_at(to, p, i),
        Part::Copies => put_copying(to, p, i),
        Part::Trap => put_held_trap(to, p),
        Part::Pieces => put_piece_at(to, p, i),
        Part::Rows => put_changed(to, image, p.space()),
        Part::Enabled => put_enabled(to, p.enabled_count()),
    }
}
