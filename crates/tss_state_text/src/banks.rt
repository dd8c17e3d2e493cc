// What stands in the banks: entries, held places and held buffers, and what a bank copies home.
ghost use Rattle.std.specs.Prelude.{◌≡◌, slice_get};
ghost use Rattle.std.specs.FinMap.{entries, keys};
ghost use Rattle.tss_text.specs.Pieces.{Emits};
ghost use Rattle.tss_state_lines.specs.Lines.{entry_line, place_line};
ghost use Rattle.tss_state_text.specs.StateText.{bank_entries, bank_names, buffer_text, copy_text, text_if};
ghost use Rattle.tss_state_text.specs.Items.{row_count as count_of, row_text, table_text};

use crate::holders::shown_bytes;
use tss_outside::{Failed, Sink};
use tss_pipeline::Pipeline;
use tss_state_lines::{put_buffer, put_copy, put_entry, put_place};
use tss_text::PieceWriter;

/// A table of a bank.
#[derive(Clone, Copy, Debug, PartialEq, Eq)]
pub(crate) enum Table {
    Entries,
    Places,
    Buffers,
}

/// How many rows a table of a bank has.
fn row_count(p: &Pipeline, table: Table, bank: u32) -> u32
    ensures { result ≡ count_of p.now.machine p.now.state table bank }
{
    match table {
        Table::Entries => p.entry_count(bank),
        Table::Places => p.place_count(bank),
        Table::Buffers => p.buffer_count(bank),
    }
}

/// Puts the line of an entry of a bank, by its place.
fn put_entry_at<K: Sink>(
    to: &mut PieceWriter<'_, K>,
    p: &Pipeline,
    bank: u32,
    i: u32,
) -> Result<(), Failed>
    ensures { Emits K.Sink to.old to.new result (text_if (λ e. entry_line bank e.1)
        (slice_get (entries (bank_entries p.now.machine.sizes bank p.now.state.entries)) i)) }
{
    match p.entry_at(bank, i) {
        Some(entry) => put_entry(to, bank, &entry),
        None => Ok(()),
    }
}

/// Puts the line of a held place of a bank, by its place in order of names.
fn put_place_at<K: Sink>(
    to: &mut PieceWriter<'_, K>,
    p: &Pipeline,
    bank: u32,
    i: u32,
) -> Result<(), Failed>
    ensures { Emits K.Sink to.old to.new result (text_if (place_line bank)
        (slice_get (keys (bank_names bank p.now.state.places)) i)) }
{
    match p.place_at(bank, i) {
        Some(v) => put_place(to, bank, v),
        None => Ok(()),
    }
}

/// Puts the line of a held buffer of a bank, by its place in order of names.
fn put_buffer_at<K: Sink>(
    to: &mut PieceWriter<'_, K>,
    p: &Pipeline,
    bank: u32,
    i: u32,
) -> Result<(), Failed>
    ensures { Emits K.Sink to.old to.new result (text_if (buffer_text p.now.machine.sizes p.now.state bank)
        (slice_get (keys (bank_names bank p.now.state.buffers)) i)) }
{
    match p.buffer_at(bank, i) {
        Some((name, _)) => put_buffer(to, bank, name, shown_bytes(p, bank, name)),
        None => Ok(()),
    }
}

/// Puts the row of a table of a bank at a place, from 0.
fn put_row<K: Sink>(
    to: &mut PieceWriter<'_, K>,
    p: &Pipeline,
    table: Table,
    bank: u32,
    i: u32,
) -> Result<(), Failed>
    ensures { Emits K.Sink to.old to.new result (row_text p.now.machine p.now.state table bank i) }
{
    match table {
        Table::Entries => put_entry_at(to, p, bank, i),
        Table::Places => put_place_at(to, p, bank, i),
        Table::Buffers => put_buffer_at(to, p, bank, i),
    }
}

/// Puts the rows of a table of a bank.
pub(crate) fn put_table<K: Sink>(
    to: &mut PieceWriter<'_, K>,
    p: &Pipeline,
    table: Table,
    bank: u32,
) -> Result<(), Failed>
    ensures { Emits K.Sink to.old to.new result (table_text p.now.machine p.now.state table bank) }
{
    for i in 0..row_count(p, table, bank) {
        put_row(to, p, table, bank, i)?;
    }
    Ok(())
}

/// Puts the line of a bank that copies.
pub(crate) fn put_copying<K: Sink>(
    to: &mut PieceWriter<'_, K>,
    p: &Pipeline,
    bank: u32,
) -> Result<(), Failed>
    ensures { Emits K.Sink to.old to.new result (copy_text p.now.state.copies bank) }
{
    match (p.copy(bank), p.moved(bank)) {
        (Some((v, _, _)), Some(moved)) => put_copy(to, bank, v, moved),
        _ => Ok(()),
    }
}
