// The lines of what stands in a bank.
ghost use Rattle.std.specs.Prelude.{◌≡◌, option_map};
ghost use Rattle.tss_renaming.specs.Entries.{entry_of};
ghost use Rattle.tss_text.specs.Pieces.{Emits};
ghost use Rattle.tss_state_lines.specs.Lines.{buffer_line, copy_line, entry_line, place_line, version_line};
ghost use Rattle.tss_state_lines.specs.Shown.{version_of};

use crate::bytes::put_hex_line;
use crate::line::put_line;
use crate::marks::{
    final_word, followed_word, how_word, optional_name, optional_number, optional_storage,
    produced_word, retiring_word,
};
use crate::word::Word;
use tss_base::OpName;
use tss_outside::{Failed, Sink};
use tss_renaming::EntryView;
use tss_text::PieceWriter;
use tss_versions::VersionView;

/// Puts the line of an entry of a bank.
pub fn put_entry<K: Sink>(
    to: &mut PieceWriter<'_, K>,
    bank: u32,
    entry: &EntryView,
) -> Result<(), Failed>
    ensures { Emits K.Sink to.old to.new result (entry_line bank (entry_of entry.now)) }
{
    put_line(
        to,
        b"entry",
        &[
            Word::number(u64::from(bank)),
            Word::hex(entry.object.base),
            Word::number(u64::from(entry.object.len)),
            Word::name(entry.latest),
            Word::number(u64::from(entry.sent)),
            retiring_word(entry.retiring),
        ],
    )
}

/// Puts the line of a held place of a bank.
pub fn put_place<K: Sink>(to: &mut PieceWriter<'_, K>, bank: u32, v: OpName) -> Result<(), Failed>
    ensures { Emits K.Sink to.old to.new result (place_line bank v) }
{
    put_line(
        to,
        b"place",
        &[Word::number(u64::from(bank)), Word::name(v)],
    )
}

/// Puts the line of a held buffer of a bank, with its bytes where it is set.
pub fn put_buffer<K: Sink>(
    to: &mut PieceWriter<'_, K>,
    bank: u32,
    name: OpName,
    bytes: Option<&[u8]>,
) -> Result<(), Failed>
    ensures { Emits K.Sink to.old to.new result (buffer_line bank name (option_map (λ b. b.now) bytes.entry)) }
{
    match bytes {
        None => put_line(
            to,
            b"buffer",
            &[
                Word::number(u64::from(bank)),
                Word::name(name),
                Word::of(b"unset"),
            ],
        ),
        Some(bytes) => put_hex_line(
            to,
            b"buffer",
            &[Word::number(u64::from(bank)), Word::name(name)],
            bytes,
        ),
    }
}

/// Puts the line of a version.
pub fn put_version<K: Sink>(
    to: &mut PieceWriter<'_, K>,
    version: &VersionView,
) -> Result<(), Failed>
    ensures { Emits K.Sink to.old to.new result (version_line version.now.name (version_of version.now)) }
{
    put_line(
        to,
        b"version",
        &[
            Word::name(version.name),
            Word::hex(version.object.base),
            Word::number(u64::from(version.object.len)),
            optional_storage(version.storage),
            produced_word(version.produced),
            Word::number(u64::from(version.registered)),
            Word::number(u64::from(version.released)),
            optional_name(version.head),
            optional_name(version.tail),
            optional_name(version.predecessor),
            followed_word(version.successor),
            how_word(version.successor),
            final_word(version.successor),
            optional_number(version.asked),
            optional_number(version.refused),
        ],
    )
}

/// Puts the line of a bank that copies a version home, with the bytes moved so far.
pub fn put_copy<K: Sink>(
    to: &mut PieceWriter<'_, K>,
    bank: u32,
    v: OpName,
    moved: u32,
) -> Result<(), Failed>
    ensures { Emits K.Sink to.old to.new result (copy_line bank v moved) }
{
    put_line(
        to,
        b"copy",
        &[
            Word::number(u64::from(bank)),
            Word::name(v),
            Word::number(u64::from(moved)),
        ],
    )
}
