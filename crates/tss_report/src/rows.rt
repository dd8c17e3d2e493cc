// The rows of memory that have changed.
ghost use Rattle.std.specs.Prelude.{◌≡◌, ◌<◌, ◌≤◌, Some, length, slice_get};
ghost use Rattle.tss_base.specs.Range.{end_of};
ghost use Rattle.tss_model.specs.Memory.{MemoryRange, loaded};
ghost use Rattle.tss_memory.specs.Ranges.{IsInside, memory_end};
ghost use Rattle.tss_report.specs.declared.rows.TheConstants.{ROW};
ghost use Rattle.tss_text.specs.Pieces.{Emits};
ghost use Rattle.tss_report.specs.Rows.{row_line, row_text, rows_text, range_text, changed_text};

use tss_base::{Image, Range};
use tss_memory::{Space, copy_as_loaded};
use tss_outside::{Failed, Sink};
use tss_text::{PieceWriter, hex_word, write_hex};

/// How many bytes a row has, but for the last of a range.
const ROW: u32 = 16;

/// Puts the line of a row.
fn put_line<K: Sink>(to: &mut PieceWriter<'_, K>, at: u32, bytes: &[u8]) -> Result<(), Failed>
    requires { length bytes.now ≤ ROW }
    ensures { Emits K.Sink to.old to.new result (row_line at bytes.now) }
{
    let mut digits = [0; 2 * ROW as usize];
    let text = &mut digits[..2 * bytes.len()];
    write_hex(bytes, text);
    to.put_all(&[b"row ", &hex_word(at), b" ", text, b"\n"])
}

/// Puts the line of a row in which a byte has changed, where the row lies in the range of memory at the place `i`.
fn put_row<K: Sink>(
    to: &mut PieceWriter<'_, K>,
    image: &Image,
    space: &Space,
    i: u32,
    row: &Range,
) -> Result<(), Failed>
    requires ranges { space.now.ranges ≡ (loaded image.now).ranges }
    requires inside { IsInside space.now.ranges i row.now }
    requires len { row.now.len ≤ ROW }
    ensures { Emits K.Sink to.old to.new result (row_text (loaded image.now) space.now row.now) }
{
    let mut bytes = [0; ROW as usize];
    let before = &mut bytes[..row.len as usize];
    copy_as_loaded(image, i, row, before);
    let now = space.bytes(row);
    if now == before {
        return Ok(());
    }
    put_line(to, row.base, now)
}

/// Puts the rows of a range that have changed, where it lies in the range of memory at the place `i`.
fn put_rows<K: Sink>(
    to: &mut PieceWriter<'_, K>,
    image: &Image,
    space: &Space,
    i: u32,
    r: &Range,
) -> Result<(), Failed>
    requires ranges { space.now.ranges ≡ (loaded image.now).ranges }
    requires inside { IsInside space.now.ranges i r.now }
    requires end { end_of r.now ≤ memory_end }
    ensures { Emits K.Sink to.old to.new result (rows_text (loaded image.now) space.now r.now) }
{
    for k in 0..(r.len + (ROW - 1)) / ROW {
        let row = Range {
            base: r.base + ROW * k,
            len: ROW.min(r.len - ROW * k),
        };
        put_row(to, image, space, i, &row)?;
    }
    Ok(())
}

/// Puts the rows that have changed of the range of memory at the place `i`, where it can be written.
fn put_range<K: Sink>(
    to: &mut PieceWriter<'_, K>,
    image: &Image,
    space: &Space,
    i: u32,
) -> Result<(), Failed>
    requires ranges { space.now.ranges ≡ (loaded image.now).ranges }
    requires there { i < length space.now.ranges }
    ensures { (m : MemoryRange) → slice_get space.now.ranges i ≡ Some m →
        Emits K.Sink to.old to.new result (range_text (loaded image.now) space.now m) }
{
    match space.range_at(i) {
        Some((r, true)) => put_rows(to, image, space, i, &r),
        _ => Ok(()),
    }
}

/// Puts the rows of memory that have changed since it was loaded.
pub fn put_changed<K: Sink>(
    to: &mut PieceWriter<'_, K>,
    image: &Image,
    space: &Space,
) -> Result<(), Failed>
    requires ranges { space.now.ranges ≡ (loaded image.now).ranges }
    ensures { Emits K.Sink to.old to.new result (changed_text (loaded image.now) space.now) }
{
    for i in 0..image.count() + 1 {
        put_range(to, image, space, i)?;
    }
    Ok(())
}
