// Blocks in address order: where a range lies, and what a write in one of them leaves of the whole.
ghost use Rattle.std.specs.Prelude.{◌≡◌, ◌<◌, ◌≤◌, IfSome, IsSome, IsNone, None, length};
ghost use Rattle.std.specs.List.Sorted.{IsPartitionPoint};
ghost use Rattle.tss_model.specs.Memory.{range_of, put_bytes, zeroed};
ghost use Rattle.tss_model.specs.Core.{low_bytes};
ghost use Rattle.tss_memory.specs.Ranges.{CanRead, range_with};
ghost use Rattle.tss_memory.specs.Blocks.{AreBlocks, IsInBlock, block_end, memory_of, range_of_block, ranges_in};

use crate::block::Block;
use tss_base::Range;

/// How many blocks end before an address.
fn blocks_before(blocks: &[Block], end: u64) -> usize
    requires { AreBlocks blocks.now }
    ensures { IsPartitionPoint (λ b. block_end b < end) (λ b. end ≤ block_end b) blocks.now result }
{
    blocks.partition_point(|b| b.end() < end)
}

/// The place of the first block that contains the range.
pub(crate) fn place_in(blocks: &[Block], r: &Range) -> Option<usize>
    requires { AreBlocks blocks.now }
    ensures none { IsNone result → range_with (ranges_in blocks.now) r.now ≡ None }
    ensures inside { IfSome result (IsInBlock blocks.now r.now) }
    ensures first { IfSome result (λ i.
        range_with (ranges_in blocks.now) r.now ≡ range_of_block blocks.now i) }
{
    let i = blocks_before(blocks, r.end());
    if i < blocks.len() && blocks[i].contains(r) {
        Some(i)
    } else {
        None
    }
}

/// The same, where the block at a place is tried first.
pub(crate) fn place_near(blocks: &[Block], r: &Range, near: usize) -> Option<usize>
    requires blocks { AreBlocks blocks.now }
    requires some { 0 < r.now.len }
    ensures none { IsNone result → range_with (ranges_in blocks.now) r.now ≡ None }
    ensures inside { IfSome result (IsInBlock blocks.now r.now) }
    ensures first { IfSome result (λ i.
        range_with (ranges_in blocks.now) r.now ≡ range_of_block blocks.now i) }
{
    if near < blocks.len() && blocks[near].contains(r) {
        Some(near)
    } else {
        place_in(blocks, r)
    }
}

/// The place of the first block that contains the range, where there is one.
pub(crate) fn known_place(blocks: &[Block], r: &Range) -> usize
    requires blocks { AreBlocks blocks.now }
    requires there { IsSome (range_of (ranges_in blocks.now) r.now) }
    ensures { IsInBlock blocks.now r.now result }
{
    match place_in(blocks, r) {
        Some(i) => i,
        None => unreachable!(),
    }
}

/// The range of so many bytes from an address on, which lie in one block.
pub(crate) fn range_from(blocks: &[Block], at: u32, count: usize) -> Range
    requires blocks { AreBlocks blocks.now }
    requires readable { CanRead (ranges_in blocks.now) at count }
    ensures { result ≡ record { base = at; len = count } }
{
    Range {
        base: at,
        len: count as u32,
    }
}

/// Puts bytes from an address on in the block at a place.
pub(crate) fn put_in(blocks: &mut [Block], i: usize, at: u32, from: &[u8])
    requires blocks { AreBlocks blocks.old }
    requires inside { IsInBlock blocks.old (record { base = at; len = length from.now }) i }
    ensures { memory_of blocks.new ≡ put_bytes (memory_of blocks.old) at from.now }
{
    blocks[i].put(at, from);
}

/// Puts zeros in a range in the block at a place.
pub(crate) fn zero_in(blocks: &mut [Block], i: usize, r: &Range)
    requires blocks { AreBlocks blocks.old }
    requires inside { IsInBlock blocks.old r.now i }
    ensures { memory_of blocks.new ≡ zeroed (memory_of blocks.old) r.now }
{
    blocks[i].zero(r);
}

/// Puts the low bytes of a number, the lowest first, in a range in the block at a place.
pub(crate) fn put_number_in(blocks: &mut [Block], i: usize, r: &Range, value: u32)
    requires blocks { AreBlocks blocks.old }
    requires inside { IsInBlock blocks.old r.now i }
    requires width { r.now.len ≤ 4 }
    ensures { memory_of blocks.new
        ≡ put_bytes (memory_of blocks.old) r.now.base (low_bytes r.now.len value) }
{
    blocks[i].put_number(r, value);
}
