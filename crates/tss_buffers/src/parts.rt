// Parts of a block, and the numbers in them, the lowest byte first.
ghost use Rattle.std.specs.Prelude.{◌≡◌, ◌^◌, ◌+◌, ◌<◌, ◌≤◌, IfOk, IsTrue, drop, false, length, replicate, slice_index, take};
ghost use Rattle.tss_model.specs.Memory.{list_put, number_at, zeros};
ghost use Rattle.tss_model.specs.Core.{low_bytes};
ghost use Rattle.tss_buffers.specs.Contents.{is_width};
ghost use Rattle.tss_buffers.specs.Block.{with_part};

use std::alloc::{AllocError, Global};

/// The number in the `width` bytes from a place on.
#[inline(always)]
pub(crate) fn number(bytes: &[u8], at: usize, width: u32) -> u32
    requires width { IsTrue (is_width width) }
    requires there { at + width ≤ length bytes.now }
    ensures exact { result ≡ number_at (slice_index bytes.now) at width }
    ensures fits { result < 256 ^ width }
{
    match width {
        1 => u32::from(bytes[at]),
        2 => u32::from(bytes[at]) + (u32::from(bytes[at + 1]) << 8),
        _ => {
            let low = u32::from(bytes[at]) + (u32::from(bytes[at + 1]) << 8);
            let high = u32::from(bytes[at + 2]) + (u32::from(bytes[at + 3]) << 8);
            low + (high << 16)
        }
    }
}

/// Puts the `width` low bytes of a value from a place on.
#[inline(always)]
fn put(bytes: &mut [u8], at: usize, width: u32, value: u32)
    requires width { IsTrue (is_width width) }
    requires there { at + width ≤ length bytes.old }
    ensures { bytes.new ≡ list_put bytes.old at (low_bytes width value) }
{
    if width == 4 {
        bytes[at + 3] = (value >> 24) as u8;
        bytes[at + 2] = ((value >> 16) & 0xFF) as u8;
    }
    if width >= 2 {
        bytes[at + 1] = ((value >> 8) & 0xFF) as u8;
    }
    bytes[at] = (value & 0xFF) as u8;
}

/// The `n` bytes of a block from a place on.
#[inline(always)]
pub(crate) fn part(block: &[u8], first: usize, n: u32) -> &[u8]
    requires { first + n ≤ length block.now }
    ensures { result.now ≡ take n (drop first block.now) }
{
    &block[first..first + n as usize]
}

/// Puts zeros in the `n` bytes of a block from a place on.
pub(crate) fn clear_in(block: &mut [u8], first: usize, n: u32)
    requires { first + n ≤ length block.old }
    ensures { block.new ≡ with_part block.old first (zeros n) }
{
    clear(&mut block[first..first + n as usize]);
}

/// Puts the `width` low bytes of a value in the `n` bytes of a block from a place on, from a place in them on.
#[inline(always)]
pub(crate) fn put_in(block: &mut [u8], first: usize, n: u32, at: u32, width: u32, value: u32)
    requires part { first + n ≤ length block.old }
    requires width { IsTrue (is_width width) }
    requires there { at + width ≤ n }
    ensures { block.new ≡ with_part block.old first
        (list_put (take n (drop first block.old)) at (low_bytes width value)) }
{
    put(
        &mut block[first..first + n as usize],
        at as usize,
        width,
        value,
    );
}

/// Puts a zero in each place.
fn clear(bytes: &mut [u8])
    ensures { bytes.new ≡ zeros (length bytes.old) }
{
    bytes.fill(0);
}

/// So many zeros.
pub(crate) fn zero_bytes(alloc: Global, count: usize) -> Result<Vec<u8>, AllocError>
    ensures { IfOk result (λ bytes. bytes.items ≡ zeros count) }
{
    vec![in alloc; 0; count]
}

/// So many marks, none of them set.
pub(crate) fn no_marks(alloc: Global, count: usize) -> Result<Vec<bool>, AllocError>
    ensures { IfOk result (λ marks. marks.items ≡ replicate count false) }
{
    vec![in alloc; false; count]
}
