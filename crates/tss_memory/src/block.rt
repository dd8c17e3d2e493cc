// Blocks: the bytes of one range of memory.
ghost use Rattle.std.specs.Prelude.{◌≡◌, ◌<◌, ◌≤◌, ◌-◌, IfOk, IsTrue, length};
ghost use Rattle.tss_base.specs.Range.{contains};
ghost use Rattle.tss_model.specs.Memory.{zeros};
ghost use Rattle.tss_model.specs.Core.{low_bytes};
ghost use Rattle.tss_memory.specs.Blocks.{AreBlocks, block_end, block_of, blocks_in, block_part, block_range, put_block, stack_block};

use std::alloc::{AllocError, Global};
use std::marker::Model;
use tss_base::addresses::STACK;
use tss_base::{Image, Range, Segment};
use tss_numbers::put;

/// The bytes of a range of memory, and whether they can be written.
#[derive(Drop, Debug)]
pub(crate) struct Block {
    base: u32,
    bytes: Vec<u8>,
    writable: bool,
}

impl Model for Block {
    ghost use Rattle.tss_memory.specs.Blocks.{BlockState, IsBlock};

    ghost Value = { BlockState };

    ghost view = { λ b. record { base = b.base; bytes = b.bytes.items; writable = b.writable } };

    ghost invariant = { λ b. IsBlock (record {
      base = b.base;
      bytes = b.bytes.items;
      writable = b.writable;
    }) };
}

impl Block {
    /// The bytes of a segment, as loaded.
    pub(crate) fn of_segment(alloc: Global, segment: &Segment) -> Result<Block, AllocError>
        ensures { IfOk result (λ b. b ≡ block_of segment.now) }
    {
        let base = segment.base();
        let _len = segment.len();
        let mut bytes = Vec::with_capacity(alloc, segment.bytes().len())?;
        bytes.extend_from_slice(segment.bytes())?;
        Ok(Block {
            base,
            bytes,
            writable: segment.writable(),
        })
    }

    /// Main's stack: zeros.
    pub(crate) fn stack(alloc: Global) -> Result<Block, AllocError>
        ensures { IfOk result (λ b. b ≡ stack_block) }
    {
        Ok(Block {
            base: STACK.base,
            bytes: zero_bytes(alloc, STACK.len as usize)?,
            writable: true,
        })
    }

    /// The addresses that it has.
    pub(crate) fn range(&self) -> Range
        ensures { result ≡ block_range self.now }
    {
        Range {
            base: self.base,
            len: self.bytes.len() as u32,
        }
    }

    /// The address after its last.
    pub(crate) fn end(&self) -> u64
        ensures { result ≡ block_end self.now }
    {
        u64::from(self.base) + self.bytes.len() as u64
    }

    /// Whether it can be written.
    pub(crate) fn writable(&self) -> bool
        ensures { result ≡ self.now.writable }
    {
        self.writable
    }

    /// Whether the range lies in it.
    pub(crate) fn contains(&self, r: &Range) -> bool
        ensures { result ≡ contains (block_range self.now) r.now }
    {
        self.base <= r.base && r.end() <= self.end()
    }

    /// The bytes of a range in it.
    pub(crate) fn bytes(&self, r: &Range) -> &[u8]
        requires { IsTrue (contains (block_range self.now) r.now) }
        ensures { result.now ≡ block_part self.now r.now }
    {
        let from = (r.base - self.base) as usize;
        &self.bytes[from..from + r.len as usize]
    }

    /// Puts bytes in it from an address on.
    pub(crate) fn put(&mut self, at: u32, from: &[u8])
        requires { IsTrue (contains (block_range self.old)
            (record { base = at; len = length from.now })) }
        ensures { self.new ≡ put_block self.old at from.now }
    {
        let first = (at - self.base) as usize;
        self.bytes[first..first + from.len()].copy_from_slice(from);
    }

    /// Puts the low bytes of a number in a range in it, the lowest first.
    #[inline(always)]
    pub(crate) fn put_number(&mut self, r: &Range, value: u32)
        requires inside { IsTrue (contains (block_range self.old) r.now) }
        requires width { r.now.len ≤ 4 }
        ensures { self.new ≡ put_block self.old r.now.base (low_bytes r.now.len value) }
    {
        let first = (r.base - self.base) as usize;
        put(self.bytes.as_mut_slice(), first, r.len, value);
    }

    /// Puts zeros in a range in it.
    pub(crate) fn zero(&mut self, r: &Range)
        requires { IsTrue (contains (block_range self.old) r.now) }
        ensures { self.new ≡ put_block self.old r.now.base (zeros r.now.len) }
    {
        let first = (r.base - self.base) as usize;
        clear(&mut self.bytes[first..first + r.len as usize]);
    }
}

/// A block for each segment, in address order, and the one of main's stack.
pub(crate) fn blocks_of(alloc: Global, image: &Image) -> Result<Vec<Block>, AllocError>
    ensures blocks { IfOk result (λ blocks. blocks.items ≡ blocks_in image.now) }
    ensures placed { IfOk result (λ blocks. AreBlocks blocks.items) }
{
    let count = image.count();
    let mut blocks = Vec::with_capacity(alloc, count as usize + 1)?;
    for i in 0..count {
        blocks.push(Block::of_segment(alloc, image.segment(i))?)?;
    }
    blocks.push(Block::stack(alloc)?)?;
    Ok(blocks)
}

/// Puts a zero in each place.
pub(crate) fn clear(bytes: &mut [u8])
    ensures { bytes.new ≡ zeros (length bytes.old) }
{
    bytes.fill(0);
}

/// So many zeros.
fn zero_bytes(alloc: Global, count: usize) -> Result<Vec<u8>, AllocError>
    ensures { IfOk result (λ bytes. bytes.items ≡ zeros count) }
{
    vec![in alloc; 0; count]
}
