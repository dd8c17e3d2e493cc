// A flat space of bytes.
ghost use Rattle.std.specs.Prelude.{◌≡◌, ◌^◌, ◌<◌, ◌≤◌, IfOk, IfSome, OnSome, IsTrue, option_map, slice_get, length};
ghost use Rattle.tss_base.specs.Range.{end_of};
ghost use Rattle.tss_model.specs.Memory.{range_of, byte_at, bytes_of, set_byte, put_bytes, zeroed, number_at, loaded, frozen};
ghost use Rattle.tss_model.specs.Core.{low_bytes};
ghost use Rattle.tss_memory.specs.Ranges.{AreRanges, CanRead, CanWrite, IsFound, memory_end};

use crate::block::{Block, blocks_of};
use crate::code::Code;
use crate::found::Found;
use crate::placing::{
    known_place, place_in, place_near, put_in, put_number_in, range_from, zero_in,
};
use std::alloc::Global;
use std::marker::Model;
use tss_base::{Image, NoMemory, Range};
use tss_numbers::number;

/// Main's memory: its ranges, and a byte at each of their addresses.
#[derive(Drop, Debug)]
pub struct Space {
    blocks: Vec<Block>,
}

impl Model for Space {
    ghost use Rattle.tss_model.specs.Memory.{Memory};
    ghost use Rattle.tss_memory.specs.Seen.{memory_code};

    ghost Value = { Memory };

    ghost coded = { memory_code };

    ghost use Rattle.tss_memory.specs.Blocks.{memory_of, AreBlocks};

    ghost view = { λ s. memory_of s.blocks.items };

    ghost invariant = { λ s. AreBlocks s.blocks.items };
}

impl Space {
    /// The memory and the code of an image, before its first instruction.
    pub fn load(alloc: Global, image: &Image) -> Result<(Space, Code), NoMemory>
        ensures space { IfOk result (λ p. p.0 ≡ loaded image.now) }
        ensures code { IfOk result (λ p. p.1 ≡ frozen image.now) }
    {
        let blocks = blocks_of(alloc, image)?;
        Ok((Space { blocks }, Code::load(alloc, image)?))
    }

    /// Whether the range of memory that contains r, the first such in address order, can be written. None exactly where
    /// no range of memory contains r.
    pub fn range_of(&self, r: &Range) -> Option<bool>
        ensures exact { result ≡ range_of self.now.ranges r.now }
        ensures end { OnSome result (end_of r.now ≤ memory_end) }
    {
        let i = place_in(self.blocks.as_slice(), r)?;
        Some(self.blocks[i].writable())
    }

    /// The range of memory at a place in address order, and whether it can be written. None exactly where there are no
    /// more.
    pub fn range_at(&self, i: u32) -> Option<(Range, bool)>
        ensures exact { result
            ≡ option_map (λ m. (m.range, m.writable)) (slice_get self.now.ranges i) }
        ensures ranges { AreRanges self.now.ranges }
    {
        let block = self.blocks.get(i as usize)?;
        Some((block.range(), block.writable()))
    }

    /// The byte at an address.
    pub fn byte(&self, at: u32) -> u8
        requires { CanRead self.now.ranges at 1 }
        ensures { result ≡ byte_at self.now at }
    {
        self.bytes(&Range { base: at, len: 1 })[0]
    }

    /// Sets the byte at an address.
    pub fn set(&mut self, at: u32, value: u8)
        requires { CanWrite self.old.ranges at 1 }
        ensures { self.new ≡ set_byte self.old at value }
    {
        self.copy_in(at, &[value])
    }

    /// The bytes of a range.
    pub fn bytes(&self, r: &Range) -> &[u8]
        requires { CanRead self.now.ranges r.now.base r.now.len }
        ensures { result.now ≡ bytes_of self.now r.now }
    {
        if r.len == 0 {
            return &[];
        }
        let i = known_place(self.blocks.as_slice(), r);
        self.blocks[i].bytes(r)
    }

    /// Copies the bytes from an address on.
    pub fn copy_out(&self, at: u32, into: &mut [u8])
        requires { CanRead self.now.ranges at (length into.old) }
        ensures { into.new ≡ bytes_of self.now (record { base = at; len = length into.old }) }
    {
        let r = range_from(self.blocks.as_slice(), at, into.len());
        into.copy_from_slice(self.bytes(&r));
    }

    /// Writes bytes from an address on.
    pub fn copy_in(&mut self, at: u32, from: &[u8])
        requires { CanWrite self.old.ranges at (length from.now) }
        ensures { self.new ≡ put_bytes self.old at from.now }
    {
        if from.is_empty() {
            return;
        }
        let r = range_from(self.blocks.as_slice(), at, from.len());
        let i = known_place(self.blocks.as_slice(), &r);
        put_in(self.blocks.as_mut_slice(), i, at, from);
    }

    /// Writes zeros in a range.
    pub fn zero(&mut self, r: &Range)
        requires { CanWrite self.old.ranges r.now.base r.now.len }
        ensures { self.new ≡ zeroed self.old r.now }
    {
        if r.len == 0 {
            return;
        }
        let i = known_place(self.blocks.as_slice(), r);
        zero_in(self.blocks.as_mut_slice(), i, r);
    }

    /// The range of memory that contains r, where the one at the place `near` is tried first: a run of accesses in one
    /// range of memory then searches once. Any number may be given for `near`. None exactly where no range of memory
    /// contains r.
    pub fn find(&self, r: &Range, near: u32) -> Option<Found>
        requires { 0 < r.now.len }
        ensures exact { option_map (λ f. f.writable) result ≡ range_of self.now.ranges r.now }
        ensures found { IfSome result (λ f. IsFound self.now.ranges f r.now) }
        ensures end { OnSome result (end_of r.now ≤ memory_end) }
    {
        let i = place_near(self.blocks.as_slice(), r, near as usize)?;
        Some(Found {
            index: i as u32,
            writable: self.blocks[i].writable(),
        })
    }

    /// The number in a range of at most four bytes, the lowest first, where the range of memory was found.
    pub fn number(&self, found: Found, r: &Range) -> u32
        requires found { IsFound self.now.ranges found r.now }
        requires width { r.now.len ≤ 4 }
        ensures exact { result ≡ number_at (byte_at self.now) r.now.base r.now.len }
        ensures fits { result < 256 ^ r.now.len }
    {
        number(self.blocks[found.index as usize].bytes(r), 0, r.len)
    }

    /// Writes the low bytes of a number, the lowest first, in a range of at most four bytes, where the range of memory
    /// was found.
    pub fn set_number(&mut self, found: Found, r: &Range, value: u32)
        requires found { IsFound self.old.ranges found r.now }
        requires writable { IsTrue found.writable }
        requires width { r.now.len ≤ 4 }
        ensures { self.new ≡ put_bytes self.old r.now.base (low_bytes r.now.len value) }
    {
        put_number_in(self.blocks.as_mut_slice(), found.index as usize, r, value);
    }
}
