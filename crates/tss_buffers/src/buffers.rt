// The bytes of the rename buffers.
ghost use Rattle.std.specs.Prelude.{◌≡◌, ◌+◌, ◌*◌, ◌^◌, ◌<◌, ◌≤◌, IfOk, IfSome, IsSome, IsTrue, is_some, length, slice_index};
ghost use Rattle.std.specs.FinMap.{empty, get, insert, remove};
ghost use Rattle.tss_base.specs.declared.bounds.TheConstants.{MAX_BANKS, MAX_BUFFERS, MAX_OBJECT_BYTES};
ghost use Rattle.tss_model.specs.Memory.{list_put, number_at, zeros};
ghost use Rattle.tss_model.specs.Core.{low_bytes};
ghost use Rattle.tss_protocol.specs.Buffers.{buffer_bytes};
ghost use Rattle.tss_buffers.specs.Contents.{HasBuffer, is_width, seat};

use crate::parts::{clear_in, no_marks, number, part, put_in, zero_bytes};
use std::alloc::Global;
use std::marker::Model;
use tss_base::NoMemory;

/// The buffers of all banks, each with as many bytes as the greatest object: those of a bank after one another, and the
/// banks after one another. A buffer is set from `zero` until `unset`.
#[derive(Drop)]
pub struct Buffers {
    banks: u32,
    each: u32,
    object_bytes: u32,
    bytes: Vec<u8>,
    set: Vec<bool>,
}

impl Model for Buffers {
    ghost use Rattle.tss_buffers.specs.Contents.{BuffersState, buffers_code};
    ghost use Rattle.tss_buffers.specs.Block.{contents_of, IsBlock};

    ghost Value = { BuffersState };

    ghost coded = { buffers_code };

    ghost view = { λ b. record {
      banks = b.banks;
      each = b.each;
      object_bytes = b.object_bytes;
      contents = contents_of b.each b.object_bytes b.set.items b.bytes.items;
    } };

    ghost invariant = { λ b. IsBlock b.banks b.each b.object_bytes b.set.items b.bytes.items };
}

impl Buffers {
    /// `each` buffers of `object_bytes` bytes in each of so many banks, none of them set.
    pub fn open(
        alloc: Global,
        banks: u32,
        each: u32,
        object_bytes: u32,
    ) -> Result<Buffers, NoMemory>
        requires banks { banks ≤ MAX_BANKS }
        requires each { each ≤ MAX_BUFFERS }
        requires bytes { object_bytes ≤ MAX_OBJECT_BYTES }
        ensures { IfOk result (λ b. b ≡ record {
          banks = banks;
          each = each;
          object_bytes = object_bytes;
          contents = empty;
        }) }
    {
        let count = banks as usize * each as usize;
        Ok(Buffers {
            banks,
            each,
            object_bytes,
            bytes: zero_bytes(alloc, count * object_bytes as usize)?,
            set: no_marks(alloc, count)?,
        })
    }

    /// How many bytes a buffer has.
    pub fn object_bytes(&self) -> u32
        ensures { result ≡ self.now.object_bytes }
    {
        self.object_bytes
    }

    /// How many banks there are.
    pub fn banks(&self) -> u32
        ensures { result ≡ self.now.banks }
    {
        self.banks
    }

    /// Whether a buffer is set.
    pub fn is_set(&self, bank: u32, place: u32) -> bool
        requires { HasBuffer self.now bank place }
        ensures { result ≡ is_some (get self.now.contents (seat bank place)) }
    {
        self.set[number_of(self.each, bank, place)]
    }

    /// The bytes of a buffer. Of one that isn't set they say nothing.
    pub fn bytes(&self, bank: u32, place: u32) -> &[u8]
        requires { HasBuffer self.now bank place }
        ensures exact { IfSome (get self.now.contents (seat bank place)) (λ bytes. result.now ≡ bytes) }
        ensures len { length result.now ≡ self.now.object_bytes }
    {
        let first = number_of(self.each, bank, place) * self.object_bytes as usize;
        part(self.bytes.as_slice(), first, self.object_bytes)
    }

    /// The number in `width` bytes of a buffer that is set, from a place in it on, the lowest first.
    #[inline(always)]
    pub fn number(&self, bank: u32, place: u32, at: u32, width: u32) -> u32
        requires there { HasBuffer self.now bank place }
        requires set { IsSome (get self.now.contents (seat bank place)) }
        requires width { IsTrue (is_width width) }
        requires within { at + width ≤ self.now.object_bytes }
        ensures exact { result
            ≡ number_at (slice_index (buffer_bytes self.now.contents (seat bank place))) at width }
        ensures fits { result < 256 ^ width }
    {
        number(self.bytes(bank, place), at as usize, width)
    }

    /// Puts the `width` low bytes of a value in a buffer that is set, from a place in it on, the lowest first.
    #[inline(always)]
    pub fn put(&mut self, bank: u32, place: u32, at: u32, width: u32, value: u32)
        requires there { HasBuffer self.old bank place }
        requires set { IsSome (get self.old.contents (seat bank place)) }
        requires width { IsTrue (is_width width) }
        requires within { at + width ≤ self.old.object_bytes }
        ensures exact { self.new ≡ record self.old {
          contents = insert self.old.contents (seat bank place)
              (list_put (buffer_bytes self.old.contents (seat bank place)) at (low_bytes width value));
        } }
        ensures len { length (buffer_bytes self.old.contents (seat bank place)) ≡ self.old.object_bytes }
    {
        let first = number_of(self.each, bank, place) * self.object_bytes as usize;
        put_in(
            self.bytes.as_mut_slice(),
            first,
            self.object_bytes,
            at,
            width,
            value,
        );
    }

    /// Takes a buffer's bytes away: it isn't set.
    pub fn unset(&mut self, bank: u32, place: u32)
        requires { HasBuffer self.old bank place }
        ensures { self.new ≡ record self.old { contents = remove self.old.contents (seat bank place) } }
    {
        self.set[number_of(self.each, bank, place)] = false;
    }

    /// Sets a buffer: all its bytes are zeros.
    pub fn zero(&mut self, bank: u32, place: u32)
        requires { HasBuffer self.old bank place }
        ensures { self.new ≡ record self.old {
          contents = insert self.old.contents (seat bank place) (zeros self.old.object_bytes);
        } }
    {
        let number = number_of(self.each, bank, place);
        let first = number * self.object_bytes as usize;
        clear_in(self.bytes.as_mut_slice(), first, self.object_bytes);
        self.set[number] = true;
    }
}

/// The number of a buffer among those of all banks.
fn number_of(each: u32, bank: u32, place: u32) -> usize
    requires each { each ≤ MAX_BUFFERS }
    requires bank { bank ≤ MAX_BANKS }
    requires place { place < each }
    ensures { result ≡ bank * each + place }
{
    bank as usize * each as usize + place as usize
}
