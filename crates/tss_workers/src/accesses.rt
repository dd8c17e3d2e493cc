// Accesses of a task beside its scratch: in the spots of its operands, or in memory that can't be written.
ghost use Rattle.std.specs.Prelude.{◌≡◌, ◌+◌, ◌^◌, ◌<◌, ◌≤◌, IfSome, IsTrue, Some, is_some, ℕ};
ghost use Rattle.tss_base.specs.Range.{end_of};
ghost use Rattle.tss_model.specs.Memory.{number_at, range_of};
ghost use Rattle.tss_model.specs.Core.{low_bytes};
ghost use Rattle.tss_model.specs.Access.{is_fixed};
ghost use Rattle.tss_core.specs.Views.{byte_after, is_width};
ghost use Rattle.tss_memory.specs.Ranges.{IsFound};
ghost use Rattle.tss_protocol.specs.Workers.{worker_byte, worker_write};
ghost use Rattle.tss_steps.specs.Placing.{IsGround};
ghost use Rattle.tss_workers.specs.Spots.{AreWorkable, IsInSpot, IsWritten, operands_at, placed_of, stores_of};
ghost use Rattle.tss_workers.specs.Working.{HaveSameSizes};

use crate::spots::{Seat, Spot, meets_any, spot_in, spot_with};
use tss_base::Range;
use tss_buffers::Buffers;
use tss_memory::{Found, Space};

/// The range of memory that contains a range of an operand, where the one at the place `near` is tried first.
#[inline(always)]
fn home_place(space: &Space, spots: &[Spot], i: usize, r: &Range, near: u32) -> Found
    requires some { 0 < r.now.len }
    requires ground { IsGround space.now.ranges (operands_at spots.now) }
    requires inside { IsInSpot spots.now r.now i }
    ensures found { IsFound space.now.ranges result r.now }
    ensures within { range_of space.now.ranges r.now ≡ Some result.writable }
{
    match space.find(r, near) {
        Some(found) => found,
        None => unreachable!(),
    }
}

/// The number in a range that lies in the spot at a place, and the place of the range of memory that was found last.
/// The one at the place `near` is tried first.
#[inline(always)]
pub(crate) fn number_in(
    space: &Space,
    buffers: &Buffers,
    spots: &[Spot],
    i: usize,
    r: &Range,
    near: u32,
) -> (u32, u32)
    requires workable { AreWorkable space.now.ranges buffers.now spots.now }
    requires inside { IsInSpot spots.now r.now i }
    requires width { IsTrue (is_width r.now.len) }
    ensures exact { result.0
        ≡ number_at (worker_byte (placed_of spots.now) (stores_of space.now buffers.now)) r.now.base r.now.len }
    ensures fits { result.0 < 256 ^ r.now.len }
{
    let spot = spot_in(spots, i, r);
    match spot.seat {
        Seat::Home => {
            let found = home_place(space, spots, i, r, near);
            (space.number(found, r), found.index)
        }
        Seat::Buffer(bank, place) => {
            let at = r.base - spot.object.base;
            (buffers.number(bank, place, at, r.len), near)
        }
    }
}

/// Puts the low bytes of a value in a range that lies in the spot at a place, which the task writes.
#[inline(always)]
pub(crate) fn put_in(
    space: &mut Space,
    buffers: &mut Buffers,
    spots: &[Spot],
    i: usize,
    r: &Range,
    near: u32,
    value: u32,
) -> u32
    requires workable { AreWorkable space.old.ranges buffers.old spots.now }
    requires inside { IsInSpot spots.now r.now i }
    requires written { IsWritten spots.now i }
    requires width { IsTrue (is_width r.now.len) }
    ensures exact { stores_of space.new buffers.new
        ≡ worker_write (placed_of spots.now) (stores_of space.old buffers.old) (record { at = r.now.base; bytes = low_bytes r.now.len value }) }
    ensures bytes { (a : ℕ) → worker_byte (placed_of spots.now) (stores_of space.new buffers.new) a
        ≡ byte_after (worker_byte (placed_of spots.now) (stores_of space.old buffers.old))
        (Some (record { at = r.now.base; bytes = low_bytes r.now.len value })) a }
    ensures sizes { HaveSameSizes buffers.old buffers.new }
    ensures ranges { space.new.ranges ≡ space.old.ranges }
    ensures workable { AreWorkable space.new.ranges buffers.new spots.now }
{
    let spot = spot_in(spots, i, r);
    match spot.seat {
        Seat::Home => {
            let found = home_place(space, spots, i, r, near);
            space.set_number(found, r, value);
            found.index
        }
        Seat::Buffer(bank, place) => {
            let at = r.base - spot.object.base;
            buffers.put(bank, place, at, r.len, value);
            near
        }
    }
}

/// The range of memory that contains a range and can't be written. None exactly where there is none.
#[inline(always)]
pub(crate) fn fixed_place(space: &Space, r: &Range, near: u32) -> Option<Found>
    requires { 0 < r.now.len }
    ensures exact { is_some result ≡ is_fixed (range_of space.now.ranges r.now) }
    ensures found { IfSome result (λ f. IsFound space.now.ranges f r.now) }
    ensures within { IfSome result (λ f. range_of space.now.ranges r.now ≡ Some f.writable) }
    ensures end { IfSome result (λ f. end_of r.now < 2 ^ 32) }
{
    let found = space.find(r, near)?;
    if found.writable { None } else { Some(found) }
}

/// The number in a range in memory that lies in no spot.
#[inline(always)]
pub(crate) fn fixed_number(
    space: &Space,
    buffers: &Buffers,
    spots: &[Spot],
    found: Found,
    r: &Range,
) -> u32
    requires workable { AreWorkable space.now.ranges buffers.now spots.now }
    requires found { IsFound space.now.ranges found r.now }
    requires end { end_of r.now < 2 ^ 32 }
    requires width { IsTrue (is_width r.now.len) }
    ensures exact { result
        ≡ number_at (worker_byte (placed_of spots.now) (stores_of space.now buffers.now)) r.now.base r.now.len }
    ensures fits { result < 256 ^ r.now.len }
{
    if meets_any(spots, r) {
        mixed_number(space, buffers, spots, found, r)
    } else {
        space.number(found, r)
    }
}

/// The same, byte by byte: where a range meets an object in part, some bytes may lie in the object's buffer.
fn mixed_number(space: &Space, buffers: &Buffers, spots: &[Spot], found: Found, r: &Range) -> u32
    requires workable { AreWorkable space.now.ranges buffers.now spots.now }
    requires found { IsFound space.now.ranges found r.now }
    requires end { end_of r.now < 2 ^ 32 }
    requires width { IsTrue (is_width r.now.len) }
    ensures exact { result
        ≡ number_at (worker_byte (placed_of spots.now) (stores_of space.now buffers.now)) r.now.base r.now.len }
    ensures fits { result < 256 ^ r.now.len }
{
    let first = byte(space, buffers, spots, found, r, 0);
    if r.len == 1 {
        return first;
    }
    let low = first + (byte(space, buffers, spots, found, r, 1) << 8);
    if r.len == 2 {
        return low;
    }
    let third = byte(space, buffers, spots, found, r, 2);
    let high = third + (byte(space, buffers, spots, found, r, 3) << 8);
    low + (high << 16)
}

/// A byte of a range in memory, in the spot in which it lies or else at home.
fn byte(space: &Space, buffers: &Buffers, spots: &[Spot], found: Found, r: &Range, i: u32) -> u32
    requires workable { AreWorkable space.now.ranges buffers.now spots.now }
    requires found { IsFound space.now.ranges found r.now }
    requires end { end_of r.now < 2 ^ 32 }
    requires inside { i < r.now.len }
    ensures exact { result
        ≡ worker_byte (placed_of spots.now) (stores_of space.now buffers.now) (r.now.base + i) }
    ensures fits { result < 256 }
{
    let one = Range {
        base: r.base + i,
        len: 1,
    };
    match spot_with(spots, &one, 0) {
        Some(i) => number_in(space, buffers, spots, i, &one, 0).0,
        None => space.number(found, &one),
    }
}
