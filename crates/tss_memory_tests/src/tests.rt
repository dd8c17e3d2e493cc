// What no clause says: that loading succeeds, also at the largest sizes; and the calls on values from outside.
ghost use Rattle.std.specs.Prelude.{◌≡◌};
ghost use Rattle.tss_model.specs.Memory.{loaded};

use std::alloc::Global;
use std::fmt::Debug;
use std::process::Abort;
use std::test::Fail;
use tss_base::{Image, Range, Segment};
use tss_isa::{ImmOp, Instr};
use tss_memory::{Space, copy_as_loaded};

/// Checks that two values are equal. A call has fewer steps than `assert_eq!`, so a test of many is proved sooner.
fn check_eq<T: PartialEq + Debug + Copy>(rt: &impl Abort, left: T, right: T) {
    assert_eq!(rt; left, right);
}

/// The base of the first segment.
const FIRST: u32 = 0x10000;

/// The address after the last of an image of 64 MiB from there on.
const LIMIT: u32 = 0x4010000;

/// So many segments side by side, each of `len` bytes that are all the segment's number from 1 on, and each writable
/// and code.
fn striped(rt: &impl Abort, alloc: Global, count: u8, len: u32) -> Result<Image, Fail> {
    assert!(rt; 0 < count && 4 <= len);
    let mut segments = Vec::new(alloc);
    let mut at = FIRST;
    for k in 0..count {
        assert!(rt; len <= LIMIT - at);
        let bytes = vec![in alloc; k + 1; len as usize]?;
        segments.push(Segment::new(at, bytes, true, true))?;
        at += len;
    }
    Ok(Image::new(FIRST, segments))
}

/// Writes the byte at an address, which can be written, and reads it again.
fn write_and_read(rt: &impl Abort, space: &mut Space, at: u32)
    ensures { space.new.ranges ≡ space.old.ranges }
{
    assert!(rt; space.range_of(&Range { base: at, len: 1 }) == Some(true));
    space.set(at, 0xA5);
    check_eq(rt, space.byte(at), 0xA5);
}

/// Reads the four bytes from an address on as they were loaded.
fn is_loaded(rt: &impl Abort, image: &Image, space: &Space, at: u32, expected: [u8; 4])
    requires { space.now.ranges ≡ (loaded image.now).ranges }
{
    let r = Range { base: at, len: 4 };
    let found = space.find(&r, 0);
    assert!(rt; found.is_some());
    if let Some(found) = found {
        let mut bytes = [0xEE; 4];
        copy_as_loaded(image, found.index, &r, &mut bytes);
        check_eq(rt, bytes, expected);
    }
}

#[test]
fn a_space_of_64_mib_loads(rt: HostRuntime) -> Result<(), Fail> {
    let image = striped(&rt, rt.alloc(), 1, LIMIT - FIRST)?;
    let (mut space, code) = Space::load(rt.alloc(), &image)?;
    let all = Range {
        base: FIRST,
        len: LIMIT - FIRST,
    };
    let stack = Range {
        base: 0xFFFE0000,
        len: 0x10000,
    };
    check_eq(&rt, space.range_at(0), Some((all, true)));
    check_eq(&rt, space.range_at(1), Some((stack, true)));
    check_eq(&rt, space.range_at(2), None);
    write_and_read(&rt, &mut space, LIMIT - 1);
    check_eq(&rt, code.fetch(LIMIT - 4), Some(0x01010101));
    check_eq(&rt, code.fetch(LIMIT), None);
    Ok(())
}

#[test]
fn each_of_the_most_ranges_is_written_at_both_ends(rt: HostRuntime) -> Result<(), Fail> {
    let image = striped(&rt, rt.alloc(), 255, 6)?;
    let (mut space, _code) = Space::load(rt.alloc(), &image)?;
    for i in 0..256 {
        let (r, writable) = space.range_at(i).ok_or("too few ranges")?;
        assert!(rt; writable && 0 < r.len && r.len <= 0x10000 && r.base <= 0xFFFE0000);
        let last = r.base + (r.len - 1);
        write_and_read(&rt, &mut space, r.base);
        write_and_read(&rt, &mut space, last);
        check_eq(&rt, space.range_of(&Range { base: last, len: 2 }), None);
    }
    check_eq(&rt, space.range_at(256), None);
    Ok(())
}

#[test]
fn overwritten_code_is_fetched_as_loaded(rt: HostRuntime) -> Result<(), Fail> {
    let image = striped(&rt, rt.alloc(), 2, 6)?;
    let (mut space, code) = Space::load(rt.alloc(), &image)?;
    let word = Range {
        base: FIRST,
        len: 4,
    };
    assert!(rt; space.range_of(&word) == Some(true));
    space.zero(&word);
    check_eq(&rt, space.bytes(&word), [0, 0, 0, 0].as_slice());
    check_eq(&rt, code.fetch(FIRST), Some(0x01010101));
    check_eq(&rt, code.fetch(FIRST + 4), None);
    check_eq(&rt, code.fetch(FIRST + 8), Some(0x02020202));
    check_eq(&rt, code.fetch(FIRST + 10), None);
    Ok(())
}

#[test]
fn numbers_have_their_lowest_byte_first(rt: HostRuntime) -> Result<(), Fail> {
    let image = striped(&rt, rt.alloc(), 1, 8)?;
    let (mut space, _code) = Space::load(rt.alloc(), &image)?;
    let word = Range {
        base: FIRST + 2,
        len: 4,
    };
    let found = space.find(&word, 9).ok_or("not found")?;
    assert!(rt; found.writable);
    space.set_number(found, &word, 0x0D0C0B0A);
    check_eq(&rt, space.number(found, &word), 0x0D0C0B0A);
    let mut bytes = [0; 8];
    let whole = Range {
        base: FIRST,
        len: 8,
    };
    assert!(rt; space.range_of(&whole) == Some(true));
    space.copy_out(FIRST, &mut bytes);
    check_eq(&rt, bytes, [1, 1, 0x0A, 0x0B, 0x0C, 0x0D, 1, 1]);
    space.copy_in(FIRST, &[7; 8]);
    check_eq(&rt, space.number(found, &word), 0x07070707);
    Ok(())
}

#[test]
fn overwritten_bytes_are_told_as_loaded(rt: HostRuntime) -> Result<(), Fail> {
    let image = striped(&rt, rt.alloc(), 2, 6)?;
    let (mut space, _code) = Space::load(rt.alloc(), &image)?;
    write_and_read(&rt, &mut space, FIRST + 2);
    write_and_read(&rt, &mut space, FIRST + 11);
    write_and_read(&rt, &mut space, 0xFFFEFFFF);
    is_loaded(&rt, &image, &space, FIRST + 2, [1; 4]);
    is_loaded(&rt, &image, &space, FIRST + 8, [2; 4]);
    is_loaded(&rt, &image, &space, 0xFFFEFFFC, [0; 4]);
    Ok(())
}

#[test]
fn the_first_segment_keeps_its_instructions(rt: HostRuntime) -> Result<(), Fail> {
    // addi x6, x5, -1; ebreak; no instruction; half a word
    let bytes = vec![in rt.alloc();
        0x13, 0x83, 0xF2, 0xFF, 0x73, 0x00, 0x10, 0x00, 0x00, 0x00, 0x00, 0x00, 0x13, 0x83,
    ]?;
    let segments = vec![in rt.alloc(); Segment::new(FIRST, bytes, false, true)]?;
    let (_, code) = Space::load(rt.alloc(), &Image::new(FIRST, segments))?;
    let decrement = Instr::OpImm {
        op: ImmOp::Addi,
        rd: 6,
        rs1: 5,
        imm: -1,
    };
    check_eq(&rt, code.kept(FIRST), Some(decrement));
    for at in [FIRST - 4, FIRST + 2, FIRST + 4, FIRST + 8, FIRST + 12] {
        assert_eq!(rt; code.kept(at), None, "at {at}");
    }
    Ok(())
}
