// The memory of an image before its first instruction.
ghost use Rattle.std.specs.Prelude.{◌≡◌, ◌-◌, IsTrue, length};
ghost use Rattle.tss_base.specs.Range.{contains};
ghost use Rattle.tss_model.specs.Memory.{bytes_of, loaded, segment_range};
ghost use Rattle.tss_memory.specs.Ranges.{IsInside};
ghost use Rattle.tss_memory.specs.Blocks.{part_of};

use crate::block::clear;
use tss_base::{Image, Range, Segment};

/// Copies the bytes of a range as they are before the first instruction. The range lies in that range of memory which
/// stands at the place `i` in address order. Nothing is searched, and no memory is made.
pub fn copy_as_loaded(image: &Image, i: u32, r: &Range, into: &mut [u8])
    requires inside { IsInside ((loaded image.now).ranges) i r.now }
    requires len { length into.old ≡ r.now.len }
    ensures { into.new ≡ bytes_of (loaded image.now) r.now }
{
    if i < image.count() {
        into.copy_from_slice(part_in(image.segment(i), r));
    } else {
        clear(into);
    }
}

/// The bytes of a range in a segment.
fn part_in<'a>(segment: &'a Segment, r: &Range) -> &'a [u8]
    requires { IsTrue (contains (segment_range segment.now) r.now) }
    ensures { result.now ≡ part_of segment.now.bytes (r.now.base - segment.now.base) r.now.len }
{
    let first = (r.base - segment.base()) as usize;
    &segment.bytes()[first..first + r.len as usize]
}
