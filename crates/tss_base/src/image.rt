// Images of programs: segments of bytes in address order, and the entry.
ghost use Rattle.std.specs.Prelude.{◌≡◌, ◌<◌, ◌≤◌, ◌+◌, Some, length, vec_len, slice_get, slice_index};
ghost use Rattle.tss_base.specs.Image.{IsAccepted, IsSegment};
ghost use Rattle.tss_base.specs.declared.addresses.TheConstants.{SEGMENTS_END};

use std::marker::Model;

/// A segment of an image: its bytes as loaded, the address of the first, and whether it can be written and executed.
/// Every segment can be read.
#[derive(Drop, Debug)]
pub struct Segment {
    base: u32,
    bytes: Vec<u8>,
    writable: bool,
    code: bool,
}

impl Model for Segment {
    ghost use Rattle.tss_base.specs.Image.{SegmentState, IsSegment};

    ghost Value = { SegmentState };

    ghost view = { λ s. record { base = s.base; bytes = s.bytes.items; writable = s.writable; code = s.code } };

    ghost invariant = { λ s. IsSegment (record { base = s.base; bytes = s.bytes.items; writable = s.writable; code = s.code }) };
}

impl Segment {
    /// A segment with these bytes from `base` on.
    pub fn new(base: u32, bytes: Vec<u8>, writable: bool, code: bool) -> Segment
        requires some { 0 < vec_len bytes }
        requires end { base + vec_len bytes ≤ SEGMENTS_END }
        ensures { result ≡ record { base = base; bytes = bytes.items; writable = writable; code = code } }
    {
        Segment {
            base,
            bytes,
            writable,
            code,
        }
    }

    /// The address of its first byte.
    pub fn base(&self) -> u32
        ensures base { result ≡ self.now.base }
        ensures placed { IsSegment self.now }
    {
        self.base
    }

    /// How many bytes it has: at least one.
    pub fn len(&self) -> u32
        ensures len { result ≡ length self.now.bytes }
        ensures placed { IsSegment self.now }
    {
        self.bytes.len() as u32
    }

    /// Whether it can be written.
    pub fn writable(&self) -> bool
        ensures { result ≡ self.now.writable }
    {
        self.writable
    }

    /// Whether it can be executed.
    pub fn code(&self) -> bool
        ensures { result ≡ self.now.code }
    {
        self.code
    }

    /// Its byte at an offset.
    pub fn byte(&self, i: u32) -> u8
        requires { i < length self.now.bytes }
        ensures { result ≡ slice_index self.now.bytes i }
    {
        self.bytes[i as usize]
    }

    /// All its bytes.
    pub fn bytes(&self) -> &[u8]
        ensures { result.now ≡ self.now.bytes }
    {
        self.bytes.as_slice()
    }
}

/// An accepted image: the address of the first instruction, and its segments in address order.
#[derive(Drop, Debug)]
pub struct Image {
    entry: u32,
    segments: Vec<Segment>,
}

impl Model for Image {
    ghost use Rattle.tss_base.specs.Image.{ImageState, IsAccepted};

    ghost Value = { ImageState };

    ghost view = { λ i. record { entry = i.entry; segments = i.segments.items } };

    ghost invariant = { λ i. IsAccepted (record { entry = i.entry; segments = i.segments.items }) };
}

impl Image {
    /// An image of these segments.
    pub fn new(entry: u32, segments: Vec<Segment>) -> Image
        requires { IsAccepted (record { entry = entry; segments = segments.items }) }
        ensures { result ≡ record { entry = entry; segments = segments.items } }
    {
        Image { entry, segments }
    }

    /// The address of the first instruction.
    pub fn entry(&self) -> u32
        ensures entry { result ≡ self.now.entry }
        ensures accepted { IsAccepted self.now }
    {
        self.entry
    }

    /// How many segments it has: 1 to 256.
    pub fn count(&self) -> u32
        ensures count { result ≡ length self.now.segments }
        ensures accepted { IsAccepted self.now }
    {
        self.segments.len() as u32
    }

    /// The segment at a place in address order.
    pub fn segment(&self, i: u32) -> &Segment
        requires { i < length self.now.segments }
        ensures { slice_get self.now.segments i ≡ Some result.now }
    {
        &self.segments[i as usize]
    }
}
