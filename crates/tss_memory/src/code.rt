// The code of an image.
ghost use Rattle.std.specs.Prelude.{◌≡◌, ◌+◌, ◌*◌, ◌^◌, ◌<◌, ◌≤◌, IfOk, IfSome, IsNone, IsTrue, Some, length, option_map};
ghost use Rattle.std.specs.List.Sorted.{IsPartitionPoint};
ghost use Rattle.tss_base.specs.Range.{contains};
ghost use Rattle.tss_base.specs.Image.{segment_end};
ghost use Rattle.tss_base.specs.declared.addresses.TheConstants.{END_PC};
ghost use Rattle.tss_isa.specs.InstrTable.{fits, instr_at};
ghost use Rattle.tss_model.specs.Memory.{code_word, frozen, segment_range, segment_word};
ghost use Rattle.tss_memory.specs.Segments.{AreApart, AreKept, IsKept, segment_with, unless_break};

use std::alloc::{AllocError, Global};
use std::marker::Model;
use tss_base::addresses::END_PC;
use tss_base::{Image, Segment};
use tss_isa::{Instr, decode};
use tss_numbers::number;

/// The most words that are kept decoded, those of a megabyte.
const KEPT_WORDS: u32 = 0x4_0000;

/// The segments that can be executed, with their bytes as loaded. They never change, whatever is stored in memory. The
/// words of the first, from its base on, are kept as they are decoded, so that a step reads an instruction by its place.
/// EBREAK is kept where there is no instruction: a step at it ends its actor, so it may read the word anew.
#[derive(Drop, Debug)]
pub struct Code {
    segments: Vec<Segment>,
    start: u32,
    kept: Vec<Instr>,
}

impl Model for Code {
    ghost use Rattle.std.specs.Prelude.{List};
    ghost use Rattle.tss_base.specs.Image.{SegmentState};
    ghost use Rattle.tss_memory.specs.Segments.{IsCode};

    ghost Value = { List SegmentState };

    ghost view = { λ c. c.segments.items };

    ghost invariant = { λ c. IsCode c.segments.items c.start c.kept.items };
}

impl Code {
    /// The code of an image.
    pub(crate) fn load(alloc: Global, image: &Image) -> Result<Code, AllocError>
        ensures { IfOk result (λ c. c ≡ frozen image.now) }
    {
        let segments = code_segments(alloc, image)?;
        let (start, count) = kept_words(segments.as_slice());
        let kept = kept_from(alloc, segments.as_slice(), start, count)?;
        Ok(Code {
            segments,
            start,
            kept,
        })
    }

    /// The word at a pc. None exactly where the pc isn't a multiple of 4 or its four bytes don't lie in one segment of
    /// the code.
    pub fn fetch(&self, pc: u32) -> Option<u32>
        ensures { result ≡ code_word self.now pc }
    {
        word_at(self.segments.as_slice(), pc)
    }

    /// The instruction at a pc, where it is kept decoded. None says nothing.
    #[inline(always)]
    pub fn kept(&self, pc: u32) -> Option<Instr>
        ensures exact { IfSome result (λ i. instr_at (code_word self.now pc) ≡ Some i) }
        ensures fits { IfSome result (λ i. IsTrue (fits i)) }
        ensures end { pc ≡ END_PC → IsNone result }
    {
        let beyond = pc.wrapping_sub(self.start);
        let place = (beyond / 4) as usize;
        if beyond % 4 == 0 && place < self.kept.len() {
            let instr = self.kept[place];
            unless_break(instr)
        } else {
            None
        }
    }
}

/// An instruction that isn't EBREAK.
#[inline(always)]
fn unless_break(instr: Instr) -> Option<Instr>
    ensures { result ≡ unless_break instr }
{
    match instr {
        Instr::Ebreak => None,
        _ => Some(instr),
    }
}

/// Where the words begin that are kept decoded, and how many they are.
fn kept_words(segments: &[Segment]) -> (u32, u32)
    ensures { result.0 + 4 * result.1 ≤ END_PC }
{
    match segments.first() {
        Some(first) => {
            let start = first.base();
            if start < END_PC {
                let room = (END_PC - start) / 4;
                (start, (first.len() / 4).min(room).min(KEPT_WORDS))
            } else {
                (0, 0)
            }
        }
        None => (0, 0),
    }
}

/// What is kept for so many pcs from an address on, four apart.
fn kept_from(
    alloc: Global,
    segments: &[Segment],
    start: u32,
    count: u32,
) -> Result<Vec<Instr>, AllocError>
    requires apart { AreApart segments.now }
    requires within { start + 4 * count ≤ END_PC }
    ensures kept { IfOk result (λ kept. AreKept segments.now start kept.items) }
    ensures count { IfOk result (λ kept. length kept.items ≡ count) }
{
    let mut kept = Vec::with_capacity(alloc, count as usize)?;
    for k in 0..count {
        kept.push(kept_for(word_at(segments, start + 4 * k)))?;
    }
    Ok(kept)
}

/// What is kept for a pc that has this word, or none.
fn kept_for(word: Option<u32>) -> Instr
    ensures { IsKept word result }
{
    match word {
        Some(word) => decode(word).unwrap_or(Instr::Ebreak),
        None => Instr::Ebreak,
    }
}

/// The word at a pc.
fn word_at(segments: &[Segment], pc: u32) -> Option<u32>
    requires { AreApart segments.now }
    ensures { result ≡ code_word segments.now pc }
{
    if !pc.is_multiple_of(4) {
        return None;
    }
    let segment = segment_at(segments, pc)?;
    Some(word_in(segment, pc))
}

/// The segments of an image that can be executed.
fn code_segments(alloc: Global, image: &Image) -> Result<Vec<Segment>, AllocError>
    ensures code { IfOk result (λ segments. segments.items ≡ frozen image.now) }
    ensures apart { IfOk result (λ segments. AreApart segments.items) }
{
    let mut segments = Vec::new(alloc);
    for i in 0..image.count() {
        let segment = image.segment(i);
        if segment.code() {
            segments.push(copy_of(alloc, segment)?)?;
        }
    }
    Ok(segments)
}

/// How many segments end before an address.
fn segments_before(segments: &[Segment], end: u64) -> usize
    requires { AreApart segments.now }
    ensures { IsPartitionPoint (λ s. segment_end s < end) (λ s. end ≤ segment_end s)
        segments.now result }
{
    segments.partition_point(|s| end_of(s) < end)
}

/// The segment that has the four bytes from an address on.
fn segment_at(segments: &[Segment], at: u32) -> Option<&Segment>
    requires { AreApart segments.now }
    ensures { option_map (λ s. s.now) result ≡ segment_with segments.now at }
{
    let i = segments_before(segments, u64::from(at) + 4);
    if i < segments.len() && segments[i].base() <= at {
        Some(&segments[i])
    } else {
        None
    }
}

/// The word in a segment from an address on.
fn word_in(segment: &Segment, at: u32) -> u32
    requires { IsTrue (contains (segment_range segment.now)
        (record { base = at; len = 4 })) }
    ensures { result ≡ segment_word at segment.now }
{
    let first = (at - segment.base()) as usize;
    number(segment.bytes(), first, 4)
}

/// The address after a segment's last.
fn end_of(segment: &Segment) -> u64
    ensures { result ≡ segment_end segment.now }
{
    u64::from(segment.base()) + u64::from(segment.len())
}

/// A segment with the same bytes.
fn copy_of(alloc: Global, segment: &Segment) -> Result<Segment, AllocError>
    ensures { IfOk result (λ s. s ≡ segment.now) }
{
    let base = segment.base();
    let _len = segment.len();
    let mut bytes = Vec::with_capacity(alloc, segment.bytes().len())?;
    bytes.extend_from_slice(segment.bytes())?;
    Ok(Segment::new(base, bytes, segment.writable(), segment.code()))
}
