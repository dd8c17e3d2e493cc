// From bytes to an image.
ghost use Rattle.std.specs.Prelude.{◌≡◌, ◌+◌, ◌*◌, ◌<◌, ◌≤◌, length, All, IfOk, IfErr, map, None};
ghost use Rattle.std.specs.List.Sorted.{IsNonDecreasingBy, IsPermutation};
ghost use Rattle.tss_base.specs.Image.{IsAccepted};
ghost use Rattle.tss_elf.specs.declared.checking.TheConstants.{FILE_HEADER_LEN};
ghost use Rattle.tss_elf.specs.declared.header.TheConstants.{HEADER_LEN};
ghost use Rattle.tss_elf.specs.Fields.{headers_place, header_count, kept_headers as kept_of};
ghost use Rattle.tss_elf.specs.Checks.{each_header_checks, first_failing, file_checks};
ghost use Rattle.tss_elf.specs.Elf.{CanLoad, Passes, segment_of, image_of, Gives, IfAccepted};

use crate::checking::{check_file, check_kept};
use crate::header::{HEADER_LEN, ProgramHeader};
use crate::number::{u16_at, u32_at};
use crate::refusal::ImageFault;
use std::alloc::Global;
use tss_base::{Image, Segment};

/// The headers of the kept segments, in the order of the file, where every header passes its checks.
fn kept_headers(alloc: Global, bytes: &[u8]) -> Result<Vec<ProgramHeader>, ImageFault>
    requires whole { FILE_HEADER_LEN ≤ length bytes.now }
    requires placed { 0 < header_count bytes.now
        → headers_place bytes.now + HEADER_LEN * header_count bytes.now ≤ length bytes.now }
    ensures { Passes result (first_failing (each_header_checks bytes.now))
        (λ kept. kept.items ≡ kept_of bytes.now) }
{
    let place = u32_at(bytes, 28) as usize;
    let count = usize::from(u16_at(bytes, 44));
    let mut kept = Vec::with_capacity(alloc, count)?;
    for i in 0..count {
        let header = ProgramHeader::read(bytes, place + HEADER_LEN * i);
        header.check(bytes.len())?;
        if header.is_kept() {
            kept.push(header)?;
        }
    }
    Ok(kept)
}

/// Puts the headers in the order of their addresses.
fn sort_by_address(headers: &mut [ProgramHeader])
    ensures permutation { IsPermutation headers.old headers.new }
    ensures sorted { IsNonDecreasingBy (λ h. h.address) headers.new }
{
    headers.sort_unstable_by_key(|header| header.address);
}

/// The segment of a header: the bytes of the file that it names, and zeros after them.
fn segment(alloc: Global, bytes: &[u8], header: &ProgramHeader) -> Result<Segment, ImageFault>
    requires { CanLoad (length bytes.now) header.now }
    ensures ok { IfOk result (λ s. s ≡ segment_of bytes.now header.now) }
    ensures err { IfErr result (λ e. e ≡ ImageFault.NoMemory) }
{
    let start = header.offset as usize;
    let stored = &bytes[start..start + header.file_size as usize];
    let len = header.memory_size as usize;
    let mut loaded = Vec::with_capacity(alloc, len)?;
    loaded.extend_from_slice(stored)?;
    loaded.resize(len, 0)?;
    Ok(Segment::new(
        header.address,
        loaded,
        header.is_writable(),
        header.is_code(),
    ))
}

/// The segments of these headers, in their order.
fn segments(
    alloc: Global,
    bytes: &[u8],
    headers: &[ProgramHeader],
) -> Result<Vec<Segment>, ImageFault>
    requires { All (CanLoad (length bytes.now)) headers.now }
    ensures ok { IfOk result (λ s. s.items ≡ map (segment_of bytes.now) headers.now) }
    ensures err { IfErr result (λ e. e ≡ ImageFault.NoMemory) }
{
    let mut segments = Vec::with_capacity(alloc, headers.len())?;
    for header in headers {
        segments.push(segment(alloc, bytes, header)?)?;
    }
    Ok(segments)
}

/// The image of a file whose headers pass, from those that are kept in the order of their addresses.
fn load(alloc: Global, bytes: &[u8], kept: &[ProgramHeader]) -> Result<Image, ImageFault>
    requires file { first_failing (file_checks bytes.now) ≡ None }
    requires each { first_failing (each_header_checks bytes.now) ≡ None }
    requires all { IsPermutation (kept_of bytes.now) kept.now }
    requires sorted { IsNonDecreasingBy (λ h. h.address) kept.now }
    ensures { Gives result (image_of bytes.now) }
{
    let entry = u32_at(bytes, 24);
    check_kept(kept, entry)?;
    let segments = segments(alloc, bytes, kept)?;
    Ok(Image::new(entry, segments))
}

/// The image that the bytes are, all of them, or the number of the first check that they fail.
pub fn read_image(alloc: Global, bytes: &[u8]) -> Result<Image, ImageFault>
    ensures exact { Gives result (image_of bytes.now) }
    // Whatever the answer: an image that can be run.
    ensures accepted { IfAccepted (image_of bytes.now) IsAccepted }
{
    check_file(bytes)?;
    let mut kept = kept_headers(alloc, bytes)?;
    sort_by_address(&mut kept);
    load(alloc, bytes, &kept)
}
