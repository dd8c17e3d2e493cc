// The checks of the file header, and those of the kept segments together.
ghost use Rattle.std.specs.Prelude.{◌≡◌, ◌*◌, ◌+◌, ◌<◌, ◌≤◌, All, length, sum_by, OnOk};
ghost use Rattle.std.specs.List.{list_any};
ghost use Rattle.std.specs.List.Sorted.{IsNonDecreasingBy};
ghost use Rattle.std.specs.Result.{result_err};
ghost use Rattle.tss_base.specs.declared.bounds.TheConstants.{MAX_SEGMENTS};
ghost use Rattle.tss_elf.specs.declared.checking.TheConstants.{FILE_HEADER_LEN};
ghost use Rattle.tss_elf.specs.declared.header.TheConstants.{HEADER_LEN};
ghost use Rattle.tss_elf.specs.Fields.{header_count, headers_place, is_code};
ghost use Rattle.tss_elf.specs.Checks.{first_failing, file_checks, names_float_abi, kept_checks, has_overlap, has_code_at};

use crate::header::{HEADER_LEN, ProgramHeader};
use crate::number::{u16_at, u32_at};
use crate::refusal::Refusal;
use tss_base::bounds::{MAX_IMAGE_BYTES, MAX_SEGMENTS};

/// How many bytes a file header has.
pub const FILE_HEADER_LEN: usize = 52;

const EXECUTABLE_FILE: u16 = 2;

const RISC_V: u16 = 243;

const FLOAT_ABI: u32 = 6;

/// Whether the flags name an ABI with registers for numbers with a fraction.
fn has_float_abi(flags: u32) -> bool
    ensures { result ≡ names_float_abi flags }
{
    flags & FLOAT_ABI != 0
}

/// Whether the file header passes its checks. If it does, the program headers are few and lie in the file.
pub fn check_file(bytes: &[u8]) -> Result<(), Refusal>
    ensures first { result_err result ≡ first_failing (file_checks bytes.now) }
    ensures whole { OnOk result (FILE_HEADER_LEN ≤ length bytes.now) }
    ensures few { OnOk result (header_count bytes.now ≤ MAX_SEGMENTS) }
    ensures placed { OnOk result (0 < header_count bytes.now
        → headers_place bytes.now + HEADER_LEN * header_count bytes.now ≤ length bytes.now) }
{
    if bytes.len() < FILE_HEADER_LEN {
        return Err(Refusal::Short);
    }
    if !bytes.starts_with(b"\x7FELF") {
        return Err(Refusal::Magic);
    }
    if bytes[4] != 1 {
        return Err(Refusal::Class);
    }
    if bytes[5] != 1 {
        return Err(Refusal::Data);
    }
    if bytes[6] != 1 || u32_at(bytes, 20) != 1 {
        return Err(Refusal::Version);
    }
    if u16_at(bytes, 16) != EXECUTABLE_FILE {
        return Err(Refusal::FileType);
    }
    if u16_at(bytes, 18) != RISC_V {
        return Err(Refusal::Machine);
    }
    if has_float_abi(u32_at(bytes, 36)) {
        return Err(Refusal::Flags);
    }
    let count = usize::from(u16_at(bytes, 44));
    if count > MAX_SEGMENTS as usize || count > 0 && usize::from(u16_at(bytes, 42)) != HEADER_LEN {
        return Err(Refusal::HeaderSize);
    }
    if count > 0 && u32_at(bytes, 28) as usize + HEADER_LEN * count > bytes.len() {
        return Err(Refusal::HeaderPlace);
    }
    Ok(())
}

/// Whether some two of the segments, which come in the order of their addresses, share an address. Neighbours decide.
fn overlaps(kept: &[ProgramHeader]) -> bool
    requires sorted { IsNonDecreasingBy (λ h. h.address) kept.now }
    requires some { All (λ h. 0 < h.memory_size) kept.now }
    ensures { result ≡ has_overlap kept.now }
{
    for i in 1..kept.len() {
        if kept[i - 1].range().end() > u64::from(kept[i].address) {
            return true;
        }
    }
    false
}

/// Whether a segment can be executed.
fn some_code(kept: &[ProgramHeader]) -> bool
    ensures { result ≡ list_any is_code kept.now }
{
    kept.iter().any(|header| header.is_code())
}

/// Whether the four bytes from `entry` on lie in a segment that can be executed.
fn some_code_at(kept: &[ProgramHeader], entry: u32) -> bool
    ensures { result ≡ list_any (has_code_at entry) kept.now }
{
    kept.iter().any(|header| header.has_code_at(entry))
}

/// How many bytes the segments have together.
fn total_len(kept: &[ProgramHeader]) -> u64
    requires { length kept.now ≤ MAX_SEGMENTS }
    ensures { result ≡ sum_by (λ h. h.memory_size) kept.now }
{
    kept.iter()
        .map(|header| u64::from(header.memory_size))
        .sum()
}

/// Whether the kept segments, in the order of their addresses, pass the checks of all of them together.
pub fn check_kept(kept: &[ProgramHeader], entry: u32) -> Result<(), Refusal>
    requires sorted { IsNonDecreasingBy (λ h. h.address) kept.now }
    requires some { All (λ h. 0 < h.memory_size) kept.now }
    requires few { length kept.now ≤ MAX_SEGMENTS }
    ensures { result_err result ≡ first_failing (kept_checks entry kept.now) }
{
    if overlaps(kept) {
        return Err(Refusal::Overlap);
    }
    if !some_code(kept) {
        return Err(Refusal::NoCode);
    }
    if entry % 4 != 0 || !some_code_at(kept, entry) {
        return Err(Refusal::EntryPlace);
    }
    if total_len(kept) > u64::from(MAX_IMAGE_BYTES) {
        return Err(Refusal::TooLarge);
    }
    Ok(())
}
