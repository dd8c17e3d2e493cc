// Blocks of bytes, and what the plain views ask of them.
ghost use Rattle.std.specs.Prelude.{◌≡◌, ◌^◌, ◌<◌, length};
ghost use Rattle.tss_model.specs.Memory.{range_of};
ghost use Rattle.tss_model.specs.Access.{touches};
ghost use Rattle.tss_core_tests.specs.Plain.{plain_word, plain_ranges};

use tss_base::Range;

/// The word at a pc, where the code stands from `text` on.
#[inline(always)]
pub(crate) fn word_at(text: u32, code: &[u32], pc: u32) -> Option<u32>
    ensures { result ≡ plain_word text code.now pc }
{
    if pc % 4 == 0 && text <= pc {
        code.get(((pc - text) / 4) as usize).copied()
    } else {
        None
    }
}

/// Whether the one range of memory, the bytes from address 0 on, can be written, where the access lies wholly inside
/// it.
#[inline(always)]
pub(crate) fn within(bytes: &[u8], writable: bool, r: &Range) -> Option<bool>
    requires { length bytes.now < 2 ^ 32 }
    ensures { result ≡ range_of (plain_ranges (length bytes.now) writable) r.now }
{
    let memory = Range {
        base: 0,
        len: bytes.len() as u32,
    };
    if memory.contains(r) {
        Some(writable)
    } else {
        None
    }
}

/// Whether the access meets one of the objects.
#[inline(always)]
pub(crate) fn touches(named: &[Range], r: &Range) -> bool
    ensures { result ≡ touches named.now r.now }
{
    named.iter().any(|object| object.meets(r))
}
