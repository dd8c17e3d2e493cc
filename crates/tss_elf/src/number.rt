// Numbers in an image's bytes, the lowest byte first.
ghost use Rattle.std.specs.Prelude.{◌≡◌, ◌+◌, ◌≤◌, length};
ghost use Rattle.tss_elf.specs.Fields.{half_at, word_at};

use byteorder::{ByteOrder, LittleEndian};

/// The number in the two bytes from `at` on.
#[tactic(auto, unfolding(crate::specs::Fields::half_at))]
pub fn u16_at(bytes: &[u8], at: usize) -> u16
    requires { at + 2 ≤ length bytes.now }
    ensures { result ≡ half_at bytes.now at }
{
    LittleEndian::read_u16(&bytes[at..])
}

/// The number in the four bytes from `at` on.
#[tactic(auto, unfolding(crate::specs::Fields::word_at))]
pub fn u32_at(bytes: &[u8], at: usize) -> u32
    requires { at + 4 ≤ length bytes.now }
    ensures { result ≡ word_at bytes.now at }
{
    LittleEndian::read_u32(&bytes[at..])
}
