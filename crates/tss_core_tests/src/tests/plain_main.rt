// A plain view of main over a small memory.
ghost use Rattle.std.specs.Prelude.{◌^◌, ◌<◌, vec_len};

use crate::tests::blocks::{touches, within, word_at};
use tss_base::Range;
use tss_core::{Deny, Purpose, View, main_access};
use tss_numbers::{number, put};

/// What main sees of a small memory: its one range, the bytes from address 0 on, which can be written or not; the
/// objects that it has named; and code, whose words stand from `text` on.
#[derive(Drop, Debug)]
pub struct PlainMain {
    pub bytes: Vec<u8>,
    pub writable: bool,
    pub named: Vec<Range>,
    pub text: u32,
    pub code: Vec<u32>,
    ghost placed: { vec_len bytes < 2 ^ 32 },
}

impl View for PlainMain {
    ghost use Rattle.std.specs.Prelude.{◌≡◌};
    ghost use Rattle.tss_core_tests.specs.Plain.{main_sight, bytes_after};

    ghost sight = { λ v. main_sight v.bytes.items v.writable v.named.items v.text v.code.items };

    ghost Leaves = { λ v w after. after.bytes.items ≡ bytes_after v.bytes.items w };

    ghost stays = { λ v i. v.bytes.items };

    #[inline(always)]
    fn fetch(&self, pc: u32) -> Option<u32> {
        word_at(self.text, &self.code, pc)
    }

    #[inline(always)]
    fn load(&mut self, at: u32, width: u32) -> Result<u32, Deny> {
        let r = Range {
            base: at,
            len: width,
        };
        main_access(
            Purpose::Loads,
            within(&self.bytes, self.writable, &r),
            touches(&self.named, &r),
        )?;
        Ok(number(&self.bytes, at as usize, width))
    }

    #[inline(always)]
    fn store(&mut self, at: u32, width: u32, value: u32) -> Result<(), Deny> {
        let r = Range {
            base: at,
            len: width,
        };
        main_access(
            Purpose::Stores,
            within(&self.bytes, self.writable, &r),
            touches(&self.named, &r),
        )?;
        put(&mut self.bytes, at as usize, width, value);
        Ok(())
    }
}
