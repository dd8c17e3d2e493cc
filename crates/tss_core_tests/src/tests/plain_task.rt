// A plain view of a task over a small memory.
ghost use Rattle.tss_base.specs.declared.addresses.TheConstants.{SEGMENTS_END};
ghost use Rattle.std.specs.Prelude.{◌≡◌, ◌+◌, ◌^◌, ◌<◌, ◌≤◌, ◌||◌, true, length, vec_len, IsTrue, Some};
ghost use Rattle.tss_base.specs.Range.{contains};
ghost use Rattle.tss_model.specs.Memory.{scratch_range, number_at};
ghost use Rattle.tss_model.specs.Core.{low_bytes};
ghost use Rattle.tss_core.specs.Views.{is_width, write_at};
ghost use Rattle.tss_core_tests.specs.Plain.{are_inside, lies_in, task_byte, task_bytes_after, scratch_after};

use crate::tests::blocks::{within, word_at};
use tss_base::addresses::SCRATCH;
use tss_base::{Operand, Range};
use tss_core::{Deny, Purpose, View, task_access};
use tss_numbers::{number, put};

/// What a task sees of a small memory: its one range, the bytes from address 0 on, which main can write or not; its
/// scratch; its operands, whose objects lie in that range; and code, whose words stand from `text` on.
#[derive(Drop, Debug)]
pub struct PlainTask {
    pub bytes: Vec<u8>,
    pub writable: bool,
    pub scratch: Vec<u8>,
    pub operands: Vec<Operand>,
    pub text: u32,
    pub code: Vec<u32>,
    ghost placed: { vec_len bytes ≤ SEGMENTS_END },
    ghost whole: { vec_len scratch ≡ 0x10000 },
    ghost inside: { are_inside (length bytes.items) operands.items ≡ true },
}

impl View for PlainTask {
    ghost use Rattle.std.specs.Prelude.{◌≡◌};
    ghost use Rattle.tss_core_tests.specs.Plain.{task_sight, task_bytes_after, scratch_after};

    ghost sight = { λ v. task_sight v.bytes.items v.writable v.scratch.items v.operands.items v.text v.code.items };

    ghost Leaves = { λ v w after. (after.bytes.items ≡ task_bytes_after v.bytes.items w)
        × (after.scratch.items ≡ scratch_after v.scratch.items w) };

    ghost stays = { λ v. (λ i. v.bytes.items, λ i. v.scratch.items) };

    #[inline(always)]
    fn fetch(&self, pc: u32) -> Option<u32> {
        word_at(self.text, &self.code, pc)
    }

    #[inline(always)]
    fn load(&mut self, at: u32, width: u32) -> Result<u32, Deny> {
        let r = Range {
            base: at,
            len: width,
        };
        task_access(
            Purpose::Loads,
            &self.operands,
            &r,
            within(&self.bytes, self.writable, &r),
        )?;
        Ok(read(&self.bytes, &self.scratch, at, width))
    }

    #[inline(always)]
    fn store(&mut self, at: u32, width: u32, value: u32) -> Result<(), Deny> {
        let r = Range {
            base: at,
            len: width,
        };
        task_access(
            Purpose::Stores,
            &self.operands,
            &r,
            within(&self.bytes, self.writable, &r),
        )?;
        write(&mut self.bytes, &mut self.scratch, at, width, value);
        Ok(())
    }
}

/// The number in the `width` bytes from `at` on, of the scratch where they lie there.
#[inline(always)]
fn read(bytes: &[u8], scratch: &[u8], at: u32, width: u32) -> u32
    requires width { IsTrue (is_width width) }
    requires placed { length bytes.now ≤ SEGMENTS_END }
    requires whole { length scratch.now ≡ 0x10000 }
    requires there { IsTrue (lies_in (length bytes.now) (record { base = at; len = width })) }
    ensures exact { result ≡ number_at (task_byte bytes.now scratch.now) at width }
    ensures fits { result < 256 ^ width }
{
    if at >= SCRATCH.base {
        number(scratch, (at - SCRATCH.base) as usize, width)
    } else {
        number(bytes, at as usize, width)
    }
}

/// Puts the `width` low bytes of a value from `at` on, into the scratch where they lie there.
#[inline(always)]
fn write(bytes: &mut [u8], scratch: &mut [u8], at: u32, width: u32, value: u32)
    requires width { IsTrue (is_width width) }
    requires placed { length bytes.old ≤ SEGMENTS_END }
    requires whole { length scratch.old ≡ 0x10000 }
    requires there { IsTrue (lies_in (length bytes.old) (record { base = at; len = width })) }
    ensures bytes { bytes.new ≡ task_bytes_after bytes.old (Some (write_at at width value)) }
    ensures scratch { scratch.new ≡ scratch_after scratch.old (Some (write_at at width value)) }
{
    if at >= SCRATCH.base {
        put(scratch, (at - SCRATCH.base) as usize, width, value);
    } else {
        put(bytes, at as usize, width, value);
    }
}
