// The scratch of a task.
ghost use Rattle.std.specs.Prelude.{◌≡◌, ◌+◌, ◌-◌, ◌^◌, ◌<◌, ◌≤◌, IfOk, IsTrue, length, slice_index, vec_len};
ghost use Rattle.tss_base.specs.Range.{contains};
ghost use Rattle.tss_model.specs.Memory.{number_at, list_put, scratch_range, zeros};
ghost use Rattle.tss_model.specs.Core.{low_bytes};
ghost use Rattle.tss_core.specs.Views.{is_width};
ghost use Rattle.tss_steps.specs.Scratches.{AreZero};

use std::alloc::{AllocError, Global};
use std::marker::Model;
use tss_base::addresses::SCRATCH;
use tss_base::{NoMemory, Range};
use tss_numbers::{number, put};

/// The bytes of the scratch of the task that runs. The next task finds zeros in it. A stack grows downwards from its end,
/// so what was written since it was cleared is kept as the part from `low` on, and that alone is cleared again.
#[derive(Drop)]
pub struct Scratch {
    bytes: Vec<u8>,
    low: usize,
}

impl Model for Scratch {
    ghost use Rattle.std.specs.Prelude.{ℕ, List};
    ghost use Rattle.tss_steps.specs.Scratches.{IsScratch};

    ghost Value = { List ℕ };

    ghost view = { λ s. s.bytes.items };

    ghost invariant = { λ s. IsScratch s.bytes.items s.low };
}

impl Scratch {
    /// Zeros.
    pub fn open(alloc: Global) -> Result<Scratch, NoMemory>
        ensures { IfOk result (λ s. s ≡ zeros scratch_range.len) }
    {
        Ok(Scratch {
            bytes: zero_bytes(alloc, SCRATCH.len as usize)?,
            low: SCRATCH.len as usize,
        })
    }

    /// Puts a zero in each place.
    pub fn clear(&mut self)
        ensures { self.new ≡ zeros scratch_range.len }
    {
        clear_from(self.bytes.as_mut_slice(), self.low);
        self.low = SCRATCH.len as usize;
    }

    /// All bytes.
    pub fn bytes(&self) -> &[u8]
        ensures bytes { result.now ≡ self.now }
        ensures whole { length result.now ≡ scratch_range.len }
    {
        self.bytes.as_slice()
    }

    /// The number in the bytes of an access, the lowest first.
    #[inline(always)]
    pub fn number(&self, r: &Range) -> u32
        requires inside { IsTrue (contains scratch_range r.now) }
        requires width { IsTrue (is_width r.now.len) }
        ensures exact { result ≡ number_at (slice_index self.now) (r.now.base - scratch_range.base) r.now.len }
        ensures fits { result < 256 ^ r.now.len }
    {
        number(
            self.bytes.as_slice(),
            (r.base - SCRATCH.base) as usize,
            r.len,
        )
    }

    /// Puts the low bytes of a value in those of an access, the lowest first.
    #[inline(always)]
    pub fn put(&mut self, r: &Range, value: u32)
        requires inside { IsTrue (contains scratch_range r.now) }
        requires width { IsTrue (is_width r.now.len) }
        ensures exact { self.new ≡ list_put self.old (r.now.base - scratch_range.base) (low_bytes r.now.len value) }
        ensures len { length self.old ≡ scratch_range.len }
    {
        let at = (r.base - SCRATCH.base) as usize;
        put(self.bytes.as_mut_slice(), at, r.len, value);
        self.low = self.low.min(at);
    }
}

/// So many zeros.
fn zero_bytes(alloc: Global, count: usize) -> Result<Vec<u8>, AllocError>
    ensures zeros { IfOk result (λ bytes. bytes.items ≡ zeros count) }
    ensures len { IfOk result (λ bytes. vec_len bytes ≡ count) }
{
    vec![in alloc; 0; count]
}

/// Puts a zero in each place from one on, where zeros stand before it.
fn clear_from(bytes: &mut [u8], low: usize)
    requires within { low ≤ length bytes.old }
    requires zeros { AreZero bytes.old low }
    ensures { bytes.new ≡ zeros (length bytes.old) }
{
    clear(&mut bytes[low..]);
}

/// Puts a zero in each place.
#[tactic(auto, unfolding(tss_model::specs::Memory::zeros))]
fn clear(bytes: &mut [u8])
    ensures { bytes.new ≡ zeros (length bytes.old) }
{
    bytes.fill(0);
}
