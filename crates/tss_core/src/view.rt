// What an actor sees of the machine.
ghost use Rattle.std.specs.Prelude.{◌≡◌, ℕ, ◌^◌, ◌<◌, IsTrue, IfOk, IfSome, IsNone, Option, Some, None};
ghost use Rattle.tss_isa.specs.InstrTable.{fits, instr_at};
ghost use Rattle.tss_base.specs.declared.addresses.TheConstants.{END_PC};
ghost use Rattle.tss_model.specs.Core.{Write};
ghost use Rattle.tss_core.specs.Views.{Sight, IsAfter, is_width, load_answer, store_answer, stored};

use crate::access::Deny;
use tss_isa::Instr;

/// What an actor sees: its bytes, its code, and what it may do.
pub trait View {
    /// Who accesses, with what the rule of access looks at; the byte at each address; and the word at each pc, as the
    /// code was loaded.
    ghost sight: { Self → Sight };

    /// What a write leaves of the whole view, or no write: beyond its sight, what its owner knows of the rest.
    ghost Leaves: { Self → Option Write → Self → Type 0 };

    /// The word that the code has at `pc`, and none where it has none.
    fn fetch(&self, pc: u32) -> Option<u32>
        ensures { result ≡ (sight self.now).word pc };

    /// The instruction at `pc`, where the view keeps it decoded. None says nothing: a view may keep no instruction.
    #[inline(always)]
    fn kept(&self, pc: u32) -> Option<Instr>
        ensures exact { IfSome result (λ i. instr_at ((sight self.now).word pc) ≡ Some i) }
        ensures fits { IfSome result (λ i. IsTrue (fits i)) }
        ensures end { pc ≡ END_PC → IsNone result }
    {
        let _pc = pc;
        None
    }

    /// The number in the `width` bytes from `at` on, the lowest first, or why the rule of access refuses it.
    fn load(&mut self, at: u32, width: u32) -> Result<u32, Deny>
        requires { IsTrue (is_width width) }
        ensures exact { result ≡ load_answer (sight self.old) at width }
        ensures fits { IfOk result (λ n. n < 256 ^ width) }
        ensures unchanged { IsAfter (sight self.old) None (sight self.new) }
        ensures leaves { Leaves self.old None self.new };

    /// Puts the `width` low bytes of `value` from `at` on, the lowest first, where the rule of access grants it.
    fn store(&mut self, at: u32, width: u32, value: u32) -> Result<(), Deny>
        requires { IsTrue (is_width width) }
        ensures exact { result ≡ store_answer (sight self.old) at width }
        ensures bytes { IsAfter (sight self.old) (stored (sight self.old) at width value) (sight self.new) }
        ensures leaves { Leaves self.old (stored (sight self.old) at width value) self.new };

    /// With no access all is as it was.
    ghost stays: { (v : Self) → Leaves v None v };
}
