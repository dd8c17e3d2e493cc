// Files by name, with their bytes where they are told, and counts of faults.
ghost use Rattle.std.specs.Prelude.{◌≡◌, ◌<◌, ◌≤◌, ℕ, List, Bool, false, Option, Some, length, vec_len, IfOk, OnOk, OnErr, IfSome, IsErrOf};
ghost use Rattle.tss_outside.specs.Outside.{Held, Rose, AppendsTo, PutsPrefixTo, RaisesOnly};

use std::alloc::Global;

/// Why a file could not be read.
#[derive(Clone, Copy, Debug, PartialEq, Eq)]
pub enum FileFault {
    /// There is no such file, or reading it failed.
    Failed,
    /// More bytes than the limit were read: so many.
    TooLong(u64),
    /// Memory ran out.
    NoMemory,
}

/// A write or an append failed. A prefix of the bytes may have been put.
#[derive(Clone, Copy, Debug, PartialEq, Eq)]
pub struct Failed;

/// Files under names.
pub trait Files {
    /// What each file holds, where that is told.
    ghost held: { Self → Option Held };

    /// The names that have counts of their own. All others share one count of each kind.
    ghost knows: { Self → List ℕ → Bool };

    /// How often reading a file has failed.
    ghost read_faults: { Self → List ℕ → ℕ };

    /// How often appending to a file has failed.
    ghost append_faults: { Self → List ℕ → ℕ };

    /// All bytes of a file, of which there may be `limit`.
    fn read(&mut self, alloc: Global, name: &str, limit: u64) -> Result<Vec<u8>, FileFault>
        ensures bytes { IfOk result (λ v. IfSome (held self.old) (λ h. h name.now ≡ Some v.items)) }
        ensures short { IfOk result (λ v. vec_len v ≤ limit) }
        ensures too_long { (n : ℕ) → IsErrOf result (FileFault.TooLong n) → limit < n }
        ensures longer { (n : ℕ) → IsErrOf result (FileFault.TooLong n) →
            IfSome (held self.old) (λ h. (b : List ℕ) × (h name.now ≡ Some b) × (n ≤ length b)) }
        ensures cause { IsErrOf result FileFault.Failed →
            Rose (read_faults self.old name.now) (read_faults self.new name.now) }
        ensures counts { RaisesOnly (knows self.old) (read_faults self.old) (read_faults self.new) name.now }

        // All else stays.
        ensures held { held self.new ≡ held self.old }
        ensures knows { (n : List ℕ) → knows self.new n ≡ knows self.old n }
        ensures append_faults { (n : List ℕ) → append_faults self.new n ≡ append_faults self.old n };

    /// Puts bytes after what a file holds, in a new file where there is none.
    fn append(&mut self, name: &str, bytes: &[u8]) -> Result<(), Failed>
        ensures ok { OnOk result (AppendsTo (held self.old) (held self.new) name.now bytes.now) }
        ensures prefix { OnErr result (PutsPrefixTo (held self.old) (held self.new) name.now bytes.now) }
        ensures cause { OnErr result (Rose (append_faults self.old name.now) (append_faults self.new name.now)) }
        ensures counts { RaisesOnly (knows self.old) (append_faults self.old) (append_faults self.new) name.now }

        // All else stays.
        ensures knows { (n : List ℕ) → knows self.new n ≡ knows self.old n }
        ensures read_faults { (n : List ℕ) → read_faults self.new n ≡ read_faults self.old n };

    /// Names that aren't known share one count of faults of reading,
    ghost shared_read_faults: { (files : Self) (n m : List ℕ) → knows files n ≡ false → knows files m ≡ false →
        read_faults files n ≡ read_faults files m };

    /// and one of faults of appending.
    ghost shared_append_faults: { (files : Self) (n m : List ℕ) → knows files n ≡ false → knows files m ≡ false →
        append_faults files n ≡ append_faults files m };
}
