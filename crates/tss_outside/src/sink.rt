// A sink of bytes, with what was written where that is told, and a count of faults.
ghost use Rattle.std.specs.Prelude.{◌≤◌, ℕ, List, Option, OnOk, OnErr};
ghost use Rattle.tss_outside.specs.Outside.{Rose, AppendsWhereTold, PutsPrefix};

use crate::files::Failed;

/// Where bytes are written to, piece after piece.
pub trait Sink {
    /// All that was written, where that is told.
    ghost written: { Self → Option (List ℕ) };

    /// How often a write has failed.
    ghost faults: { Self → ℕ };

    /// Puts a piece after what was written.
    fn write_piece(&mut self, bytes: &[u8]) -> Result<(), Failed>
        ensures ok { OnOk result (AppendsWhereTold (written self.old) (written self.new) bytes.now) }
        ensures prefix { OnErr result (PutsPrefix (written self.old) (written self.new) bytes.now) }
        ensures cause { OnErr result (Rose (faults self.old) (faults self.new)) }
        ensures never_falls { faults self.old ≤ faults self.new };
}
