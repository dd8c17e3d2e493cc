// Where the events of a run are put, a line each.
ghost use Rattle.std.specs.Prelude.{◌≡◌, ◌≤◌, ℕ, List, Option, IsTrue, OnOk, OnErr};
ghost use Rattle.tss_base.specs.Event.{fits};
ghost use Rattle.tss_outside.specs.Outside.{Held, Rose, AppendsWhereTold};
ghost use Rattle.tss_log.specs.Logs.{event_line, followed_by, Follows, Stays, Grows, HoldsPart};

use tss_base::Event;
use tss_outside::Failed;

/// Where the events of a run are put, a line each. A log may keep lines, and puts them into its file later.
pub trait Log {
    /// What the log's file holds, where that is told.
    ghost held: { Self → Option (List ℕ) };

    /// The same, followed by what the log still keeps.
    ghost text: { Self → Option (List ℕ) };

    /// What each file of another name holds, where that is told. Under the log's own name it has nothing.
    ghost other: { Self → Option Held };

    /// How often putting lines into the file has failed.
    ghost faults: { Self → ℕ };

    /// What no call changes behind a log: where its file is, and what else its maker relies on.
    ghost keeps: { Self → Self → Type 0 };

    /// Puts an event's line after the text.
    fn line(&mut self, e: &Event) -> Result<(), Failed>
        requires { IsTrue (fits e.now) }
        ensures ok { OnOk result (AppendsWhereTold (text self.old) (text self.new) (event_line e.now)) }
        ensures prefix { OnErr result (HoldsPart (followed_by (event_line e.now) (text self.old)) (held self.new)) }
        ensures cause { OnErr result (Rose (faults self.old) (faults self.new)) }
        ensures never_falls { faults self.old ≤ faults self.new }
        ensures grows { Grows (held self.old) (held self.new) }
        ensures others { Stays (other self.old) (other self.new) }
        ensures keeps { keeps self.old self.new };

    /// Puts all that is kept into the file.
    fn close(&mut self) -> Result<(), Failed>
        ensures ok { OnOk result (Stays (text self.old) (text self.new)) }
        ensures none_kept { OnOk result (held self.new ≡ text self.new) }
        ensures prefix { OnErr result (HoldsPart (text self.old) (held self.new)) }
        ensures cause { OnErr result (Rose (faults self.old) (faults self.new)) }
        ensures never_falls { faults self.old ≤ faults self.new }
        ensures grows { Grows (held self.old) (held self.new) }
        ensures others { Stays (other self.old) (other self.new) }
        ensures keeps { keeps self.old self.new };

    /// The text is what is held, with what is kept after it.
    ghost kept_after_held: { (log : Self) → Follows (held log) (text log) };

    /// Where nothing is done it is kept,
    ghost keeps_itself: { (log : Self) → keeps log log };

    /// and where one step keeps it and the next does, both together do.
    ghost keeps_then: { (a b c : Self) → keeps a b → keeps b c → keeps a c };
}

/// No log: what is put is let go of. It tells nothing, and never fails.
#[derive(Clone, Copy, Debug, Drop)]
pub struct NoLog {}

impl Log for NoLog {
    ghost use Rattle.std.specs.Prelude.{None};

    ghost held = { λ s. None };

    ghost text = { λ s. None };

    ghost other = { λ s. None };

    ghost faults = { λ s. 0 };

    ghost keeps = { λ a b. Unit {0} };

    fn line(&mut self, _e: &Event) -> Result<(), Failed> {
        Ok(())
    }

    fn close(&mut self) -> Result<(), Failed> {
        Ok(())
    }

    ghost use Rattle.std.specs.Prelude.{[]};
    ghost use Rattle.std.proofs.Common.{refl};

    ghost kept_after_held = { λ s. ([], refl) };

    ghost keeps_itself = { λ s. tt };

    ghost keeps_then = { λ a b c p q. tt };
}
