//! What the laws say of each call of a unit: where a run of an accepted image on an admissible machine leaves a state,
//! and an event is enabled there, each condition of the calls by which that event is done. Each statement is over the
//! reached state and the event alone; what the laws know beside them stays below. A condition is claimed only where a
//! function here has it as its contract. It stands on `tss_values` and all that this stands on.
#![tactic(auto)]

ghost use Rattle.tss_conditions.specs.Reached.{FirstLaw, ReachedLaw};
ghost use Rattle.tss_conditions.specs.Posting.{PostingLaw};
ghost use Rattle.tss_conditions.specs.Taking.{ArrivingLaw, TakingLaw, LinesLaw};
ghost use Rattle.tss_conditions.specs.Decoding.{DecodingLaw};
ghost use Rattle.tss_conditions.specs.Opening.{RegisteredLaw, LinksLaw, OpeningLaw, UsingLaw};
ghost use Rattle.tss_conditions.specs.Releasing.{ReleasingLaw};
ghost use Rattle.tss_conditions.specs.Flying.{ReadyLaw, LinkLaw, ByeLaw};
ghost use Rattle.tss_conditions.specs.Running.{StartLaw, RunningLaw};
ghost use Rattle.tss_conditions.specs.Copying.{CopyLaw};
ghost use Rattle.tss_conditions.specs.Fitting.{FittingLaw};
ghost use Rattle.tss_conditions.specs.Filling.{WithinLaw, EntriesLaw, HeldBanksLaw, ContentsLaw, GroundLaw, MainLaw};
ghost use Rattle.tss_conditions.specs.Retiring.{IdleLaw, NackLaw, RetiringLaw, EngineLaw, GoneLaw};

/// The first state is reached, and so is the state after an enabled event.
pub fn reached()
    ensures first { FirstLaw }
    ensures next { ReachedLaw }
{}

/// The messages of an enabled event have new names, one after the other, in the mail without the message that the event
/// takes. With them it is the mail after the event, and it has room for all of them.
pub fn messages()
    ensures { PostingLaw }
{}

/// The inbox's task has a number above all that the gateway holds and that stand in the banks' lines, and isn't in
/// flight. It has the operands that it counts, no more than a task may have. Where it may be taken, there is room for
/// its decodes in the lines, and for itself in the queue where it has no operands.
pub fn inbox()
    ensures arriving { ArrivingLaw }
    ensures room { TakingLaw }
    ensures lines { LinesLaw }
{}

/// An operand that is to be decoded stands in its bank's line. No place and no buffer is held under its name, and an
/// entry at its object's base is of that object, with room for one more reader.
pub fn decodes()
    ensures { DecodingLaw }
{}

/// Each registered version is settled and has registered neighbours of its own object, the older before it. It holds a
/// place in the bank of its object, and so is its buffer held.
pub fn versions()
    ensures registered { RegisteredLaw }
    ensures links { LinksLaw }
{}

/// An open has a form that decode sends. No version has its name, its place and its buffer are held in its object's
/// bank, and what it follows is the last version of its object, where it is registered. A use has an operand with a
/// record, on the object of the version that it names.
pub fn opens()
    ensures open_message { OpeningLaw }
    ensures use_message { UsingLaw }
{}

/// A release names a registered version of its operand's object. Its producer's version is open, and a reader's has
/// fewer readers that released it than readers.
pub fn releases()
    ensures { ReleasingLaw }
{}

/// A version that asks, may not retire, or may, is registered and has asked. That which may is the last and has a
/// storage, and where it may leave a buffer, its bank copies nothing. Of one that is gone a place is held, and its
/// buffer, and where it was the last, the object's entry is about to leave.
pub fn retirement()
    ensures idle_message { IdleLaw }
    ensures nack_message { NackLaw }
    ensures retire_message { RetiringLaw }
    ensures engine { EngineLaw }
    ensures gone_message { GoneLaw }
{}

/// An operand that is told its version, or who comes next, or whether it may leave, has a record in a task in flight.
/// That which is told its version was told nothing yet, its task waits, and there is room in the queue. That which
/// leaves is of a task that has finished.
pub fn stations()
    ensures ready_message { ReadyLaw }
    ensures link_message { LinkLaw }
    ensures bye_message { ByeLaw }
{}

/// The task at the queue's front is in flight and queued, with a storage for each operand, and a worker's task is in
/// flight and runs. Its objects are apart, fit, and lie in ranges of home, writable where it writes. Its buffers are
/// held in the banks of their objects, and no two operands have the same. Those that it reads are set before its start,
/// and all of them while it runs.
pub fn workers()
    ensures start { StartLaw }
    ensures exec { RunningLaw }
{}

/// A bank copies an object of its own into one range of home that can be written, from a buffer that it holds and that
/// has contents, and some of its bytes are still to be moved.
pub fn copy()
    ensures { CopyLaw }
{}

/// A log can name every enabled event.
pub fn events()
    ensures { FittingLaw }
{}

/// No count exceeds its size. An entry stands under its object's base, and its latest version is of its object. Places
/// and buffers are held in banks of the machine, and only held buffers have contents, as many bytes as an object may
/// have. Code and the ranges of home are the image's, beside a task's scratch. Main completes, spawns and prints no
/// more than it may.
pub fn sizes()
    ensures within { WithinLaw }
    ensures entries { EntriesLaw }
    ensures held { HeldBanksLaw }
    ensures contents { ContentsLaw }
    ensures ground { GroundLaw }
    ensures main { MainLaw }
{}
