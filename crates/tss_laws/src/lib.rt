//! The laws over every run of the unit machine, stated over the definitions alone: refinement of the execution in
//! program order, with what holds of every reachable state, progress, the bound on events, and no false wait. A law is
//! claimed only where a function here has it as its contract. Each is proved in one of `tss_program_order`,
//! `tss_names`, `tss_control`, `tss_progress` and `tss_values`, and is only joined to its statement here.
#![tactic(auto)]

ghost use Rattle.tss_program_order.specs.Refinement.{ResultLaw, SizesLaw, ProducedBytesLaw, WorkerBytesLaw};
ghost use Rattle.tss_program_order.specs.Refinement.{MainStateLaw};
ghost use Rattle.tss_progress.specs.Progress.{EnabledLaw, FinishedLaw};
ghost use Rattle.tss_progress.specs.Bound.{EventsLaw};
ghost use Rattle.tss_progress.specs.NoFalseWait.{QueuedLaw};
ghost use Rattle.tss_program_order.specs.MainInOrder.{MainInOrderLaw, MainCutOffLaw, MainStoresLaw};
ghost use Rattle.tss_control.specs.Controlled.{RoundLaw, ControlLaw, OneMessageLaw};
ghost use Rattle.tss_names.specs.Tasks.{TaskNumbersLaw, GatewayLaw, SlotsLaw, DecodeOrderLaw};
ghost use Rattle.tss_names.specs.Stages.{StagesLaw};
ghost use Rattle.tss_names.specs.Names.{NamesLaw};
ghost use Rattle.tss_names.specs.Openings.{OpeningsLaw};
ghost use Rattle.tss_names.specs.Tables.{TablesLaw};
ghost use Rattle.tss_names.specs.Asking.{AskingLaw};
ghost use Rattle.tss_names.specs.Held.{HeldPlacesLaw};
ghost use Rattle.tss_names.specs.UseCounts.{ReadersLaw};
ghost use Rattle.tss_names.specs.MessageCounts.{MessagesLaw};

/// Every run refines the execution in program order under the machine's limits, for every accepted image, every
/// admissible machine and every order of events. A finished run has the ending, the number of tasks and the output of
/// program order, and at home its memory, unless program order ends by the trap of a task. None of the seven counts
/// ever exceeds its size. Where program order starts the task that writes a produced version, and runs it to its end,
/// the version has a storage, with the bytes of the version's object right after that task. A busy worker is where
/// program order has its task after as many instructions, where that runs all earlier tasks to their ends: in
/// registers, scratch memory and the bytes of each operand; and a trap on the worker is the task's trap there. Where
/// program order has a state after as many instructions of main, main's registers, named objects, number of spawned
/// tasks and pieces are as there, and so is home at each address but those of objects that have an entry, are in the
/// inbox, or are still to be decoded.
pub fn refines()
    ensures result { ResultLaw }
    ensures sizes { SizesLaw }
    ensures produced_bytes { ProducedBytesLaw }
    ensures worker_bytes { WorkerBytesLaw }
    ensures main_state { MainStateLaw }
{}

/// No run gets stuck: in a state that isn't finished some event is enabled, so the run can go on. In a finished state,
/// which is drained and has main's ending or a task's trap, no event is enabled.
pub fn progress()
    ensures enabled { EnabledLaw }
    ensures finished { FinishedLaw }
{}

/// No run has more events than `event_bound`, a number that the machine alone gives: of main one for each instruction
/// and one that ends, of each task take, start, finish, one for each instruction and one more, and of each operand ten
/// and one for each 64 bytes of the longest object.
pub fn bound()
    ensures events { EventsLaw }
{}

/// No task waits needlessly. Where no message is under way, each task in flight runs or has finished, or is in the
/// ready queue, or needs a task that hasn't finished: by the operands of the tasks spawned before it since the last
/// barrier, an input needs the last that writes its object, an inout that one and those that read the object since, and
/// an output none.
pub fn no_false_wait()
    ensures queued { QueuedLaw }
{}

/// One event of main. Where main's registers, number of spawned tasks, epoch, pieces and ending are those of program
/// order after as many steps of main, and home has its bytes wherever main may load, the first holds again after the
/// event, or the task that it spawned traps in program order. A task that went to the inbox is the one that program
/// order starts there. Home still agrees with program order at each address where it did, but for the objects of that
/// task, which main may not load from then on; so a barrier or an await, after which main may load more, adds nothing
/// to that. Once a task that main has spawned traps, program order ends with it, and what main has printed with fewer
/// tasks spawned stays its output. Whatever went before, the event changes home only at addresses that main may load.
pub fn main_event()
    ensures in_order { MainInOrderLaw }
    ensures cut_off { MainCutOffLaw }
    ensures stores { MainStoresLaw }
{}

/// The state is controlled: each operand is in order, the versions of an object stand in a chain with the opens and
/// uses that are on their way, entries know the latest version and its readers, a version that asks to retire may do so
/// unless there is a cause, the readers of a version wait for one another in the order in which they came, and each
/// operand holds what its phase says.
pub fn control()
    ensures { ControlLaw }
{}

/// The tasks since the last barrier are among those spawned, and no two operands of one of them are on one object.
pub fn round()
    ensures { RoundLaw }
{}

/// Of the decode, open, use, ready, release and bye of an operand at most one is under way.
pub fn one_message()
    ensures { OneMessageLaw }
{}

/// Spawned tasks are numbered from 1 in their order, at most as many as there may be, and each with at most as many
/// operands as it may have. The inbox has none but the last of them. A task in flight stands under its number and was
/// taken, so its number is at most that of the last task spawned, and less while the inbox is full. It has a record for
/// each of its operands, in order.
pub fn task_numbers()
    ensures { TaskNumbersLaw }
{}

/// The gateway has operands of at most `window` tasks, all of them taken. An operand is in it exactly where either its
/// decode or its ack is under way, and never are both. A decode has the operand of its name.
pub fn gateway()
    ensures { GatewayLaw }
{}

/// No station ever has more tasks in flight than slots.
pub fn slots()
    ensures { SlotsLaw }
{}

/// Where an operand of a spawned task is still to be decoded, so is each operand of a later task on an object of the
/// same bank: its task is in the inbox, or its decode is under way.
pub fn decode_order()
    ensures { DecodeOrderLaw }
{}

/// A task in flight waits exactly where one of its operands isn't ready, one that is queued is in the ready queue, one
/// that runs is on a worker, and one that has finished has an operand whose farewell isn't done. What is in the queue
/// or on a worker was taken and has its operands. A busy worker is one of the machine's, has a storage for each operand
/// of its task, and has completed no more instructions than a task may.
pub fn stages()
    ensures { StagesLaw }
{}

/// Each name in the stations, the workers, the tables for renaming and versioning, the copy engines, and the messages
/// but decodes is of an operand that has been decoded: its task was taken, its place is one of its task's, and its
/// decode isn't under way. The names of registered versions and copies, of readers in a version's chain, of operands
/// that are ready, and of ready, link, release, bye, idle, nack, retire and gone messages are of operands whose open
/// and use aren't under way either.
pub fn names()
    ensures { NamesLaw }
{}

/// Of an operand's decode, open, use and version there is one at most. An open has the operand of its name, a use is of
/// an input, and a version is of the object of the operand of its name.
pub fn openings()
    ensures { OpeningsLaw }
{}

/// Five of the seven counts never exceed their sizes: of slots, workers, entries, version places and buffers.
pub fn tables()
    ensures { TablesLaw }
{}

/// A version that asks whether it may retire has exactly one message of this under way: that it asks, with its object
/// and the number of its readers, that it may not, or that it may. No other version has any.
pub fn asking()
    ensures { AskingLaw }
{}

/// A place is held under the name of an open under way, of a version, of one that is copied home, or of one that is
/// gone with its message under way. Under one name there is one of these at most, and each holds a place in the bank of
/// its object.
pub fn held_places()
    ensures { HeldPlacesLaw }
{}

/// Neither an entry of a renaming table nor a version counts more readers than a run may have operands.
pub fn reader_counts()
    ensures { ReadersLaw }
{}

/// There are never more tasks in flight than slots, no more decode and ack messages together than `window` tasks may
/// have operands, and no more open, idle, nack, retire and gone messages together than places of versions.
pub fn message_counts()
    ensures { MessagesLaw }
{}
