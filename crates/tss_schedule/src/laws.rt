// What is said of the two schedules over whole runs.
ghost use Rattle.tss_schedule.specs.Goings.{CountLaw};
ghost use Rattle.tss_schedule.specs.Seeds.{SeededFitsLaw, SeededFaultLaw, SeededLaw};
ghost use Rattle.tss_schedule.specs.Givens.{GivenLaw};

/// In a state that a run leaves, the number of events that may happen is 0 exactly where the run is over.
pub fn going()
    ensures { CountLaw }
{}

/// What the schedule of a seed does. In a state that a run leaves, its pick is an event that may happen, or it ends, and
/// then the run is over; so a run from there has no fault. From the start the run is that of the seed.
pub fn by_seed()
    ensures fits { SeededFitsLaw }
    ensures no_fault { SeededFaultLaw }
    ensures run { SeededLaw }
{}

/// What the schedule of a log does, from the start: its events and its fault are those of the log's judgement, where
/// lines are counted from 1, a header among them.
pub fn by_log()
    ensures { GivenLaw }
{}
