// A pipeline driven by a schedule.
ghost use Rattle.std.specs.Prelude.{◌≡◌, ◌+◌, ◌^◌, ◌<◌, OnOk};
ghost use Rattle.tss_protocol.specs.Counts.{counts_of, greater_counts};
ghost use Rattle.tss_schedule.specs.declared.driving.ScheduleFault.TheVariants as fault;
ghost use Rattle.tss_schedule.specs.Driving.{driven, TurnsOn, Drives, AnswersExactly, EndsInOrder};

use crate::schedule::{Pick, Schedule};
use thiserror::Error;
use tss_base::{Counts, Event, Peaks};
use tss_log::Log;
use tss_outside::Failed;
use tss_pipeline::{NotEnabled, Pipeline};

/// Why a drive did not come to the end of a run. Picks are counted from 1.
#[derive(Clone, Copy, Debug, PartialEq, Eq, Error)]
pub enum ScheduleFault {
    /// The pick of this number was no event.
    #[error("pick {0} is no event")]
    BadLine(u64),
    /// The event of this pick could not happen, in a run that wasn't over.
    #[error("the event of pick {0} may not happen")]
    NotEnabled(u64),
    /// The schedule ended at this pick, and the run wasn't over.
    #[error("the run isn't over at pick {0}, where the schedule ends")]
    Short(u64),
    /// This pick was an event, and the run was over.
    #[error("the run is over before pick {0}")]
    Long(u64),
    /// A line could not be written into the log.
    #[error("the log could not be written")]
    WriteFault,
}

impl From<Failed> for ScheduleFault {
    ghost from_gives = { λ _ e. e ≡ fault.WriteFault };

    fn from(_e: Failed) -> ScheduleFault {
        ScheduleFault::WriteFault
    }
}

/// The greater of each count.
fn greater(a: &Counts, b: &Counts) -> Counts
    ensures { result ≡ greater_counts a.now b.now }
{
    Counts {
        messages: a.messages.max(b.messages),
        slots: a.slots.max(b.slots),
        ready: a.ready.max(b.ready),
        workers: a.workers.max(b.workers),
        entries: a.entries.max(b.entries),
        versions: a.versions.max(b.versions),
        buffers: a.buffers.max(b.buffers),
    }
}

/// Makes the pick of a number, and does its event: none where the schedule ends and the run is over.
fn turn<S: Schedule>(
    p: &mut Pipeline,
    schedule: &mut S,
    number: u64,
) -> Result<Option<Event>, ScheduleFault>
    ensures { TurnsOn S.Schedule.picks number (driven p.old schedule.old) (driven p.new schedule.new) result }
{
    match schedule.pick(p) {
        Pick::Bad => Err(ScheduleFault::BadLine(number)),
        Pick::End => {
            if p.finished() {
                Ok(None)
            } else {
                Err(ScheduleFault::Short(number))
            }
        }
        Pick::Do(e) => {
            if p.finished() {
                return Err(ScheduleFault::Long(number));
            }
            match p.step(e) {
                Ok(()) => Ok(Some(e)),
                Err(NotEnabled) => Err(ScheduleFault::NotEnabled(number)),
            }
        }
    }
}

/// Does what a schedule picks until it ends, and puts the line of each event into the log once the event is done. After
/// the last the log is closed. It answers the number of events and the greatest counts among the states before the
/// first, between, and after the last. After an error the pipeline is in the state after the events done before it.
pub fn drive<S: Schedule, L: Log>(
    p: &mut Pipeline,
    schedule: &mut S,
    log: &mut L,
) -> Result<Peaks, ScheduleFault>
    ensures run { Drives S.Schedule.picks L.Log (driven p.old schedule.old) (driven p.new schedule.new) log.old log.new result }

    // Each answer but that of a failed write comes exactly where the schedule comes to it.
    ensures exact { AnswersExactly S.Schedule.picks (driven p.old schedule.old) result }

    // What the pipeline then has is the result of program order.
    ensures in_order { OnOk result (EndsInOrder p.old p.new) }
{
    p.reached();
    let mut peaks = Peaks {
        events: 0,
        counts: p.counts(),
    };
    while let Some(e) = turn(p, schedule, peaks.events + 1)? {
        peaks = Peaks {
            events: peaks.events + 1,
            counts: greater(&peaks.counts, &p.counts()),
        };
        log.line(&e)?;
    }
    log.close()?;
    Ok(peaks)
}
