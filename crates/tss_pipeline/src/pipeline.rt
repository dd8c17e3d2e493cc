// The unit machine.
ghost use Rattle.std.specs.Prelude.{◌≡◌, IfOk, length, option_map, slice_get};
ghost use Rattle.tss_base.specs.Image.{IsAccepted};
ghost use Rattle.tss_base.specs.Machine.{IsAdmissible};
ghost use Rattle.tss_protocol.specs.State.{initial_state};
ghost use Rattle.tss_protocol.specs.Counts.{counts_of};
ghost use Rattle.tss_protocol.specs.Result.{is_finished, result_of, tasks_of, printed_of};
ghost use Rattle.tss_protocol.specs.UnitMachine.{enabled_events};
ghost use Rattle.tss_pipeline.specs.Seen.{IsReached, StepsTo};

use crate::keeping::Tested;
use crate::step::NotEnabled;
use crate::units::Units;
use std::alloc::Global;
use std::marker::Model;
use tss_base::{Counts, Ending, Event, Image, Machine, NoMemory};
use tss_memory::Space;

/// The unit machine: a program's main with its memory, the units, and the messages under way. Whoever has it does one event
/// at a time, in any order. A contract sees the machine's description and the state of the definitions. All memory of the
/// process is taken when it is opened.
pub struct Pipeline {
    pub(crate) units: Units,
    counts: Counts,
    tested: Tested,
}

impl Model for Pipeline {
    ghost use Rattle.tss_pipeline.specs.Seen.{PipelineState, pipeline_code};
    ghost use Rattle.tss_pipeline.specs.State.{seen_of};
    ghost use Rattle.tss_pipeline.specs.Keeping.{IsKept};

    ghost Value = { PipelineState };

    ghost coded = { pipeline_code };

    ghost view = { λ p. seen_of p.units };

    ghost invariant = { λ p. IsKept p.units p.counts p.tested };
}

impl Pipeline {
    /// The machine before the first event of an image's run.
    pub fn open(alloc: Global, image: &Image, machine: &Machine) -> Result<Pipeline, NoMemory>
        requires { IsAdmissible machine.now }
        ensures { IfOk result (λ p. p ≡ record { machine = machine.now; state = initial_state image.now }) }
    {
        let units = Units::open(alloc, image, machine)?;
        let counts = units.counts();
        let tested = match units.tested(alloc) {
            Ok(tested) => tested,
            Err(fault) => {
                units.close();
                return Err(fault);
            }
        };
        Ok(Pipeline {
            units,
            counts,
            tested,
        })
    }

    /// Does one event, where it may happen.
    pub fn step(&mut self, e: Event) -> Result<(), NotEnabled>
        ensures { StepsTo e self.old self.new result }
    {
        if !self.units.is_enabled(e) {
            return Err(NotEnabled);
        }
        self.units.event(e);
        self.counts = self.units.counts_after(&e, &self.counts);
        self.units.keep(&e, &mut self.tested);
        Ok(())
    }

    /// How many events may happen. What may happen is kept from event to event.
    pub fn enabled_count(&self) -> u32
        ensures { result ≡ length (enabled_events self.now.machine self.now.state) }
    {
        self.units.enabled_count(&self.tested)
    }

    /// The event at a place, from 0, of those that may happen, in the order of events.
    pub fn enabled_at(&self, i: u32) -> Option<Event>
        ensures { result ≡ slice_get (enabled_events self.now.machine self.now.state) i }
    {
        self.units.enabled_at(&self.tested, i)
    }

    /// Whether the run is over.
    pub fn finished(&self) -> bool
        ensures { result ≡ is_finished self.now.state }
    {
        self.units.finished()
    }

    /// How full each table is. This is kept from event to event, and nothing is counted here.
    pub fn counts(&self) -> Counts
        ensures { result ≡ counts_of self.now.machine self.now.state }
    {
        self.counts
    }

    /// The ending of a run that is over, and none of any other.
    pub fn result(&self) -> Option<Ending>
        ensures { result ≡ option_map (λ r. r.ending) (result_of self.now.state) }
    {
        self.units.result()
    }

    /// How many tasks count: those that main has spawned, or up to the one whose trap is held.
    pub fn tasks(&self) -> u32
        ensures { result ≡ tasks_of self.now.state }
    {
        self.units.tasks()
    }

    /// What counts of what main has printed.
    pub fn output(&self) -> &[u8]
        ensures { result.now ≡ printed_of self.now.state }
    {
        self.units.output()
    }

    /// Memory.
    pub fn space(&self) -> &Space
        ensures { result.now ≡ self.now.state.home }
    {
        &self.units.space
    }

    /// Says that some run of an accepted image leaves this state, so that the laws over every run hold of it. Does nothing.
    pub fn reached(&self)
        ensures reached { IsReached self.now.machine self.now.state }
    {
        let _ = &self.units;
    }

    /// Ends the machine, in any state.
    pub fn close(self) {
        let Pipeline {
            units,
            counts: _,
            tested: _,
        } = self;
        units.close();
    }
}
