// How full the tables are after an event, by how full they were.
ghost use Rattle.std.specs.Prelude.{◌≡◌};
ghost use Rattle.tss_protocol.specs.Counts.{counts_of};
ghost use Rattle.tss_pipeline.specs.Keeping.{WereCounts};
ghost use Rattle.tss_pipeline.specs.State.{state_of};

use crate::changing::changes;
use crate::units::Units;
use tss_base::{Counts, Event};

impl Units {
    /// The most slots that are taken of one station, after an event.
    fn slots_after(&self, e: &Event, before: &Counts) -> u32
        requires { WereCounts e.now self.now before.now }
        ensures { result ≡ (counts_of self.now.machine (state_of self.now)).slots }
    {
        if changes(e).flight {
            self.most_slots()
        } else {
            before.slots
        }
    }

    /// The most entries of one bank, after an event.
    fn entries_after(&self, e: &Event, before: &Counts) -> u32
        requires { WereCounts e.now self.now before.now }
        ensures { result ≡ (counts_of self.now.machine (state_of self.now)).entries }
    {
        if changes(e).entries {
            self.most_entries()
        } else {
            before.entries
        }
    }

    /// The most places that are held of one bank, after an event.
    fn places_after(&self, e: &Event, before: &Counts) -> u32
        requires { WereCounts e.now self.now before.now }
        ensures { result ≡ (counts_of self.now.machine (state_of self.now)).versions }
    {
        if changes(e).places {
            self.most_places()
        } else {
            before.versions
        }
    }

    /// The most buffers that are held of one bank, after an event.
    fn buffers_after(&self, e: &Event, before: &Counts) -> u32
        requires { WereCounts e.now self.now before.now }
        ensures { result ≡ (counts_of self.now.machine (state_of self.now)).buffers }
    {
        if changes(e).buffers {
            self.most_buffers()
        } else {
            before.buffers
        }
    }

    /// How full each table is after an event, by how full each was before it. Of what the event leaves alone nothing is
    /// counted.
    pub(crate) fn counts_after(&self, e: &Event, before: &Counts) -> Counts
        requires { WereCounts e.now self.now before.now }
        ensures { result ≡ counts_of self.now.machine (state_of self.now) }
    {
        Counts {
            messages: self.mail.count(),
            slots: self.slots_after(e, before),
            ready: self.queue.len(),
            workers: self.workers.busy(),
            entries: self.entries_after(e, before),
            versions: self.places_after(e, before),
            buffers: self.buffers_after(e, before),
        }
    }
}
