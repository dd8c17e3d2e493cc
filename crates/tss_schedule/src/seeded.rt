// The schedule of a seed.
ghost use Rattle.std.specs.Prelude.{◌≡◌};
ghost use Rattle.tss_protocol.specs.Schedule.{seeded};
ghost use Rattle.tss_schedule.specs.Picks.{Fits};
ghost use Rattle.tss_schedule.specs.Seeds.{seeded_picks};

use crate::schedule::{Pick, Schedule};
use rand_core::SeedableRng;
use rand_core::utils::NextWord;
use rand_pcg::Pcg32;
use std::marker::Model;
use tss_pipeline::Pipeline;

/// Draws the next event among those that may happen, each by a word of a generator, until the run is over.
#[derive(Drop)]
pub struct Seeded {
    generator: Pcg32,
}

impl Model for Seeded {
    ghost use Rattle.rand_pcg.specs.Lcg.{Lcg};

    ghost Value = { Lcg };

    ghost view = { λ s. s.generator };
}

impl Seeded {
    /// The schedule of a seed.
    pub fn new(seed: u64) -> Seeded
        ensures { result ≡ seeded seed }
    {
        Seeded {
            generator: Pcg32::seed_from_u64(seed),
        }
    }
}

impl Schedule for Seeded {
    ghost picks = { seeded_picks };

    /// An event that may happen, or the end, and then the run is over.
    fn pick(&mut self, p: &Pipeline) -> Pick
        ensures picks { (result, self.new) ≡ seeded_picks self.old p.now }
        ensures fits { Fits p.now result }
    {
        p.reached();
        if p.finished() {
            return Pick::End;
        }
        let word: u32 = self.generator.next_word();
        match p.enabled_at(word % p.enabled_count()) {
            Some(e) => Pick::Do(e),
            None => Pick::End,
        }
    }
}
