// What says which event a pipeline does next.
ghost use Rattle.std.specs.Prelude.{◌≡◌};
ghost use Rattle.tss_pipeline.specs.Seen.{PipelineState};

use tss_base::Event;
use tss_pipeline::Pipeline;

/// What a schedule says: an event to do, a line that is no event's text, or that it ends.
#[derive(Clone, Copy, Debug, PartialEq, Eq)]
pub enum Pick {
    Do(Event),
    Bad,
    End,
}

/// What says which event a pipeline does next. Whether the event may happen is left to who drives the pipeline.
pub trait Schedule {
    ghost use Rattle.tss_schedule.specs.declared.schedule.Pick.{Pick};

    /// By what the schedule holds and the pipeline as it stands, the pick, and what the schedule holds afterwards.
    ghost picks: { Self → PipelineState → Pick × Self };

    /// The next pick.
    fn pick(&mut self, p: &Pipeline) -> Pick
        ensures { (result, self.new) ≡ picks self.old p.now };
}
