// A run that is over.
ghost use Rattle.std.specs.Prelude.{◌≡◌};
ghost use Rattle.tss_base.specs.Machine.{IsAdmissible};
ghost use Rattle.tss_model.specs.InOrder.{in_order};
ghost use Rattle.tss_model.specs.Memory.{loaded};
ghost use Rattle.tss_unit_runs.specs.Finished.{HasMemory};

use std::marker::Model;
use tss_base::{Ending, Image, Machine, Peaks};
use tss_memory::Space;
use tss_pipeline::Pipeline;

/// A run of an image on the unit machine that is over, with its peaks. Its ending, number of tasks and output, and its
/// memory unless a task trapped, are read from the unit machine, and are those of program order.
pub struct FinishedRun {
    pub(crate) image: Image,
    pub(crate) pipeline: Pipeline,
    pub(crate) peaks: Peaks,
}

impl Model for FinishedRun {
    ghost use Rattle.tss_unit_runs.specs.Finished.{FinishedRunState, finished_run_code, IsOver};

    ghost Value = { FinishedRunState };

    ghost coded = { finished_run_code };

    ghost view = { λ r. record { machine = r.pipeline.machine; image = r.image; peaks = r.peaks } };

    ghost invariant = { λ r. IsOver r.pipeline r.image };
}

impl FinishedRun {
    /// The machine's description.
    pub fn machine(&self) -> &Machine
        ensures exact { result.now ≡ self.now.machine }
        ensures admissible { IsAdmissible self.now.machine }
    {
        self.pipeline.machine()
    }

    /// The image that ran.
    pub fn image(&self) -> &Image
        ensures { result.now ≡ self.now.image }
    {
        &self.image
    }

    /// The number of events, and the greatest of each count during the run.
    pub fn peaks(&self) -> &Peaks
        ensures { result.now ≡ self.now.peaks }
    {
        &self.peaks
    }

    /// How the run ended.
    pub fn ending(&self) -> Ending
        ensures { result ≡ (in_order self.now.image self.now.machine.limits).ending }
    {
        match self.pipeline.result() {
            Some(ending) => ending,
            None => unreachable!(),
        }
    }

    /// How many tasks count: those that were spawned, up to the one that trapped.
    pub fn tasks(&self) -> u32
        ensures { result ≡ (in_order self.now.image self.now.machine.limits).tasks }
    {
        self.pipeline.tasks()
    }

    /// What was printed.
    pub fn output(&self) -> &[u8]
        ensures { result.now ≡ (in_order self.now.image self.now.machine.limits).output }
    {
        self.pipeline.output()
    }

    /// Memory.
    pub fn space(&self) -> &Space
        ensures memory { HasMemory (in_order self.now.image self.now.machine.limits).ending
            (in_order self.now.image self.now.machine.limits).memory result.now }
        ensures ranges { result.now.ranges ≡ (loaded self.now.image).ranges }
    {
        self.pipeline.space()
    }

    /// Ends the machine.
    pub fn close(self) {
        let FinishedRun {
            image: _image,
            pipeline,
            peaks: _peaks,
        } = self;
        pipeline.close();
    }
}
