// A run of the workload, and its report.
ghost use Rattle.std.specs.Prelude.{◌≡◌, ◌≤◌, IfOk};
ghost use Rattle.tss_text.specs.Pieces.{Writes};
ghost use Rattle.tss_self.specs.SelfAnswer.{HasWholeRun, has_products, self_result, self_report};

use crate::image::workload_image;
use std::alloc::Global;
use std::marker::Model;
use tss_base::{Ending, NoMemory};
use tss_gen::Form;
use tss_machine::self_machine;
use tss_outside::{Failed, Sink};
use tss_report::{digest, write_self};
use tss_unit_runs::{FinishedRun, run_seeded};

/// A run of the workload that is over.
pub struct SelfRun {
    n: u32,
    form: Form,
    run: FinishedRun,
}

impl Model for SelfRun {
    ghost use Rattle.tss_self.specs.SelfAnswer.{SelfWork, IsRunOf};

    ghost Value = { SelfWork };

    ghost view = { λ r. record { n = r.n; form = r.form } };

    ghost invariant = { λ r. IsRunOf r.run (record { n = r.n; form = r.form }) };
}

/// Whether the workload has the form with products.
fn has_products(form: Form) -> bool
    ensures { result ≡ has_products form }
{
    match form {
        Form::Shifts => false,
        Form::Products => true,
    }
}

impl SelfRun {
    /// Makes the workload with n blocks a side in a form, and runs it on the machine that comes with the program by the
    /// schedule of the seed n, from its first event to its end.
    pub fn new(alloc: Global, n: u32, form: Form) -> Result<SelfRun, NoMemory>
        requires low { 1 ≤ n }
        requires high { n ≤ 40 }
        ensures exact { IfOk result (λ r. r ≡ record { n = n; form = form }) }
        ensures whole { IfOk result HasWholeRun }
    {
        let image = workload_image(alloc, n, form)?;
        let _entry = image.entry();
        let run = run_seeded(alloc, self_machine(), image, u64::from(n))?;
        Ok(SelfRun { n, form, run })
    }

    /// How the run ended.
    pub fn ending(&self) -> Ending
        ensures { result ≡ (self_result self.now).ending }
    {
        self.run.ending()
    }

    /// Writes the report of the run: the words, the ending, the tasks, the output, the digest of memory, unless a task
    /// trapped, and the peaks. It fails only where the sink does, and then a part of the report from its beginning on was
    /// put.
    pub fn write<K: Sink>(&self, out: &mut K) -> Result<(), Failed>
        ensures { Writes K.Sink out.old out.new result (self_report self.now) }
    {
        let run = &self.run;
        write_self(
            out,
            self.n,
            has_products(self.form),
            &run.ending(),
            run.tasks(),
            run.output(),
            &digest(run.space()),
            run.peaks(),
            run.machine(),
        )
    }

    /// Ends the machine.
    pub fn close(self) {
        let SelfRun {
            n: _n,
            form: _form,
            run,
        } = self;
        run.close();
    }
}
