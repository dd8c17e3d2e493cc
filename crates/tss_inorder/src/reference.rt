// The execution in program order.
ghost use Rattle.std.specs.Prelude.{◌≡◌, ◌≤◌, IfOk};
ghost use Rattle.tss_base.specs.declared.bounds.TheConstants.{MAX_OPERANDS};
ghost use Rattle.tss_base.specs.Image.{ImageState};
ghost use Rattle.tss_model.specs.Memory.{loaded};
ghost use Rattle.tss_model.specs.InOrder.{in_order};
ghost use Rattle.tss_inorder.specs.Order.{EndsInOrder, Follows};

use crate::flat::{Did, Flat};
use std::alloc::Global;
use std::marker::Model;
use tss_base::{Ending, Image, Limits, NoMemory};
use tss_memory::Space;

/// How many steps of main an event of the run is at most.
const QUANTUM: u32 = 0x1_0000;

/// What the execution in program order comes to.
#[derive(Drop)]
pub struct Reference {
    ending: Ending,
    flat: Flat,
}

impl Model for Reference {
    ghost use Rattle.tss_model.specs.InOrder.{ReferenceState};
    ghost use Rattle.tss_inorder.specs.Codes.{reference_code};
    ghost use Rattle.tss_inorder.specs.Order.{outcome_in};

    ghost Value = { ReferenceState };

    ghost coded = { reference_code };

    ghost view = { λ r. outcome_in r.flat r.ending };
}

impl Reference {
    /// How the run ends.
    pub fn ending(&self) -> Ending
        ensures { result ≡ self.now.ending }
    {
        self.ending
    }

    /// How many tasks main has spawned.
    pub fn tasks(&self) -> u32
        ensures { result ≡ self.now.tasks }
    {
        self.flat.tasks()
    }

    /// What main has printed.
    pub fn output(&self) -> &[u8]
        ensures { result.now ≡ self.now.output }
    {
        self.flat.output()
    }

    /// Memory at the end.
    pub fn space(&self) -> &Space
        ensures { result.now ≡ self.now.memory }
    {
        self.flat.space()
    }
}

/// Runs an image in program order: main instruction by instruction, and each task that it spawns at once, to its end or
/// its trap. Memory of the process is taken at the beginning alone: for the image's memory and code, the objects that
/// may be named at one time, the bytes and pieces that may be printed, and the scratch of one task.
pub fn run_in_order(alloc: Global, image: &Image, limits: &Limits) -> Result<Reference, NoMemory>
    requires { limits.now.max_operands ≤ MAX_OPERANDS }
    ensures exact { IfOk result (λ r. r ≡ in_order image.now limits.now) }
    // Its memory has the ranges of the image's.
    ensures ranges { IfOk result (λ r. r.memory.ranges ≡ (loaded image.now).ranges) }
{
    let mut flat = Flat::open(alloc, image, limits)?;
    let ending = run(&mut flat);
    Ok(Reference { ending, flat })
}

/// Runs to the ending.
fn run(flat: &mut Flat) -> Ending
    ensures limits { flat.new.limits ≡ flat.old.limits }
    ensures in_order { (i : ImageState) → Follows i flat.old → EndsInOrder i flat.new result }
{
    loop {
        match flat.stretch(QUANTUM) {
            Did::Over(ending) => return ending,
            Did::Steps | Did::Spawned(_, _) | Did::Barrier | Did::Printed | Did::Awaited(_) => {}
        }
    }
}
