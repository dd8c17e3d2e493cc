// The machine of the workload that comes with the program.
ghost use Rattle.std.specs.Prelude.{◌≡◌};
ghost use Rattle.tss_base.specs.Machine.{IsAdmissible};
ghost use Rattle.tss_machine.specs.SelfMachine.{self_machine as machine_of_self};

use tss_base::{Limits, Machine, Sizes};

/// The machine of the workload that comes with the program: two stations of eight slots, four workers and four banks,
/// and one task that decodes at a time.
pub fn self_machine() -> Machine
    ensures exact { result ≡ machine_of_self }
    ensures admissible { IsAdmissible result }
{
    Machine {
        limits: Limits {
            main_budget: 1_000_000,
            task_budget: 10_000,
            max_tasks: 16_384,
            max_operands: 4,
            object_bytes: 64,
            epoch_objects: 1_024,
            output_bytes: 1_024,
        },
        sizes: Sizes {
            stations: 2,
            slots: 8,
            workers: 4,
            banks: 4,
            entries: 16,
            versions: 32,
            buffers: 8,
            quantum: 64,
            window: 1,
        },
    }
}
