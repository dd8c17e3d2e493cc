// The machine: its limits and sizes, and their keys in a description.
ghost use Rattle.std.specs.Prelude.{◌≡◌};
ghost use Rattle.tss_base.specs.Machine.{key_name};

/// What a program may use: instructions of main and of each task, tasks of a run, operands listed per task, bytes per
/// object, objects named at one time, and bytes printed.
#[derive(Clone, Copy, Debug, PartialEq, Eq)]
pub struct Limits {
    pub main_budget: u64,
    pub task_budget: u64,
    pub max_tasks: u32,
    pub max_operands: u32,
    pub object_bytes: u32,
    pub epoch_objects: u32,
    pub output_bytes: u32,
}

/// How large the unit machine is: reservation stations, slots per station, worker cores, banks of renaming and
/// versioning tables, entries, version places and rename buffers per bank, instructions per event, and tasks that decode
/// at once.
#[derive(Clone, Copy, Debug, PartialEq, Eq)]
pub struct Sizes {
    pub stations: u32,
    pub slots: u32,
    pub workers: u32,
    pub banks: u32,
    pub entries: u32,
    pub versions: u32,
    pub buffers: u32,
    pub quantum: u32,
    pub window: u32,
}

/// Limits and sizes.
#[derive(Clone, Copy, Debug, PartialEq, Eq)]
pub struct Machine {
    pub limits: Limits,
    pub sizes: Sizes,
}

/// A key of a machine description, in the order in which they are checked.
#[derive(Clone, Copy, Debug, PartialEq, Eq)]
pub enum Key {
    MainBudget,
    TaskBudget,
    MaxTasks,
    MaxOperands,
    ObjectBytes,
    EpochObjects,
    OutputBytes,
    Stations,
    Slots,
    Workers,
    Banks,
    Entries,
    Versions,
    Buffers,
    Quantum,
    Window,
}

impl Key {
    /// The key as a description has it.
    pub fn name(&self) -> &'static str
        ensures { result.now ≡ key_name self.now }
    {
        match self {
            Key::MainBudget => "main_budget",
            Key::TaskBudget => "task_budget",
            Key::MaxTasks => "max_tasks",
            Key::MaxOperands => "max_operands",
            Key::ObjectBytes => "object_bytes",
            Key::EpochObjects => "epoch_objects",
            Key::OutputBytes => "output_bytes",
            Key::Stations => "stations",
            Key::Slots => "slots",
            Key::Workers => "workers",
            Key::Banks => "banks",
            Key::Entries => "entries",
            Key::Versions => "versions",
            Key::Buffers => "buffers",
            Key::Quantum => "quantum",
            Key::Window => "window",
        }
    }
}
