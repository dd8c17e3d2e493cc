// The machine on which the programs with names run.
use std::alloc::{AllocError, Global};
use tss_base::{Key, Limits, Machine, Sizes};

/// A small machine.
pub const M0: Machine = Machine {
    limits: Limits {
        main_budget: 1000,
        task_budget: 100,
        max_tasks: 16,
        max_operands: 7,
        object_bytes: 128,
        epoch_objects: 16,
        output_bytes: 64,
    },
    sizes: Sizes {
        stations: 1,
        slots: 8,
        workers: 3,
        banks: 1,
        entries: 16,
        versions: 16,
        buffers: 7,
        quantum: 100,
        window: 1,
    },
};

/// What that machine has at a key.
fn usual(key: Key) -> &'static str {
    match key {
        Key::MainBudget => "1000",
        Key::TaskBudget => "100",
        Key::MaxTasks => "16",
        Key::MaxOperands => "7",
        Key::ObjectBytes => "128",
        Key::EpochObjects => "16",
        Key::OutputBytes => "64",
        Key::Stations => "1",
        Key::Slots => "8",
        Key::Workers => "3",
        Key::Banks => "1",
        Key::Entries => "16",
        Key::Versions => "16",
        Key::Buffers => "7",
        Key::Quantum => "100",
        Key::Window => "1",
    }
}

/// The keys of a description, in their order.
const KEYS: [Key; 16] = [
    Key::MainBudget,
    Key::TaskBudget,
    Key::MaxTasks,
    Key::MaxOperands,
    Key::ObjectBytes,
    Key::EpochObjects,
    Key::OutputBytes,
    Key::Stations,
    Key::Slots,
    Key::Workers,
    Key::Banks,
    Key::Entries,
    Key::Versions,
    Key::Buffers,
    Key::Quantum,
    Key::Window,
];

/// What a description has at a key: the last change of that key, or what is usual.
fn value_at<'a>(changes: &[(Key, &'a str)], key: Key) -> &'a str {
    let mut value = usual(key);
    for (changed, text) in changes {
        if *changed == key {
            value = text;
        }
    }
    value
}

/// The description of the small machine with other values at some keys. A key whose value is an empty text isn't there.
pub fn description(alloc: Global, changes: &[(Key, &str)]) -> Result<String, AllocError> {
    let mut text = String::new(alloc);
    for key in &KEYS {
        let value = value_at(changes, *key);
        if value == "" {
            continue;
        }
        text.push_str(key.name())?;
        text.push_str(" = ")?;
        text.push_str(value)?;
        text.push_str("\n")?;
    }
    Ok(text)
}
