// The units of the machine, beside one another.
ghost use Rattle.std.specs.Prelude.{◌≡◌, ◌<◌, length};
ghost use Rattle.tss_protocol.specs.Names.{bank_of};
ghost use Rattle.tss_pipeline.specs.Fit.{AreBanks};

use crate::bank::Bank;
use tss_base::bounds::BANK_BYTES;
use tss_base::{Machine, Range, Sizes, Trap};
use tss_buffers::Buffers;
use tss_gateway::Gateway;
use tss_mail::Mail;
use tss_memory::{Code, Space};
use tss_stations::Stations;
use tss_steps::Main;
use tss_workers::{ReadyQueue, Workers};

/// The trap of a task that has finished, by the task's number.
#[derive(Clone, Copy, Debug, PartialEq, Eq)]
pub(crate) struct TaskTrap {
    pub(crate) task: u32,
    pub(crate) trap: Trap,
}

/// The units, with memory, main and the messages under way. Each event is a method of them.
pub(crate) struct Units {
    pub(crate) machine: Machine,
    pub(crate) code: Code,
    pub(crate) space: Space,
    pub(crate) main: Main,
    pub(crate) gateway: Gateway,
    pub(crate) stations: Stations,
    pub(crate) queue: ReadyQueue,
    pub(crate) workers: Workers,
    pub(crate) banks: Vec<Bank>,
    pub(crate) buffers: Buffers,
    pub(crate) mail: Mail,
    pub(crate) trap: Option<TaskTrap>,
}

/// The bank of an object.
pub(crate) fn bank_of(sizes: &Sizes, object: &Range) -> u32
    requires { 0 < sizes.now.banks }
    ensures exact { result ≡ bank_of sizes.now object.now }
    ensures within { result < sizes.now.banks }
{
    object.base / BANK_BYTES % sizes.banks
}

impl Units {
    /// The place of the bank of an object.
    pub(crate) fn bank_of(&self, object: &Range) -> u32
        requires banks { AreBanks self.now.machine self.now.banks.items }
        requires some { 0 < self.now.machine.sizes.banks }
        ensures exact { result ≡ bank_of self.now.machine.sizes object.now }
        ensures within { result < length self.now.banks.items }
    {
        bank_of(&self.machine.sizes, object)
    }
}
