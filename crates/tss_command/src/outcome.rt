// What comes of a command.
ghost use Rattle.std.specs.Prelude.{◌≡◌, option_map};
ghost use Rattle.tss_machine.specs.Fault.{number_of};
ghost use Rattle.tss_command.specs.MachineCheck.{bad_machine_of};
ghost use Rattle.tss_command.specs.declared.outcome.Refusal.TheVariants as refusal;

use std::marker::Model;
use tss_base::{Image, Machine, NoMemory};
use tss_inorder::Reference;
use tss_machine::MachineFault;
use tss_pipeline::Pipeline;
use tss_self::SelfRun;
use tss_unit_runs::{FinishedRun, LineFault};

/// A file that a command reads, by what it is to the command.
#[derive(Clone, Copy, Debug, PartialEq, Eq)]
pub enum Input {
    Machine,
    Image,
    Schedule,
}

/// The first check that a machine description fails, with its key. It is never that memory ran out.
#[derive(Drop)]
pub struct BadMachine {
    number: u32,
    fault: MachineFault,
}

impl Model for BadMachine {
    ghost use Rattle.std.specs.Prelude.{◌≡◌, Some};
    ghost use Rattle.tss_machine.specs.Fault.{number_of, key_of};
    ghost use Rattle.tss_command.specs.MachineCheck.{BadMachineState};

    ghost Value = { BadMachineState };

    ghost view = { λ s. record { number = s.number; key = key_of s.fault } };

    ghost invariant = { λ s. number_of s.fault ≡ Some s.number };
}

impl BadMachine {
    /// The check that a fault tells. None where the fault is that memory ran out.
    pub fn new(fault: MachineFault) -> Option<BadMachine>
        ensures { result ≡ bad_machine_of fault }
    {
        match fault.number() {
            Some(number) => Some(BadMachine { number, fault }),
            None => None,
        }
    }

    /// The number of the check, from 1 to 6.
    pub fn number(&self) -> u32
        ensures { result ≡ self.now.number }
    {
        self.number
    }

    /// The key that fails it, if it is about a key.
    pub fn key(&self) -> Option<&[u8]>
        ensures { option_map (λ k. k.now) result ≡ self.now.key }
    {
        self.fault.key()
    }
}

/// Why a command has no report: the first cause in the order of the work.
#[derive(Drop)]
pub enum Refusal {
    /// The words are no command.
    Usage,
    /// Reading a file failed.
    ReadFault(Input),
    /// A file has too many bytes.
    TooLong(Input),
    /// The machine description fails a check.
    Machine(BadMachine),
    /// The image fails the check of this number.
    Image(u32),
    /// A schedule is refused.
    Schedule(LineFault),
    /// Appending to a file failed.
    WriteLog,
    /// Memory ran out.
    NoMemory,
}

impl From<NoMemory> for Refusal {
    ghost from_gives = { λ _ e. e ≡ refusal.NoMemory };

    fn from(_e: NoMemory) -> Refusal {
        Refusal::NoMemory
    }
}

/// A program: a machine, and the image that it runs.
#[derive(Drop)]
pub struct Program {
    pub machine: Machine,
    pub image: Image,
}

/// A program that was run: the machine, the image, and what the execution in program order came to.
#[derive(Drop)]
pub struct Run {
    pub machine: Machine,
    pub image: Image,
    pub reference: Reference,
}

/// A unit machine that has done the events of a schedule, and the image that runs on it.
pub struct Stopped {
    pub image: Image,
    pub pipeline: Pipeline,
}

/// What a command that isn't refused has to tell. It must be closed.
pub enum Report {
    /// A run of the unit machine.
    Ran(FinishedRun),
    /// The state of a unit machine.
    Stopped(Stopped),
    /// A run of the workload.
    Workload(SelfRun),
    /// The execution in program order.
    InOrder(Run),
    /// A log that was put into the present format: how many lines it had.
    Migrated(u64),
}

impl Report {
    /// Lets go of all that was run.
    pub fn close(self) {
        match self {
            Report::Ran(run) => run.close(),
            Report::Stopped(Stopped { image: _, pipeline }) => pipeline.close(),
            Report::Workload(run) => run.close(),
            Report::InOrder(_) | Report::Migrated(_) => {}
        }
    }
}
