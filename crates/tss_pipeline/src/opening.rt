// Opening the units: all memory that the machine will use is taken here.
ghost use Rattle.std.specs.Prelude.{◌≡◌, ◌<◌, ◌≤◌, IfOk, length};
ghost use Rattle.std.specs.FinMap as map;
ghost use Rattle.tss_base.specs.declared.bounds.TheConstants.{MAX_BANKS};
ghost use Rattle.tss_base.specs.declared.machine.Key.TheVariants as key;
ghost use Rattle.tss_base.specs.Machine.{IsAdmissible, IsInRange};
ghost use Rattle.tss_protocol.specs.Counts.{message_limit};
ghost use Rattle.tss_pipeline.specs.Opening.{empty_bank, AreEmpty, AreOpened};

use crate::bank::Bank;
use crate::units::Units;
use std::alloc::Global;
use tss_base::{Image, Machine, NoMemory, Sizes};
use tss_buffers::{Buffers, CopyEngine};
use tss_gateway::Gateway;
use tss_mail::Mail;
use tss_memory::Space;
use tss_renaming::Renaming;
use tss_stations::Stations;
use tss_steps::Main;
use tss_versions::Versions;
use tss_workers::{ReadyQueue, Workers};

/// How many messages there may be under way: a decode or an ack for each operand of a window of tasks, two for each operand
/// in a slot, and one for each place of versions.
pub(crate) fn message_limit(machine: &Machine) -> u32
    requires { IsAdmissible machine.now }
    ensures { result ≡ message_limit machine.now }
{
    let sizes = &machine.sizes;
    let operands = machine.limits.max_operands;
    sizes.window * operands
        + 2 * (sizes.stations * sizes.slots) * operands
        + sizes.banks * sizes.versions
}

/// A bank with nothing in it.
fn open_bank(alloc: Global, bank: u32, sizes: &Sizes) -> Result<Bank, NoMemory>
    requires bank { bank < MAX_BANKS }
    requires window { IsInRange key.Window sizes.now.window }
    requires versions { IsInRange key.Versions sizes.now.versions }
    ensures { IfOk result (λ b. b ≡ empty_bank bank sizes.now) }
{
    let renaming = Renaming::open(alloc, bank, sizes)?;
    match Versions::open(alloc, sizes) {
        Ok(versions) => Ok(Bank {
            renaming,
            versions,
            engine: CopyEngine::idle(),
            job: None,
        }),
        Err(fault) => {
            let _ = renaming.close();
            Err(fault)
        }
    }
}

/// Ends banks with nothing in them.
fn close_empty(banks: Vec<Bank>, sizes: &Sizes)
    requires { AreEmpty (length banks.items) sizes.now banks.items }
{
    let mut banks = banks;
    while let Some(bank) = banks.pop() {
        bank.close_empty();
    }
    banks.destroy_empty();
}

/// The banks of a machine.
fn open_banks(alloc: Global, sizes: &Sizes) -> Result<Vec<Bank>, NoMemory>
    requires banks { sizes.now.banks ≤ MAX_BANKS }
    requires window { IsInRange key.Window sizes.now.window }
    requires versions { IsInRange key.Versions sizes.now.versions }
    ensures { IfOk result (λ bs. AreEmpty sizes.now.banks sizes.now bs.items) }
{
    let Ok(mut banks) = Vec::with_capacity(alloc, sizes.banks as usize) else {
        return Err(NoMemory);
    };
    for bank in 0..sizes.banks {
        match open_bank(alloc, bank, sizes) {
            Ok(opened) => match banks.push(opened) {
                Ok(()) => {}
                Err(_) => unreachable!(),
            },
            Err(fault) => {
                close_empty(banks, sizes);
                return Err(fault);
            }
        }
    }
    Ok(banks)
}

impl Units {
    /// The units of a machine before the first event of an image's run.
    pub(crate) fn open(alloc: Global, image: &Image, machine: &Machine) -> Result<Units, NoMemory>
        requires { IsAdmissible machine.now }
        ensures { IfOk result (AreOpened image.now machine.now) }
    {
        let sizes = &machine.sizes;
        let (space, code) = Space::load(alloc, image)?;
        let main = Main::open(alloc, image.entry(), &machine.limits)?;
        let stations = Stations::open(alloc, sizes)?;
        let queue = ReadyQueue::open(alloc, sizes.stations * sizes.slots)?;
        let workers = Workers::open(alloc, sizes)?;
        let buffers = Buffers::open(
            alloc,
            sizes.banks,
            sizes.buffers,
            machine.limits.object_bytes,
        )?;
        let banks = open_banks(alloc, sizes)?;
        match Mail::open(alloc, message_limit(machine)) {
            Ok(mail) => Ok(Units {
                machine: *machine,
                code,
                space,
                main,
                gateway: Gateway::idle(sizes.window),
                stations,
                queue,
                workers,
                banks,
                buffers,
                mail,
                trap: None,
            }),
            Err(fault) => {
                close_empty(banks, sizes);
                Err(fault)
            }
        }
    }
}
