// The files that a command reads, and what their bytes are.
ghost use Rattle.std.specs.Prelude.{IfOk};
ghost use Rattle.tss_base.specs.Machine.{IsAdmissible};
ghost use Rattle.tss_outside.specs.Outside.{Rose};
ghost use Rattle.tss_command.specs.Outcomes.{files_seen, FailedToRead, OnlyReads};
ghost use Rattle.tss_command.specs.Reading.{ComesTo, Gives, IsRead, bytes_found};
ghost use Rattle.tss_command.specs.Work.{described_machine as described_machine_of, accepted_image as accepted_image_of, machine_reading, image_reading, program_reading, schedule_reading};

use crate::outcome::{BadMachine, Input, Program, Refusal};
use std::alloc::Global;
use tss_base::bounds::{IMAGE_FILE_BYTES, MACHINE_FILE_BYTES, SCHEDULE_FILE_BYTES};
use tss_base::{Image, Machine};
use tss_elf::{ImageFault, read_image};
use tss_machine::read_machine;
use tss_outside::{FileFault, Files};

/// The bytes of a file, of which there may be `limit`.
fn read<F: Files>(
    alloc: Global,
    files: &mut F,
    input: Input,
    name: &str,
    limit: u64,
) -> Result<Vec<u8>, Refusal>
    ensures read { IsRead (F.held files.old) (Rose (F.read_faults files.old name.now) (F.read_faults files.new name.now))
        input name.now limit result }
    ensures only_reads { OnlyReads (files_seen F.Files files.old) (files_seen F.Files files.new) }
{
    match files.read(alloc, name, limit) {
        Ok(bytes) => Ok(bytes),
        Err(FileFault::Failed) => Err(Refusal::ReadFault(input)),
        Err(FileFault::TooLong(_)) => Err(Refusal::TooLong(input)),
        Err(FileFault::NoMemory) => Err(Refusal::NoMemory),
    }
}

/// The machine that bytes describe.
fn described_machine(alloc: Global, bytes: &[u8]) -> Result<Machine, Refusal>
    ensures exact { Gives result (described_machine_of bytes.now) }
    ensures ok { IfOk result IsAdmissible }
{
    match read_machine(alloc, bytes) {
        Ok(machine) => Ok(machine),
        Err(fault) => match BadMachine::new(fault) {
            Some(bad) => Err(Refusal::Machine(bad)),
            None => Err(Refusal::NoMemory),
        },
    }
}

/// The image that bytes are.
fn accepted_image(alloc: Global, bytes: &[u8]) -> Result<Image, Refusal>
    ensures exact { Gives result (accepted_image_of bytes.now) }
{
    match read_image(alloc, bytes) {
        Ok(image) => Ok(image),
        Err(ImageFault::Check(n)) => Err(Refusal::Image(n)),
        Err(ImageFault::NoMemory) => Err(Refusal::NoMemory),
    }
}

/// The machine that a file describes.
fn machine_in<F: Files>(alloc: Global, files: &mut F, name: &str) -> Result<Machine, Refusal>
    ensures exact { ComesTo (F.held files.old) (FailedToRead (files_seen F.Files files.old) (files_seen F.Files files.new))
        (machine_reading name.now) result }
    ensures ok { IfOk result IsAdmissible }
    ensures only_reads { OnlyReads (files_seen F.Files files.old) (files_seen F.Files files.new) }
{
    let bytes = read(alloc, files, Input::Machine, name, MACHINE_FILE_BYTES)?;
    described_machine(alloc, bytes.as_slice())
}

/// The image that a file holds.
fn image_in<F: Files>(alloc: Global, files: &mut F, name: &str) -> Result<Image, Refusal>
    ensures exact { ComesTo (F.held files.old) (FailedToRead (files_seen F.Files files.old) (files_seen F.Files files.new))
        (image_reading name.now) result }
    ensures only_reads { OnlyReads (files_seen F.Files files.old) (files_seen F.Files files.new) }
{
    let bytes = read(alloc, files, Input::Image, name, IMAGE_FILE_BYTES)?;
    accepted_image(alloc, bytes.as_slice())
}

/// The machine that a file describes, and the image that another holds. The machine is read and judged first.
pub fn program_in<F: Files>(
    alloc: Global,
    files: &mut F,
    image: &str,
    machine: &str,
) -> Result<Program, Refusal>
    ensures exact { ComesTo (F.held files.old) (FailedToRead (files_seen F.Files files.old) (files_seen F.Files files.new))
        (program_reading (record { image = image.now; machine = machine.now })) result }
    ensures ok { IfOk result (λ p. IsAdmissible p.machine) }
    ensures only_reads { OnlyReads (files_seen F.Files files.old) (files_seen F.Files files.new) }
{
    let machine = machine_in(alloc, files, machine)?;
    let image = image_in(alloc, files, image)?;
    Ok(Program { machine, image })
}

/// All bytes of a schedule's file.
pub fn schedule_in<F: Files>(alloc: Global, files: &mut F, name: &str) -> Result<Vec<u8>, Refusal>
    ensures exact { ComesTo (F.held files.old) (FailedToRead (files_seen F.Files files.old) (files_seen F.Files files.new))
        (schedule_reading name.now) (bytes_found result) }
    ensures only_reads { OnlyReads (files_seen F.Files files.old) (files_seen F.Files files.new) }
{
    read(alloc, files, Input::Schedule, name, SCHEDULE_FILE_BYTES)
}
