// The texts of the faults that the libraries below answer.
use std::alloc::Global;
use std::fmt::Display;
use std::process::Abort;
use std::test::Fail;
use tss_asm::AsmFault;
use tss_base::Key;
use tss_elf::ImageFault;
use tss_log::LogFault;
use tss_machine::{MachineFault, read_machine};
use tss_programs::description;
use tss_schedule::ScheduleFault;

/// Checks the text of a fault.
fn expect<T: Display>(rt: &impl Abort, alloc: Global, fault: &T, text: &str) -> Result<(), Fail> {
    let told = format!(in alloc; "{fault}")?;
    assert!(rt; told.as_str() == text);
    Ok(())
}

#[test]
fn faults_of_images_are_told(rt: HostRuntime) -> Result<(), Fail> {
    let alloc = rt.alloc();
    for (fault, text) in [
        (
            AsmFault::UnknownLabel,
            "a label is used and was never placed",
        ),
        (
            AsmFault::FarTarget,
            "a branch or a jump doesn't reach its label",
        ),
        (
            AsmFault::BadImmediate,
            "an instruction doesn't fit its word",
        ),
        (
            AsmFault::BadLayout,
            "the segments or the entry lie where no image may have them",
        ),
        (AsmFault::NoMemory, "out of memory"),
    ] {
        expect(&rt, alloc, &fault, text)?;
    }
    expect(
        &rt,
        alloc,
        &ImageFault::Check(17),
        "the image fails check 17",
    )?;
    expect(&rt, alloc, &ImageFault::NoMemory, "out of memory")
}

#[test]
fn faults_of_schedules_and_logs_are_told(rt: HostRuntime) -> Result<(), Fail> {
    let alloc = rt.alloc();
    for (fault, text) in [
        (ScheduleFault::BadLine(12), "pick 12 is no event"),
        (
            ScheduleFault::NotEnabled(3),
            "the event of pick 3 may not happen",
        ),
        (
            ScheduleFault::Short(1),
            "the run isn't over at pick 1, where the schedule ends",
        ),
        (ScheduleFault::Long(40), "the run is over before pick 40"),
        (ScheduleFault::WriteFault, "the log could not be written"),
    ] {
        expect(&rt, alloc, &fault, text)?;
    }
    expect(&rt, alloc, &LogFault::BadLine(7), "line 7 is no event")?;
    expect(&rt, alloc, &LogFault::NoMemory, "out of memory")
}

#[test]
fn faults_of_machines_are_told(rt: HostRuntime) -> Result<(), Fail> {
    let alloc = rt.alloc();
    for (fault, text) in [
        (MachineFault::NotToml, "not TOML"),
        (MachineFault::MissingKey(Key::Window), "`window` is missing"),
        (
            MachineFault::NotInteger(Key::Slots),
            "`slots` is not an integer",
        ),
        (
            MachineFault::OutOfRange(Key::Banks),
            "`banks` is out of its range",
        ),
        (
            MachineFault::TooSmall(Key::Buffers),
            "`buffers` is below `max_operands`",
        ),
        (MachineFault::NoMemory, "out of memory"),
    ] {
        expect(&rt, alloc, &fault, text)?;
    }
    let unknown = description(alloc, &[(Key::Slots, "8\nspeed = 9")])?;
    match read_machine(alloc, unknown.as_bytes()) {
        Ok(_) => panic!(&rt; "no fault"),
        Err(fault) => expect(&rt, alloc, &fault, "unknown key `speed`"),
    }
}
