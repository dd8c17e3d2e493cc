// What no clause says: the sizes of the pieces. And reports whose texts were written down by the rules of a report.
ghost use Rattle.std.specs.Prelude.{◌≡◌, IfOk};
ghost use Rattle.tss_model.specs.Memory.{loaded};
ghost use Rattle.tss_report.specs.Peaks.{HasRanges};

use crate::{digest, write_report, write_self};
use std::alloc::Global;
use std::process::Abort;
use std::test::Fail;
use tss_base::{Counts, Ending, Image, Limits, Machine, Peaks, Range, Segment, Sizes, Trap};
use tss_memory::Space;
use tss_outside::MemSink;

/// A write of one byte: its address and its value.
type Write = (u32, u8);

/// What a report is about beside memory: an ending, how many tasks, an output, and the peaks.
type Run<'a> = (Ending, u32, &'a [u8], Option<&'a Peaks>);

/// A run in which a word is printed.
const HI: Peaks = Peaks {
    events: 21,
    counts: Counts {
        messages: 2,
        slots: 1,
        ready: 1,
        workers: 1,
        entries: 1,
        versions: 1,
        buffers: 0,
    },
};

/// A run in which the second of four tasks traps.
const LATE: Peaks = Peaks {
    events: 32,
    counts: Counts {
        messages: 0,
        slots: 4,
        ready: 4,
        workers: 3,
        entries: 0,
        versions: 0,
        buffers: 0,
    },
};

/// A machine with one station of 8 slots, and 7 operands a task.
fn machine() -> Machine
    ensures { HasRanges result }
{
    Machine {
        limits: Limits {
            main_budget: 1000,
            task_budget: 100,
            max_tasks: 16,
            max_operands: 7,
            object_bytes: 128,
            epoch_objects: 16,
            output_bytes: 64,
        },
        sizes: Sizes {
            stations: 1,
            slots: 8,
            workers: 3,
            banks: 1,
            entries: 16,
            versions: 16,
            buffers: 7,
            quantum: 100,
            window: 1,
        },
    }
}

/// 16 bytes of code, 40 zeros that can be written, and right behind them 32 bytes more, each 0x22.
fn image(alloc: Global) -> Result<Image, Fail> {
    let code = vec![in alloc; 0x13; 16]?;
    let zeros = vec![in alloc; 0; 40]?;
    let twos = vec![in alloc; 0x22; 32]?;
    let mut segments = Vec::new(alloc);
    segments.push(Segment::new(0x10000, code, false, true))?;
    segments.push(Segment::new(0x20000, zeros, true, false))?;
    segments.push(Segment::new(0x20028, twos, true, false))?;
    Ok(Image::new(0x10000, segments))
}

/// Writes a byte.
fn write(rt: &impl Abort, space: &mut Space, at: u32, value: u8)
    ensures { space.new.ranges ≡ space.old.ranges }
{
    assert_eq!(rt; space.range_of(&Range { base: at, len: 1 }), Some(true));
    space.set(at, value);
}

/// The memory of an image after some writes.
fn written(rt: &impl Abort, alloc: Global, image: &Image, writes: &[Write]) -> Result<Space, Fail>
    ensures { IfOk result (λ space. space.ranges ≡ (loaded image.now).ranges) }
{
    let (mut space, _code) = Space::load(alloc, image)?;
    for (at, value) in writes {
        write(rt, &mut space, *at, *value);
    }
    Ok(space)
}

/// Checks the report of a run after some writes.
fn expect(
    rt: &impl Abort,
    alloc: Global,
    writes: &[Write],
    run: &Run,
    text: &[u8],
) -> Result<(), Fail> {
    let (ending, tasks, output, peaks) = run;
    let image = image(alloc)?;
    let space = written(rt, alloc, &image, writes)?;
    let mut out = MemSink::new(alloc, 1024)?;
    let put = write_report(
        &mut out,
        ending,
        *tasks,
        output,
        &image,
        &space,
        *peaks,
        &machine(),
    );
    assert!(rt; put.is_ok());
    assert!(rt; out.bytes() == text);
    Ok(())
}

#[test]
fn unchanged_memory_has_no_rows(rt: HostRuntime) -> Result<(), Fail> {
    let alloc = rt.alloc();
    let run = (Ending::Exit(7), 0, b"".as_slice(), None);
    let text = b"end exit 7\ntasks 0\noutput 0\n\n";
    expect(&rt, alloc, &[], &run, text)?;

    // The bytes that are there are written again.
    expect(
        &rt,
        alloc,
        &[(0x20000, 0), (0x20028, 0x22), (0xFFFEFFFF, 0)],
        &run,
        text,
    )
}

#[test]
fn changed_rows_are_told_by_their_ranges(rt: HostRuntime) -> Result<(), Fail> {
    let alloc = rt.alloc();
    let run = (Ending::Exit(0), 2, b"ab".as_slice(), None);

    // The last row of 40 bytes has 8, and the next range begins behind them.
    expect(
        &rt,
        alloc,
        &[
            (0x20027, 0xFF),
            (0x20028, 0xAB),
            (0x20037, 0xCD),
            (0x20047, 0x09),
        ],
        &run,
        b"end exit 0\ntasks 2\noutput 2\nab\nrow 00020020 00000000000000ff\nrow 00020028 ab2222222222222222222222222222cd\nrow 00020038 22222222222222222222222222222209\n",
    )?;

    // Main's stack is the last range.
    expect(
        &rt,
        alloc,
        &[(0xFFFE0000, 0x5A), (0xFFFEFFFF, 1), (0x20010, 0x80)],
        &run,
        b"end exit 0\ntasks 2\noutput 2\nab\nrow 00020010 80000000000000000000000000000000\nrow fffe0000 5a000000000000000000000000000000\nrow fffefff0 00000000000000000000000000000001\n",
    )
}

#[test]
fn rows_stand_unless_a_task_trapped(rt: HostRuntime) -> Result<(), Fail> {
    let alloc = rt.alloc();
    let trap = Trap {
        pc: 0x10144,
        cause: 3,
        value: 0x10144,
    };
    let writes = [(0x20000, 0x61)];
    expect(
        &rt,
        alloc,
        &writes,
        &(Ending::Refused(3, 0x10034), 1, b"", None),
        b"end refused 3 00010034\ntasks 1\noutput 0\n\nrow 00020000 61000000000000000000000000000000\n",
    )?;
    expect(
        &rt,
        alloc,
        &writes,
        &(Ending::MainTrap(trap), 0, b"", None),
        b"end main-trap 00010144 3 00010144\ntasks 0\noutput 0\n\nrow 00020000 61000000000000000000000000000000\n",
    )?;
    expect(
        &rt,
        alloc,
        &writes,
        &(Ending::TaskTrap(2, trap), 2, b"a", Some(&LATE)),
        b"end task-trap 2 00010144 3 00010144\ntasks 2\noutput 1\na\nevents 32\npeak messages 0 of 135\npeak slots 4 of 8\npeak ready 4 of 8\npeak workers 3 of 3\npeak entries 0 of 16\npeak versions 0 of 16\npeak buffers 0 of 7\n",
    )
}

#[test]
fn peaks_are_told_with_their_sizes(rt: HostRuntime) -> Result<(), Fail> {
    let alloc = rt.alloc();
    expect(
        &rt,
        alloc,
        &[
            (0x20000, 0x48),
            (0x20001, 0x69),
            (0x20002, 0x21),
            (0x20003, 0x3F),
        ],
        &(Ending::Exit(0), 1, b"Hi!?", Some(&HI)),
        b"end exit 0\ntasks 1\noutput 4\nHi!?\nrow 00020000 4869213f000000000000000000000000\nevents 21\npeak messages 2 of 135\npeak slots 1 of 8\npeak ready 1 of 8\npeak workers 1 of 3\npeak entries 1 of 16\npeak versions 1 of 16\npeak buffers 0 of 7\n",
    )
}

/// Checks whether a report with so many bytes of output can be written where one write fails, and how many bytes were
/// put.
fn puts(
    rt: &impl Abort,
    alloc: Global,
    count: usize,
    failing: u32,
    whole: bool,
    len: usize,
) -> Result<(), Fail> {
    let image = image(alloc)?;
    let space = written(rt, alloc, &image, &[])?;
    let output = vec![in alloc; 0x2E; count]?;
    let mut out = MemSink::new(alloc, 16384)?;
    out.fail_write(failing)?;
    let put = write_report(
        &mut out,
        &Ending::Exit(0),
        0,
        &output,
        &image,
        &space,
        None,
        &machine(),
    );
    assert_eq!(rt; put.is_ok(), whole);
    assert_eq!(rt; out.bytes().len(), len);
    Ok(())
}

#[test]
fn pieces_have_4096_bytes(rt: HostRuntime) -> Result<(), Fail> {
    // Beside its output a report with no rows and no peaks has 32 bytes.
    for (count, failing, whole, len) in [
        (9000, 1, false, 0),
        (9000, 2, false, 4096),
        (9000, 3, false, 8192),
        (9000, 4, true, 9032),
        (8160, 2, false, 4096),
        (8160, 3, true, 8192),
        (8161, 3, false, 8192),
        (8161, 4, true, 8193),
    ] {
        puts(&rt, rt.alloc(), count, failing, whole, len)?;
    }
    Ok(())
}

/// The digest of the image's memory, by another implementation of SHA-256.
const LOADED: [u8; 32] = [
    0xAA, 0x3B, 0xF8, 0x4B, 0xA7, 0xEE, 0x24, 0xA1, 0x56, 0x70, 0x0B, 0x65, 0x4C, 0x88, 0xA8, 0xD0,
    0xD5, 0x85, 0x87, 0x41, 0x79, 0x4A, 0xF0, 0x70, 0x4D, 0xD2, 0x86, 0x6B, 0x39, 0x6D, 0x3D, 0x6D,
];

/// That after writes to the last byte of a range, the first of the next, and the last of the stack.
const CHANGED: [u8; 32] = [
    0x4B, 0x16, 0xE6, 0x0E, 0x0F, 0x2F, 0xF9, 0xEB, 0x93, 0x69, 0x5F, 0xB9, 0x9E, 0x2E, 0xFB, 0x28,
    0x47, 0x16, 0x05, 0xD8, 0xF0, 0x17, 0x76, 0x1F, 0xDA, 0xF5, 0xD6, 0x94, 0x32, 0x91, 0x93, 0x9C,
];

#[test]
fn digest_is_of_all_that_can_be_written(rt: HostRuntime) -> Result<(), Fail> {
    let alloc = rt.alloc();
    let image = image(alloc)?;
    let space = written(&rt, alloc, &image, &[])?;
    assert!(rt; digest(&space) == LOADED);
    let writes = [(0x20027, 0xFF), (0x20028, 0xAB), (0xFFFEFFFF, 1)];
    let space = written(&rt, alloc, &image, &writes)?;
    assert!(rt; digest(&space) == CHANGED);
    Ok(())
}

/// Checks the report of the workload.
fn expect_self(
    rt: &impl Abort,
    alloc: Global,
    n: u32,
    mul: bool,
    run: &(Ending, u32, &[u8]),
    sum: &[u8; 32],
    text: &[u8],
) -> Result<(), Fail> {
    let (ending, tasks, output) = run;
    let mut out = MemSink::new(alloc, 1024)?;
    let put = write_self(
        &mut out,
        n,
        mul,
        ending,
        *tasks,
        output,
        sum,
        &HI,
        &machine(),
    );
    assert!(rt; put.is_ok());
    assert!(rt; out.bytes() == text);
    Ok(())
}

#[test]
fn workload_is_told_by_its_digest(rt: HostRuntime) -> Result<(), Fail> {
    let alloc = rt.alloc();
    expect_self(
        &rt,
        alloc,
        12,
        false,
        &(Ending::Exit(0), 376, b""),
        &LOADED,
        b"self 12\nend exit 0\ntasks 376\noutput 0\n\ndigest aa3bf84ba7ee24a156700b654c88a8d0d5858741794af0704dd2866b396d3d6d\nevents 21\npeak messages 2 of 135\npeak slots 1 of 8\npeak ready 1 of 8\npeak workers 1 of 3\npeak entries 1 of 16\npeak versions 1 of 16\npeak buffers 0 of 7\n",
    )?;
    expect_self(
        &rt,
        alloc,
        40,
        true,
        &(Ending::Refused(3, 0x10034), 1, b"ab"),
        &CHANGED,
        b"self 40 mul\nend refused 3 00010034\ntasks 1\noutput 2\nab\ndigest 4b16e60e0f2ff9eb93695fb99e2efb28471605d8f017761fdaf5d6943291939c\nevents 21\npeak messages 2 of 135\npeak slots 1 of 8\npeak ready 1 of 8\npeak workers 1 of 3\npeak entries 1 of 16\npeak versions 1 of 16\npeak buffers 0 of 7\n",
    )
}

#[test]
fn task_that_trapped_has_no_digest(rt: HostRuntime) -> Result<(), Fail> {
    let trap = Trap {
        pc: 0x10144,
        cause: 3,
        value: 0x10144,
    };
    expect_self(
        &rt,
        rt.alloc(),
        1,
        false,
        &(Ending::TaskTrap(2, trap), 2, b"a"),
        &LOADED,
        b"self 1\nend task-trap 2 00010144 3 00010144\ntasks 2\noutput 1\na\nevents 21\npeak messages 2 of 135\npeak slots 1 of 8\npeak ready 1 of 8\npeak workers 1 of 3\npeak entries 1 of 16\npeak versions 1 of 16\npeak buffers 0 of 7\n",
    )
}
