// Words of named programs that were worked out apart, the machine's description, and how many lines the logs have.
use crate::{
    AWAIT_THIRD_LOG, FULL_TABLES_LOG, HI_LOG, IDLE_RACE_LOG, LATE_TRAP_LOG, M0, MANY_READERS_LOG,
    RENAMED_OUTPUT_LOG, await_first, await_second, await_third, description, exit_seven,
    full_tables, hi, idle_race, late_trap, main_touch, main_touch_after_barrier, many_readers,
    merged_operands, no_instruction, no_operands, output_alone, partial_overlap, renamed_output,
    spinning_reader,
};
use std::alloc::Global;
use std::process::Abort;
use std::test::Fail;
use tss_base::Key;

/// The image of `exit_seven`: two headers, three words of code, and a page of zeros that can be written.
const EXIT: &str =
    "7f454c460101010000000000000000000200f30001000000000001003400000000000000000000003400200002000000\
    00000000010000007400000000000100000001000c0000000c0000000500000004000000010000000000000000000200\
    0000020000000000001000000600000004000000130570009308100073000000";

/// The words of `hi`.
const HI: [u32; 31] = [
    0x00010537, 0x06850513, 0x000105B7, 0x07058593, 0x00000637, 0x00160613, 0x3F2176B7, 0x94868693,
    0x000008B7, 0x00288893, 0x00000073, 0x000008B7, 0x00388893, 0x00000073, 0x00020537, 0x00050513,
    0x000005B7, 0x00458593, 0x000008B7, 0x00488893, 0x00000073, 0x00000537, 0x00050513, 0x000008B7,
    0x00188893, 0x00000073, 0x00B52023, 0x00008067, 0x00020000, 0x00000004, 0x00000003,
];

/// The words of `renamed_output`, with two tasks and four entries of lists.
const RENAMED_OUTPUT: [u32; 72] = [
    0x00010537, 0x0DC50513, 0x000105B7, 0x0F058593, 0x00000637, 0x00160613, 0x000006B7, 0x06168693,
    0x000008B7, 0x00288893, 0x00000073, 0x00010537, 0x0E450513, 0x000105B7, 0x0FC58593, 0x00000637,
    0x00260613, 0x000006B7, 0x00068693, 0x000008B7, 0x00288893, 0x00000073, 0x00010537, 0x0DC50513,
    0x000105B7, 0x11458593, 0x00000637, 0x00160613, 0x000006B7, 0x06368693, 0x000008B7, 0x00288893,
    0x00000073, 0x000008B7, 0x00388893, 0x00000073, 0x00020537, 0x04050513, 0x000005B7, 0x00158593,
    0x000008B7, 0x00488893, 0x00000073, 0x00020537, 0x00050513, 0x000005B7, 0x00158593, 0x000008B7,
    0x00488893, 0x00000073, 0x00000537, 0x00050513, 0x000008B7, 0x00188893, 0x00000073, 0x00B52023,
    0x00008067, 0x00052283, 0x0055A023, 0x00008067, 0x00020000, 0x00000004, 0x00000002, 0x00020000,
    0x00000004, 0x00000001, 0x00020040, 0x00000004, 0x00000002, 0x00020000, 0x00000004, 0x00000002,
];

/// The bytes of words.
fn bytes_of(alloc: Global, words: &[u32]) -> Result<Vec<u8>, Fail> {
    let mut bytes = Vec::new(alloc);
    for word in words {
        bytes.extend_from_slice(&word.to_le_bytes())?;
    }
    Ok(bytes)
}

#[test]
fn exit_seven_has_its_bytes(rt: HostRuntime) -> Result<(), Fail> {
    let alloc = rt.alloc();
    let image = exit_seven(alloc)?;
    let expected = hex::decode(alloc, EXIT)?;
    assert!(rt; image.as_slice() == expected.as_slice());
    Ok(())
}

/// Checks the bytes after an image's headers.
fn expect_words(rt: &impl Abort, alloc: Global, image: &[u8], words: &[u32]) -> Result<(), Fail> {
    let expected = bytes_of(alloc, words)?;
    assert!(rt; image.len() > 116);
    assert!(rt; &image[116..] == expected.as_slice());
    Ok(())
}

#[test]
fn words_stand_in_their_order(rt: HostRuntime) -> Result<(), Fail> {
    let alloc = rt.alloc();
    expect_words(&rt, alloc, hi(alloc)?.as_slice(), &HI)?;
    expect_words(
        &rt,
        alloc,
        renamed_output(alloc)?.as_slice(),
        &RENAMED_OUTPUT,
    )
}

/// Checks how long an image is: two headers of 32 bytes, the file header of 52, and its words.
fn expect_len(rt: &impl Abort, image: &Vec<u8>, words: u32) {
    assert_eq!(rt; image.len() as u64, 116 + 4 * u64::from(words));
}

#[test]
fn programs_are_as_long_as_their_words(rt: HostRuntime) -> Result<(), Fail> {
    let alloc = rt.alloc();
    expect_len(&rt, &many_readers(alloc)?, 9 * 11 + 15 + 8 + 27);
    expect_len(&rt, &full_tables(alloc)?, 2 * 11 + 8 + 1 + 42);
    expect_len(&rt, &idle_race(alloc)?, 2 * 11 + 8 + 2 + 6);
    expect_len(&rt, &late_trap(alloc)?, 4 * 18 + 8 + 3);
    expect_len(&rt, &spinning_reader(alloc)?, 2 * 11 + 8 + 4 + 6);
    expect_len(&rt, &partial_overlap(alloc, 5)?, 11 + 8 + 1 + 6);
    expect_len(&rt, &main_touch(alloc)?, 11 + 3 + 5 + 2 + 3);
    expect_len(&rt, &main_touch_after_barrier(alloc)?, 11 + 6 + 5 + 2 + 3);
    expect_len(&rt, &merged_operands(alloc)?, 5 + 11 + 15 + 4 + 6);
    expect_len(&rt, &output_alone(alloc)?, 5 + 11 + 15 + 4 + 3);
    expect_len(&rt, &no_operands(alloc, 0)?, 11 + 8 + 1);
    expect_len(&rt, &no_instruction(alloc)?, 11 + 8 + 1);
    expect_len(&rt, &await_first(alloc)?, 11 + 5 + 3 + 5 + 2 + 3);
    expect_len(&rt, &await_second(alloc)?, 11 + 5 + 3 + 5 + 2 + 3);
    expect_len(&rt, &await_third(alloc)?, 2 * 11 + 5 + 5 + 2 + 6);
    Ok(())
}

#[test]
fn the_description_has_each_key(rt: HostRuntime) -> Result<(), Fail> {
    let alloc = rt.alloc();
    let usual = description(alloc, &[])?;
    assert_eq!(rt; usual.as_str().lines().count(), 16);
    assert!(rt;
        usual
            .as_str()
            .starts_with("main_budget = 1000\ntask_budget = 100\n")
    );
    assert_eq!(rt; M0.limits.main_budget, 1000);
    let changed = description(alloc, &[(Key::MainBudget, "5"), (Key::TaskBudget, "")])?;
    assert_eq!(rt; changed.as_str().lines().count(), 15);
    assert!(rt;
        changed
            .as_str()
            .starts_with("main_budget = 5\nmax_tasks = 16\n")
    );
    Ok(())
}

#[test]
fn logs_have_their_lines(rt: HostRuntime) -> Result<(), Fail> {
    for (log, lines) in [
        (HI_LOG, 21usize),
        (RENAMED_OUTPUT_LOG, 58),
        (MANY_READERS_LOG, 124),
        (FULL_TABLES_LOG, 51),
        (IDLE_RACE_LOG, 33),
        (LATE_TRAP_LOG, 32),
        (AWAIT_THIRD_LOG, 16),
    ] {
        assert_eq!(rt; log.lines().count(), lines);
    }
    Ok(())
}
