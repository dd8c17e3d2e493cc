// The texts of states of worked programs.
use super::expect;
use std::alloc::Global;
use std::test::Fail;
use tss_asm::AsmFault;
use tss_base::Key;
use tss_programs::Code::{H, N, Q, W};
use tss_programs::{
    RENAMED_OUTPUT_LOG, Source, await_third, full_tables, inout, input, output, renamed_output,
};

/// After 30 events of `renamed_output`: the third task has finished, and the first one hasn't.
const MIDWAY: &str = "main 00010084 33 3 runs\n\
     regs main 00000000 ffff0000 00000000 00000000 00000000 00000000 00000000 00000000 00000000 000100dc 00010114 00000001 00000063 00000000 00000000 00000000 00000002 00000000 00000000 00000000 00000000 00000000 00000000 00000000 00000000 00000000 00000000 00000000 00000000 00000000 00000000\n\
     epoch 00020000 4\n\
     epoch 00020040 4\n\
     task 1 running\n\
     operand 1.0 00020000 4 output 1.0 home - -\n\
     task 2 waiting\n\
     operand 2.0 00020000 4 input - - - -\n\
     operand 2.1 00020040 4 output 2.1 home - -\n\
     worker 0 1 0 000100dc runs\n\
     regs 0 fffffff0 fffe0000 00000000 00000000 00000000 00000000 00000000 00000000 00000000 00020000 00000061 00000000 00000000 00000000 00000000 00000000 00000000 00000000 00000000 00000000 00000000 00000000 00000000 00000000 00000000 00000000 00000000 00000000 00000000 00000000 00000000\n\
     worker 1 idle\n\
     worker 2 idle\n\
     entry 0 00020000 4 3.0 0 live\n\
     entry 0 00020040 4 2.1 0 live\n\
     place 0 1.0\n\
     place 0 2.1\n\
     place 0 3.0\n\
     buffer 0 3.0 63000000\n\
     version 1.0 00020000 4 home open 1 0 2.0 2.0 - 3.0 beside 1 - -\n\
     version 2.1 00020040 4 home open 0 0 - - - - - - - -\n\
     version 3.0 00020000 4 3.0 produced 0 0 - - 1.0 - - - - -\n\
     enabled 2\n";

/// After all 58 events.
const FINISHED: &str = "main 000100dc 55 3 ended\n\
     regs main 00000000 ffff0000 00000000 00000000 00000000 00000000 00000000 00000000 00000000 00000000 00000001 00000001 00000063 00000000 00000000 00000000 00000001 00000000 00000000 00000000 00000000 00000000 00000000 00000000 00000000 00000000 00000000 00000000 00000000 00000000 00000000\n\
     end exit 0\n\
     worker 0 idle\n\
     worker 1 idle\n\
     worker 2 idle\n\
     piece 3 61\n\
     piece 3 63\n\
     row 00020000 63000000000000000000000000000000\n\
     row 00020040 61000000000000000000000000000000\n\
     enabled 0\n";

/// A log of `full_tables` in which the first entry leaves the tables, and the second task takes its place.
const FULL_LOG: &str =
    "main\nmain\ntake\ndecode 1.0\ndecode 1.1\ndecode 1.2\ndecode 1.3\ndecode 1.4\n\
     decode 1.5\ndecode 1.6\nack 1.0\nack 1.1\nack 1.2\nack 1.3\nack 1.4\nack 1.5\nack 1.6\n\
     open 1.0\nopen 1.1\nopen 1.2\nopen 1.3\nopen 1.4\nopen 1.5\nopen 1.6\nready 1.0\n\
     ready 1.1\nready 1.2\nready 1.3\nready 1.4\nready 1.5\nready 1.6\nstart 0\nexec 0\n\
     finish 0\nrelease 1.0\nrelease 1.1\nrelease 1.2\nrelease 1.3\nrelease 1.4\nrelease 1.5\n\
     release 1.6\nbye 1.0\nbye 1.1\nbye 1.2\nbye 1.3\nbye 1.4\nbye 1.5\nbye 1.6\nmain\nmain\n\
     take\nidle 1.0\nretire 1.0\ngone 1.0\ndecode 2.0\n";

/// After it six entries of the first task are left, each asked to retire.
const FULL: &str = "main 00010058 22 2 runs\n\
     regs main 00000000 ffff0000 00000000 00000000 00000000 00000000 00000000 00000000 00000000 00010078 000100d0 00000007 00000000 00000000 00000000 00000000 00000002 00000000 00000000 00000000 00000000 00000000 00000000 00000000 00000000 00000000 00000000 00000000 00000000 00000000 00000000\n\
     epoch 00020000 4\n\
     epoch 00020040 4\n\
     epoch 00020080 4\n\
     epoch 000200c0 4\n\
     epoch 00020100 4\n\
     epoch 00020140 4\n\
     epoch 00020180 4\n\
     epoch 00020200 4\n\
     epoch 00020240 4\n\
     epoch 00020280 4\n\
     epoch 000202c0 4\n\
     epoch 00020300 4\n\
     epoch 00020340 4\n\
     epoch 00020380 4\n\
     gateway 2 7\n\
     task 2 waiting\n\
     operand 2.0 00020200 4 output - - - -\n\
     operand 2.1 00020240 4 output - - - -\n\
     operand 2.2 00020280 4 output - - - -\n\
     operand 2.3 000202c0 4 output - - - -\n\
     operand 2.4 00020300 4 output - - - -\n\
     operand 2.5 00020340 4 output - - - -\n\
     operand 2.6 00020380 4 output - - - -\n\
     worker 0 idle\n\
     worker 1 idle\n\
     worker 2 idle\n\
     entry 0 00020040 4 1.1 1 live\n\
     entry 0 00020080 4 1.2 1 live\n\
     entry 0 000200c0 4 1.3 1 live\n\
     entry 0 00020100 4 1.4 1 live\n\
     entry 0 00020140 4 1.5 1 live\n\
     entry 0 00020180 4 1.6 1 live\n\
     entry 0 00020200 4 2.0 0 live\n\
     place 0 1.1\n\
     place 0 1.2\n\
     place 0 1.3\n\
     place 0 1.4\n\
     place 0 1.5\n\
     place 0 1.6\n\
     place 0 2.0\n\
     version 1.1 00020040 4 home produced 1 1 - - - - - - 1 -\n\
     version 1.2 00020080 4 home produced 1 1 - - - - - - 1 -\n\
     version 1.3 000200c0 4 home produced 1 1 - - - - - - 1 -\n\
     version 1.4 00020100 4 home produced 1 1 - - - - - - 1 -\n\
     version 1.5 00020140 4 home produced 1 1 - - - - - - 1 -\n\
     version 1.6 00020180 4 home produced 1 1 - - - - - - 1 -\n\
     message decode 2.1 00020240 4 output\n\
     message decode 2.2 00020280 4 output\n\
     message decode 2.3 000202c0 4 output\n\
     message decode 2.4 00020300 4 output\n\
     message decode 2.5 00020340 4 output\n\
     message decode 2.6 00020380 4 output\n\
     message ack 2.0\n\
     message open 2.0 00020200 4 output home - - -\n\
     message idle 1.1 00020040 1\n\
     message idle 1.2 00020080 1\n\
     message idle 1.3 000200c0 1\n\
     message idle 1.4 00020100 1\n\
     message idle 1.5 00020140 1\n\
     message idle 1.6 00020180 1\n\
     enabled 9\n";

/// A log of `await_third` in which main awaits the first object.
const AWAITED_LOG: &str =
    "main\nmain\ntake\ndecode 1.0\nack 1.0\nopen 1.0\nready 1.0\nstart 0\nexec 0\nfinish 0\n\
     release 1.0\nbye 1.0\nmain\nmain\nidle 1.0\nretire 1.0\ngone 1.0\nmain\nmain\n";

/// After it the second object alone is named, and its task is in the inbox.
const AWAITED: &str = "main 0001006c 27 2 runs\n\
     regs main 00000000 ffff0000 00000000 00000000 00000000 00000000 00000000 00000000 00000000 00020000 00010094 00000001 00000062 00000000 00000000 00000000 00000005 00000000 00000000 00000000 00000000 00000000 00000000 00000000 00000000 00000000 00000000 00000000 00000000 00000000 00000000\n\
     epoch 00020040 4\n\
     inbox 2\n\
     worker 0 idle\n\
     worker 1 idle\n\
     worker 2 idle\n\
     row 00020000 61000000000000000000000000000000\n\
     enabled 2\n";

/// A log of `renamed_output` in which an operand of the second task is decoded before that of the first.
const WINDOW_LOG: &str = "main\nmain\ntake\nmain\nmain\ntake\ndecode 2.1\n";

/// After it two tasks are held by the gateway.
const WINDOW: &str = "main 00010058 22 2 runs\n\
     regs main 00000000 ffff0000 00000000 00000000 00000000 00000000 00000000 00000000 00000000 000100e4 000100fc 00000002 00000000 00000000 00000000 00000000 00000002 00000000 00000000 00000000 00000000 00000000 00000000 00000000 00000000 00000000 00000000 00000000 00000000 00000000 00000000\n\
     epoch 00020000 4\n\
     epoch 00020040 4\n\
     gateway 1 1\n\
     gateway 2 2\n\
     task 1 waiting\n\
     operand 1.0 00020000 4 output - - - -\n\
     task 2 waiting\n\
     operand 2.0 00020000 4 input - - - -\n\
     operand 2.1 00020040 4 output - - - -\n\
     worker 0 idle\n\
     worker 1 idle\n\
     worker 2 idle\n\
     entry 1 00020040 4 2.1 0 live\n\
     place 1 2.1\n\
     message decode 1.0 00020000 4 output\n\
     message decode 2.0 00020000 4 input\n\
     message ack 2.1\n\
     message open 2.1 00020040 4 output home - - -\n\
     enabled 4\n";

/// A log of `everything`, each of whose tasks is left at another step.
const EVERYTHING_LOG: &str =
    "main\nmain\nmain\nmain\ntake\ndecode 1.0\nack 1.0\nopen 1.0\nready 1.0\nstart 0\n\
     exec 0\nfinish 0\nrelease 1.0\nbye 1.0\nmain\nmain\ntake\ndecode 2.0\nack 2.0\n\
     open 2.0\nready 2.0\nstart 0\nexec 0\nfinish 0\nrelease 2.0\nbye 2.0\nmain\nmain\ntake\n\
     decode 3.0\nack 3.0\nopen 3.0\nready 3.0\nstart 0\nexec 0\nfinish 0\nrelease 3.0\n\
     bye 3.0\nidle 2.0\nidle 3.0\nretire 3.0\nmain\nmain\ntake\ndecode 4.0\nack 4.0\n\
     open 4.0\nready 4.0\nmain\nmain\ntake\ndecode 5.0\nack 5.0\nopen 5.0\nready 5.0\n\
     start 0\nexec 0\nfinish 0\nstart 0\nexec 0\nfinish 0\nrelease 4.0\nbye 4.0\n\
     release 5.0\nbye 5.0\nidle 5.0\nmain\nmain\ntake\ndecode 6.0\nack 6.0\nopen 6.0\n\
     ready 6.0\nstart 0\nexec 0\nfinish 0\nrelease 6.0\nbye 6.0\nmain\nmain\ntake\n\
     decode 7.0\nack 7.0\nidle 6.0\nmain\nmain\ntake\ndecode 8.0\nack 8.0\nopen 8.0\nmain\n\
     main\ntake\ndecode 9.0\nack 9.0\nopen 9.0\nready 9.0\nstart 0\nexec 0\nfinish 0\nmain\n\
     main\ntake\ndecode 10.0\nack 10.0\nopen 10.0\nready 10.0\nstart 0\nexec 0\nfinish 0\n\
     release 10.0\nmain\nmain\ntake\ndecode 11.0\nack 11.0\nopen 11.0\nmain\nmain\ntake\n\
     decode 12.0\nack 12.0\nuse 12.0\nready 11.0\nstart 0\nexec 0\nfinish 0\nrelease 11.0\n\
     main\nmain\ntake\ndecode 13.0\nretire 5.0\nmain\nmain\ntake\nstart 0\nexec 0\nmain\n\
     main\ntake\nstart 1\nexec 1\nmain\nmain\ntake\nstart 2\nexec 2\nmain\nmain\ntake\nmain\n\
     main\nfinish 1\n";

/// After it each kind of line is there, and each kind of message.
const EVERYTHING: &str = "main 00010334 205 18 runs\n\
     regs main 00000000 ffff0000 00000000 00000000 00000000 00000000 00000000 00000000 00000000 0001035c 00000000 00000000 00000000 00000000 00000000 00000000 00000002 00000000 00000000 00000000 00000000 00000000 00000000 00000000 00000000 00000000 00000000 00000000 00000000 00000000 00000000\n\
     epoch 00020000 4\n\
     epoch 00020040 4\n\
     epoch 00020080 4\n\
     epoch 000200c0 4\n\
     epoch 00020100 4\n\
     epoch 00020140 4\n\
     epoch 00020180 4\n\
     epoch 000201c0 4\n\
     epoch 00020200 4\n\
     epoch 00020240 8\n\
     inbox 18\n\
     gateway 13 2\n\
     task 7 waiting\n\
     operand 7.0 00020100 4 input - - - -\n\
     task 8 waiting\n\
     operand 8.0 00020140 4 inout - - - -\n\
     task 9 finished\n\
     operand 9.0 00020180 4 inout 9.0 home - -\n\
     task 10 finished\n\
     operand 10.0 000201c0 4 inout 10.0 home - -\n\
     task 11 finished\n\
     operand 11.0 00020200 4 input 11.0 home - -\n\
     task 12 waiting\n\
     operand 12.0 00020200 4 input - - - -\n\
     task 13 waiting\n\
     operand 13.0 00020000 4 output - - - -\n\
     operand 13.1 00020240 8 input - - - -\n\
     task 14 running\n\
     task 16 running\n\
     task 17 queued\n\
     queue 17\n\
     worker 0 14 2 00010410 trapped\n\
     regs 0 fffffff0 fffdfff0 00000000 00000000 00000000 00000000 00000000 00000000 00000000 12345678 00000000 00000000 00000000 00000000 00000000 00000000 00000000 00000000 00000000 00000000 00000000 00000000 00000000 00000000 00000000 00000000 00000000 00000000 00000000 00000000 00000000\n\
     scratch 0 fffdfff0 78563412000000000000000000000000\n\
     worker 1 idle\n\
     worker 2 16 1 fffffff0 ended\n\
     regs 2 fffffff0 fffe0000 00000000 00000000 00000000 00000000 00000000 00000000 00000000 00000000 00000000 00000000 00000000 00000000 00000000 00000000 00000000 00000000 00000000 00000000 00000000 00000000 00000000 00000000 00000000 00000000 00000000 00000000 00000000 00000000 00000000\n\
     entry 0 00020000 4 13.0 0 live\n\
     entry 0 00020040 4 2.0 0 retiring\n\
     entry 0 00020080 4 3.0 0 retiring\n\
     entry 0 000200c0 4 5.0 0 retiring\n\
     entry 0 00020100 4 6.0 2 live\n\
     entry 0 00020140 4 8.0 0 live\n\
     entry 0 00020180 4 9.0 0 live\n\
     entry 0 000201c0 4 10.0 0 live\n\
     entry 0 00020200 4 11.0 2 live\n\
     place 0 1.0\n\
     place 0 2.0\n\
     place 0 3.0\n\
     place 0 4.0\n\
     place 0 5.0\n\
     place 0 6.0\n\
     place 0 8.0\n\
     place 0 9.0\n\
     place 0 10.0\n\
     place 0 11.0\n\
     place 0 13.0\n\
     buffer 0 5.0 65000000\n\
     buffer 0 13.0 unset\n\
     version 1.0 00020000 4 home produced 0 0 - - - - - - 0 -\n\
     version 2.0 00020040 4 home produced 0 0 - - - - - - 0 -\n\
     version 6.0 00020100 4 home produced 1 1 - - - - - - 1 -\n\
     version 8.0 00020140 4 home open 0 0 - - - - - - - -\n\
     version 9.0 00020180 4 home open 0 0 - - - - - - - -\n\
     version 10.0 000201c0 4 home produced 0 0 - - - - - - 0 -\n\
     version 11.0 00020200 4 home produced 2 1 - 12.0 - - - - - -\n\
     message decode 13.1 00020240 8 input\n\
     message ack 13.0\n\
     message open 13.0 00020000 4 output 13.0 1.0 beside 0\n\
     message use 7.0 6.0\n\
     message ready 8.0 8.0 home\n\
     message link 11.0 12.0\n\
     message release 9.0 9.0 producer\n\
     message bye 10.0 free\n\
     message bye 11.0 promised\n\
     message idle 1.0 00020000 0\n\
     message idle 10.0 000201c0 0\n\
     message nack 6.0\n\
     message retire 2.0\n\
     message gone 3.0 00020080 - retired\n\
     message gone 4.0 000200c0 - died\n\
     copy 0 5.0 0\n\
     trap 15 00010358 3 00010358\n\
     piece 0 370501\n\
     row 00020000 61000000000000000000000000000000\n\
     row 00020040 62000000000000000000000000000000\n\
     row 00020080 63000000000000000000000000000000\n\
     row 000200c0 64000000000000000000000000000000\n\
     row 00020180 67000000000000000000000000000000\n\
     row 000201c0 68000000000000000000000000000000\n\
     enabled 20\n";

/// Where the task stands that writes to its scratch, after the lists.
const SCRIBE: u32 = 0x10408;

/// Eighteen tasks. The fourteenth puts its argument on its stack, and traps.
fn everything(alloc: Global) -> Result<Vec<u8>, AsmFault> {
    let mut main = Source::open(alloc)?;
    main.print(0x10000, 3)?;
    main.spawn(W, &[inout(0x20000, 4)], 0x61)?;
    main.spawn(W, &[inout(0x20040, 4)], 0x62)?;
    main.spawn(W, &[inout(0x20080, 4)], 0x63)?;
    main.spawn(W, &[output(0x200C0, 4)], 0x64)?;
    main.spawn(W, &[output(0x200C0, 4)], 0x65)?;
    main.spawn(Q, &[input(0x20100, 4)], 0)?;
    main.spawn(Q, &[input(0x20100, 4)], 0)?;
    main.spawn(W, &[inout(0x20140, 4)], 0x66)?;
    main.spawn(W, &[inout(0x20180, 4)], 0x67)?;
    main.spawn(W, &[inout(0x201C0, 4)], 0x68)?;
    main.spawn(Q, &[input(0x20200, 4)], 0)?;
    main.spawn(Q, &[input(0x20200, 4)], 0)?;
    main.spawn(W, &[output(0x20000, 4), input(0x20240, 8)], 0x69)?;
    // A spawn by hand, of the task that stands after the lists.
    main.li(10, SCRIBE)?;
    main.li(11, 0)?;
    main.li(12, 0)?;
    main.li(13, 0x1234_5678)?;
    main.li(17, 2)?;
    main.word(0x0000_0073)?;
    main.spawn(H, &[], 0)?;
    main.spawn(N, &[], 0)?;
    main.spawn(N, &[], 0)?;
    main.spawn(N, &[], 0)?;
    main.exit(0)?;
    // addi x2, x2, -16; sw x10, 0(x2); ebreak
    main.last_word(0xFF01_0113)?;
    main.last_word(0x00A1_2023)?;
    main.last_word(0x0010_0073)?;
    main.image()
}

#[test]
fn a_state_in_the_midst_of_a_run(rt: HostRuntime) -> Result<(), Fail> {
    let image = renamed_output(rt.alloc())?;
    expect(&rt, rt.alloc(), &image, &[], RENAMED_OUTPUT_LOG, 30, MIDWAY)
}

#[test]
fn the_last_state_of_a_run(rt: HostRuntime) -> Result<(), Fail> {
    let image = renamed_output(rt.alloc())?;
    expect(
        &rt,
        rt.alloc(),
        &image,
        &[],
        RENAMED_OUTPUT_LOG,
        58,
        FINISHED,
    )
}

#[test]
fn full_tables_are_told(rt: HostRuntime) -> Result<(), Fail> {
    let image = full_tables(rt.alloc())?;
    let changes = [
        (Key::Entries, "7"),
        (Key::Versions, "7"),
        (Key::Buffers, "7"),
    ];
    expect(&rt, rt.alloc(), &image, &changes, FULL_LOG, 55, FULL)
}

#[test]
fn an_awaited_object_is_named_no_more(rt: HostRuntime) -> Result<(), Fail> {
    let image = await_third(rt.alloc())?;
    expect(&rt, rt.alloc(), &image, &[], AWAITED_LOG, 19, AWAITED)
}

#[test]
fn two_tasks_decode_at_once(rt: HostRuntime) -> Result<(), Fail> {
    let image = renamed_output(rt.alloc())?;
    let changes = [(Key::Window, "2"), (Key::Banks, "2")];
    expect(&rt, rt.alloc(), &image, &changes, WINDOW_LOG, 7, WINDOW)
}

#[test]
fn each_kind_of_line_is_told(rt: HostRuntime) -> Result<(), Fail> {
    let image = everything(rt.alloc())?;
    let changes = [
        (Key::MaxTasks, "32"),
        (Key::Window, "4"),
        (Key::Stations, "2"),
    ];
    expect(
        &rt,
        rt.alloc(),
        &image,
        &changes,
        EVERYTHING_LOG,
        154,
        EVERYTHING,
    )
}
