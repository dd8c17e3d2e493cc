// Banks where idle and use race, where operands wait, and that are filled, emptied and filled anew.
ghost use Rattle.std.specs.Prelude.{◌≡◌, ◌*◌, ◌+◌, ◌<◌, IfSome};
ghost use Rattle.std.specs.Option.{ForSome};
ghost use Rattle.tss_renaming.specs.Decoding.{IfDone, OnWait, IsDecoded};

use std::fmt::Debug;
use std::process::Abort;
use std::test::Fail;
use tss_base::{Follow, How, Mode, OpName, Operand, Range, Sizes, Storage};
use tss_events::{Gone, HeldBuffer, Message, Opening, Sent};
use tss_renaming::{BUFFERS_FULL, Decoded, ENTRIES_FULL, RETIRING, Renaming, TURN, VERSIONS_FULL};

/// Checks that two values are equal. A call has fewer steps than `assert_eq!`, so a test of many is proved sooner.
fn check_eq<T: PartialEq + Debug + Copy>(rt: &impl Abort, left: T, right: T) {
    assert_eq!(rt; left, right);
}

/// A machine of one bank with so many entries, as many places, and so many buffers.
fn sizes(entries: u32, buffers: u32) -> Sizes
    ensures { result.window ≡ 8 }
{
    Sizes {
        stations: 1,
        slots: 8,
        workers: 3,
        banks: 1,
        entries,
        versions: entries,
        buffers,
        quantum: 100,
        window: 8,
    }
}

/// An operand on an object of four bytes.
fn operand(base: u32, mode: Mode) -> Operand {
    Operand {
        object: Range { base, len: 4 },
        mode,
    }
}

/// The first operand of a task.
fn name(task: u32) -> OpName {
    OpName { task, place: 0 }
}

/// Puts an operand into the line.
fn expect(rt: &impl Abort, bank: &mut Renaming, o: OpName)
    ensures { bank.new.bank ≡ bank.old.bank }
{
    assert!(rt; bank.line_room());
    assert!(rt; !bank.expects(o));
    bank.expect(o);
}

/// Decodes an operand, where the conditions hold.
fn decode(rt: &impl Abort, bank: &mut Renaming, o: OpName, operand: &Operand) -> Decoded
    ensures exact { IfDone result (IsDecoded bank.old bank.new o operand.now) }
    ensures unchanged { OnWait result (bank.new ≡ bank.old) }
{
    if bank.place(o).is_some() || bank.buffer(o).is_some() {
        rt.abort();
    }
    if let Some(entry) = bank.entry(operand.object.base) {
        if entry.sent == u32::MAX {
            rt.abort();
        }
    }
    bank.decode(o, operand)
}

/// The number of the wait at which a decode comes to a stop. Nothing has changed.
fn waits(rt: &impl Abort, bank: &mut Renaming, o: OpName, operand: &Operand) -> u32
    ensures { bank.new ≡ bank.old }
{
    match decode(rt, bank, o, operand) {
        Decoded::Wait(number) => number,
        Decoded::Done(_sent) => rt.abort(),
    }
}

/// The version that a decode opens: none where the operand uses the latest.
fn opened(rt: &impl Abort, bank: &mut Renaming, o: OpName, operand: &Operand) -> Option<Opening>
    ensures bank { bank.new.bank ≡ bank.old.bank }
    ensures place { IfSome result (λ m. m.place.number ≡ 2 * bank.old.bank) }
    ensures buffer { IfSome result (λ m. ForSome m.buffer (λ t. t.number ≡ 2 * bank.old.bank + 1)) }
{
    match decode(rt, bank, o, operand) {
        Decoded::Done(mut sent) => {
            let first = sent.pop();
            acknowledges(rt, sent, o);
            match first {
                Some(Message::Open(opening)) => Some(opening),
                Some(Message::Use(_, _)) => None,
                _other => rt.abort(),
            }
        }
        Decoded::Wait(_) => rt.abort(),
    }
}

/// The messages are an operand's ack alone.
fn acknowledges(rt: &impl Abort, sent: Sent, operand: OpName) {
    let mut sent = sent;
    match sent.pop() {
        Some(Message::Ack(o)) => assert!(rt; o == operand),
        _other => rt.abort(),
    }
    finish(rt, sent);
}

/// Ends a list of no messages.
fn finish(rt: &impl Abort, sent: Sent) {
    let mut sent = sent;
    match sent.pop() {
        None => sent.end(),
        Some(_message) => rt.abort(),
    }
}

/// Opens the next version of an object.
fn open(rt: &impl Abort, bank: &mut Renaming, o: OpName, operand: &Operand) -> Opening
    ensures bank { bank.new.bank ≡ bank.old.bank }
    ensures place { result.place.number ≡ 2 * bank.old.bank }
    ensures buffer { ForSome result.buffer (λ t. t.number ≡ 2 * bank.old.bank + 1) }
{
    match opened(rt, bank, o, operand) {
        Some(opening) => opening,
        None => rt.abort(),
    }
}

/// An operand uses the latest version of its object.
fn uses_latest(rt: &impl Abort, bank: &mut Renaming, o: OpName, operand: &Operand)
    ensures { bank.new.bank ≡ bank.old.bank }
{
    match opened(rt, bank, o, operand) {
        Some(_opening) => rt.abort(),
        None => {}
    }
}

/// A version is gone, with its buffer.
fn leave(rt: &impl Abort, bank: &mut Renaming, opening: Opening, retired: bool)
    requires place { opening.place.number ≡ 2 * bank.old.bank }
    requires buffer { ForSome opening.buffer (λ t. t.number ≡ 2 * bank.old.bank + 1) }
    ensures { bank.new.bank ≡ bank.old.bank }
{
    let Opening {
        o,
        operand,
        storage: _,
        follows: _,
        place,
        buffer,
    } = opening;
    assert!(rt; bank.place(o) == Some(place.place()));
    let object = operand.object;
    match buffer {
        Some(token) => {
            assert!(rt; bank.buffer(o) == Some(token.place()));
            bank.gone(Gone {
                version: o,
                object,
                place,
                buffer: Some(HeldBuffer { name: o, token }),
                retired,
            });
        }
        None => bank.gone(Gone {
            version: o,
            object,
            place,
            buffer: None,
            retired,
        }),
    }
}

/// Whether a version that asks may retire.
fn retires(rt: &impl Abort, bank: &mut Renaming, v: OpName, base: u32, count: u32) -> bool
    ensures { bank.new.bank ≡ bank.old.bank }
{
    let mut sent = bank.idle(v, base, count);
    let answer = sent.pop();
    finish(rt, sent);
    match answer {
        Some(Message::Retire(last)) => {
            assert!(rt; last == v);
            true
        }
        Some(Message::Nack(last)) => {
            assert!(rt; last == v);
            false
        }
        _other => rt.abort(),
    }
}

#[test]
fn version_with_a_use_under_way_is_refused(rt: HostRuntime) -> Result<(), Fail> {
    let mut bank = Renaming::open(rt.alloc(), 3, &sizes(16, 7))?;
    let x = operand(0x20000, Mode::Input);
    expect(&rt, &mut bank, name(1));
    let first = open(&rt, &mut bank, name(1), &x);
    assert!(rt; first.storage == Some(Storage::Home) && first.follows == None);
    expect(&rt, &mut bank, name(2));
    uses_latest(&rt, &mut bank, name(2), &x);
    assert!(rt; !retires(&rt, &mut bank, name(1), 0x20000, 1));
    assert!(rt; retires(&rt, &mut bank, name(1), 0x20000, 2));
    expect(&rt, &mut bank, name(3));
    check_eq(&rt, waits(&rt, &mut bank, name(3), &x), RETIRING);
    leave(&rt, &mut bank, first, true);
    assert!(rt; bank.entry(0x20000).is_none());
    let third = open(&rt, &mut bank, name(3), &x);
    leave(&rt, &mut bank, third, true);
    let _ended = bank.close();
    Ok(())
}

#[test]
fn outputs_take_buffers(rt: HostRuntime) -> Result<(), Fail> {
    let mut bank = Renaming::open(rt.alloc(), 63, &sizes(3, 1))?;
    let y = operand(0x20040, Mode::Output);
    expect(&rt, &mut bank, name(1));
    let first = open(&rt, &mut bank, name(1), &y);
    assert!(rt; first.storage == Some(Storage::Home) && first.buffer.is_none());
    expect(&rt, &mut bank, name(2));
    uses_latest(&rt, &mut bank, name(2), &operand(0x20040, Mode::Input));
    expect(&rt, &mut bank, name(3));
    let third = open(&rt, &mut bank, name(3), &y);
    let follow = Follow {
        version: name(1),
        how: How::Beside,
        last: 1,
    };
    assert!(rt;
        third.storage == Some(Storage::Buffer(0, name(3))) && third.follows == Some(follow)
    );
    check_eq(&rt, bank.buffer_at(0), Some((name(3), 0)));
    expect(&rt, &mut bank, name(4));
    check_eq(&rt, waits(&rt, &mut bank, name(4), &y), BUFFERS_FULL);
    let fourth = open(&rt, &mut bank, name(4), &operand(0x20040, Mode::Inout));
    let follow = Follow {
        version: name(3),
        how: How::Over,
        last: 0,
    };
    assert!(rt; fourth.storage == None && fourth.follows == Some(follow));
    expect(&rt, &mut bank, name(5));
    check_eq(&rt, waits(&rt, &mut bank, name(5), &y), VERSIONS_FULL);
    leave(&rt, &mut bank, third, false);
    leave(&rt, &mut bank, first, false);
    check_eq(&rt, (bank.places(), bank.buffers()), (1, 0));
    let fifth = open(&rt, &mut bank, name(5), &y);
    leave(&rt, &mut bank, fourth, false);
    leave(&rt, &mut bank, fifth, true);
    check_eq(
        &rt,
        (bank.entries(), bank.places(), bank.buffers()),
        (0, 0, 0),
    );
    Ok(())
}

#[test]
fn earlier_tasks_go_first(rt: HostRuntime) -> Result<(), Fail> {
    let mut bank = Renaming::open(rt.alloc(), 0, &sizes(2, 0))?;
    let x = operand(0x20000, Mode::Inout);
    let y = operand(0x20040, Mode::Inout);
    expect(&rt, &mut bank, name(1));
    expect(&rt, &mut bank, name(2));
    check_eq(&rt, waits(&rt, &mut bank, name(2), &y), TURN);
    let first = open(&rt, &mut bank, name(1), &x);
    let second = open(&rt, &mut bank, name(2), &y);
    check_eq(
        &rt,
        (bank.place_at(1), bank.place_at(2)),
        (Some(name(2)), None),
    );
    leave(&rt, &mut bank, first, true);
    leave(&rt, &mut bank, second, true);
    Ok(())
}

/// The object of a task, each its own.
fn object_of(task: u32, mode: Mode) -> Operand {
    operand(task.wrapping_mul(64), mode)
}

/// With one entry and place left: the last is taken, an output waits, the version retires and is gone, and the output
/// is decoded.
fn last_place(rt: &impl Abort, bank: &mut Renaming)
    ensures { bank.new.bank ≡ bank.old.bank }
{
    expect(rt, bank, name(1));
    let first = open(rt, bank, name(1), &object_of(1, Mode::Input));
    expect(rt, bank, name(1000));
    let output = object_of(1000, Mode::Output);
    assert!(rt; waits(rt, bank, name(1000), &output) == ENTRIES_FULL);
    assert!(rt; waits(rt, bank, name(1000), &object_of(1, Mode::Output)) == VERSIONS_FULL);
    assert!(rt; retires(rt, bank, name(1), 64, 1));
    leave(rt, bank, first, true);
    let second = open(rt, bank, name(1000), &output);
    leave(rt, bank, second, true);
}

/// Fills a bank that has room for so many more and one, and empties it again.
fn fill(rt: &impl Abort, bank: &mut Renaming, more: u32)
    ensures { bank.new.bank ≡ bank.old.bank }
{
    if more == 0 {
        last_place(rt, bank);
    } else {
        let task = more.wrapping_add(1);
        expect(rt, bank, name(task));
        let opening = open(rt, bank, name(task), &object_of(task, Mode::Output));
        fill(rt, bank, more - 1);
        leave(rt, bank, opening, true);
    }
}

#[test]
fn full_banks_retire_first(rt: HostRuntime) -> Result<(), Fail> {
    for places in [7, 256] {
        let mut bank = Renaming::open(rt.alloc(), 1, &sizes(places, 7))?;
        for _ in 0..2 {
            fill(&rt, &mut bank, places - 1);
            check_eq(&rt, (bank.entries(), bank.places()), (0, 0));
        }
    }
    Ok(())
}

/// An operand on the object of a place of a table of objects.
fn in_table(base: u32, place: u32, mode: Mode) -> Operand {
    operand(base.wrapping_add(place.wrapping_mul(64)), mode)
}

/// With all entries and places in use: an output waits, the first version retires and is gone, and the output is
/// decoded in its place.
fn output_after_a_retirement(rt: &impl Abort, bank: &mut Renaming, first: Opening)
    requires place { first.place.number ≡ 2 * bank.old.bank }
    requires buffer { ForSome first.buffer (λ t. t.number ≡ 2 * bank.old.bank + 1) }
    ensures { bank.new.bank ≡ bank.old.bank }
{
    assert!(rt; bank.entries() == 7 && bank.places() == 7 && bank.buffers() == 0);
    let output = in_table(0x20200, 0, Mode::Output);
    expect(rt, bank, name(2));
    assert!(rt; bank.wait_of(name(2), &output) == Some(ENTRIES_FULL));
    assert!(rt; waits(rt, bank, name(2), &output) == ENTRIES_FULL);
    assert!(rt; retires(rt, bank, name(1), 0x20000, 1));
    assert!(rt; waits(rt, bank, name(2), &output) == ENTRIES_FULL);
    leave(rt, bank, first, true);
    let second = open(rt, bank, name(2), &output);
    assert!(rt; second.storage == Some(Storage::Home) && second.follows == None);
    assert!(rt; bank.entries() == 7 && bank.places() == 7 && bank.buffers() == 0);
    leave(rt, bank, second, true);
}

/// Decodes the inputs of task 1 from a place on, does the same, and lets their versions go.
fn fill_with_inputs(rt: &impl Abort, bank: &mut Renaming, more: u32, first: Opening)
    requires place { first.place.number ≡ 2 * bank.old.bank }
    requires buffer { ForSome first.buffer (λ t. t.number ≡ 2 * bank.old.bank + 1) }
    ensures { bank.new.bank ≡ bank.old.bank }
{
    if more == 0 {
        output_after_a_retirement(rt, bank, first);
    } else {
        let place = 7u32.wrapping_sub(more);
        let o = OpName { task: 1, place };
        expect(rt, bank, o);
        let opening = open(rt, bank, o, &in_table(0x20000, place, Mode::Input));
        fill_with_inputs(rt, bank, more - 1, first);
        leave(rt, bank, opening, true);
    }
}

#[test]
fn output_waits_for_the_first_of_seven_inputs(rt: HostRuntime) -> Result<(), Fail> {
    let mut bank = Renaming::open(rt.alloc(), 0, &sizes(7, 7))?;
    expect(&rt, &mut bank, name(1));
    let first = open(&rt, &mut bank, name(1), &in_table(0x20000, 0, Mode::Input));
    fill_with_inputs(&rt, &mut bank, 6, first);
    check_eq(
        &rt,
        (bank.entries(), bank.places(), bank.buffers()),
        (0, 0, 0),
    );
    Ok(())
}

/// An output's version is gone, and the inout that follows over it has its buffer, and is gone with it.
fn hand_over(rt: &impl Abort, bank: &mut Renaming, output: Opening, inout: Opening)
    requires place { output.place.number ≡ 2 * bank.old.bank }
    requires buffer { ForSome output.buffer (λ t. t.number ≡ 2 * bank.old.bank + 1) }
    requires next { inout.place.number ≡ 2 * bank.old.bank }
    ensures { bank.new.bank ≡ bank.old.bank }
{
    let Opening {
        o,
        operand,
        storage: _,
        follows: _,
        place,
        buffer,
    } = output;
    let Some(token) = buffer else {
        rt.abort();
    };
    let object = operand.object;
    assert!(rt; bank.place(o) == Some(place.place()));
    bank.gone(Gone {
        version: o,
        object,
        place,
        buffer: None,
        retired: false,
    });
    assert!(rt; bank.place(o).is_none() && bank.buffer(o) == Some(token.place()));
    let Opening {
        o: v,
        operand: _,
        storage: _,
        follows: _,
        place,
        buffer,
    } = inout;
    match buffer {
        Some(_token) => rt.abort(),
        None => {}
    }
    assert!(rt; bank.place(v) == Some(place.place()) && bank.buffer(o) == Some(token.place()));
    bank.gone(Gone {
        version: v,
        object,
        place,
        buffer: Some(HeldBuffer { name: o, token }),
        retired: true,
    });
}

#[test]
fn buffer_ends_with_the_inout_that_has_it(rt: HostRuntime) -> Result<(), Fail> {
    let mut bank = Renaming::open(rt.alloc(), 0, &sizes(7, 1))?;
    let x = operand(0x20000, Mode::Output);
    for task in [1, 2, 3] {
        expect(&rt, &mut bank, name(task));
    }
    let first = open(&rt, &mut bank, name(1), &x);
    let output = open(&rt, &mut bank, name(2), &x);
    let inout = open(&rt, &mut bank, name(3), &operand(0x20000, Mode::Inout));
    leave(&rt, &mut bank, first, false);
    check_eq(
        &rt,
        (bank.entries(), bank.places(), bank.buffers()),
        (1, 2, 1),
    );
    hand_over(&rt, &mut bank, output, inout);
    check_eq(
        &rt,
        (bank.entries(), bank.places(), bank.buffers()),
        (0, 0, 0),
    );
    Ok(())
}
