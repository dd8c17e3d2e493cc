// Texts of events, written and read, and lists of messages.
use crate::{Event, Message, Sent, event_text, read_event};
use std::process::Abort;
use std::test::Fail;
use tss_base::OpName;

/// An operand's name.
fn name(task: u32, place: u32) -> OpName {
    OpName { task, place }
}

/// The event has the text, which is read as the event. A further byte, or one less, makes it none or another.
fn is_spelled(rt: &impl Abort, e: Event, text: &[u8]) {
    if e.fits() {
        let mut bytes = [b'!'; 24];
        let length = event_text(&e, &mut bytes);
        assert!(rt; &bytes[..length] == text);
        assert!(rt; bytes[length] == b'!');
    } else {
        assert!(rt; false, "the event doesn't fit");
    }
    assert_eq!(rt; read_event(text), Some(e));
}

#[test]
fn each_kind_is_written_and_read(rt: HostRuntime) -> Result<(), Fail> {
    is_spelled(&rt, Event::Main, b"main");
    is_spelled(&rt, Event::Take, b"take");
    is_spelled(&rt, Event::Decode(name(1, 0)), b"decode 1.0");
    is_spelled(&rt, Event::Ack(name(65536, 6)), b"ack 65536.6");
    is_spelled(&rt, Event::Open(name(10, 5)), b"open 10.5");
    is_spelled(&rt, Event::Use(name(907, 1)), b"use 907.1");
    is_spelled(&rt, Event::Ready(name(3, 0)), b"ready 3.0");
    is_spelled(&rt, Event::Link(name(44, 2)), b"link 44.2");
    is_spelled(&rt, Event::Start(0), b"start 0");
    is_spelled(&rt, Event::Exec(63), b"exec 63");
    is_spelled(&rt, Event::Finish(10), b"finish 10");
    is_spelled(&rt, Event::Release(name(65536, 0)), b"release 65536.0");
    is_spelled(&rt, Event::Bye(name(2, 1)), b"bye 2.1");
    is_spelled(&rt, Event::Idle(name(3, 0)), b"idle 3.0");
    is_spelled(&rt, Event::Nack(name(1, 0)), b"nack 1.0");
    is_spelled(&rt, Event::Retire(name(9, 0)), b"retire 9.0");
    is_spelled(&rt, Event::Copy(7), b"copy 7");
    is_spelled(&rt, Event::Gone(name(16384, 3)), b"gone 16384.3");
    Ok(())
}

/// The line is no event's text.
fn is_none(rt: &impl Abort, line: &[u8]) {
    assert_eq!(rt; read_event(line), None);
}

#[test]
fn numbers_out_of_range_are_no_event(rt: HostRuntime) -> Result<(), Fail> {
    is_none(&rt, b"start 64");
    is_none(&rt, b"exec 100");
    is_none(&rt, b"copy 64");
    is_none(&rt, b"finish 4294967296");
    is_none(&rt, b"finish 18446744073709551616");
    is_none(&rt, b"decode 1.7");
    is_none(&rt, b"decode 0.0");
    is_none(&rt, b"ack 65537.0");
    is_none(&rt, b"ack 4294967297.0");
    is_none(&rt, b"ack 1.4294967296");
    Ok(())
}

#[test]
fn numbers_have_one_spelling(rt: HostRuntime) -> Result<(), Fail> {
    is_none(&rt, b"start 00");
    is_none(&rt, b"start 01");
    is_none(&rt, b"start +1");
    is_none(&rt, b"start -1");
    is_none(&rt, b"start 0x1");
    is_none(&rt, b"start 1 ");
    is_none(&rt, b"start  1");
    is_none(&rt, b"start ");
    is_none(&rt, b"start");
    is_none(&rt, b"decode 01.0");
    is_none(&rt, b"decode 1.00");
    is_none(&rt, b"decode 1");
    is_none(&rt, b"decode 1.");
    is_none(&rt, b"decode .0");
    is_none(&rt, b"decode 1.0.0");
    is_none(&rt, b"decode 1:0");
    Ok(())
}

#[test]
fn kinds_have_one_spelling(rt: HostRuntime) -> Result<(), Fail> {
    is_none(&rt, b"");
    is_none(&rt, b" ");
    is_none(&rt, b"Main");
    is_none(&rt, b"main ");
    is_none(&rt, b" main");
    is_none(&rt, b"main\r");
    is_none(&rt, b"main\0");
    is_none(&rt, b"take ");
    is_none(&rt, b"take 1");
    is_none(&rt, b"dec 1.0");
    is_none(&rt, b"tss-log 2");
    is_none(&rt, b"\xFFmain");
    Ok(())
}

#[test]
fn messages_come_out_in_order(rt: HostRuntime) -> Result<(), Fail> {
    let mut sent = Sent::new();
    sent.push(Message::Ack(name(1, 0)));
    match sent.pop() {
        Some(Message::Ack(o)) => assert_eq!(rt; o, name(1, 0)),
        _ => unreachable!(),
    }
    sent.end();
    Ok(())
}
