// The mail filled, emptied and filled anew.
use crate::Mail;
use std::process::Abort;
use std::test::Fail;
use tss_base::{Event, OpName};
use tss_events::Message;

/// An operand's name.
fn name(task: u32, place: u32) -> OpName {
    OpName { task, place }
}

/// Fills mail of three with a bye, a link and an ack, whose names come out in the order of kinds, and empties it.
fn fill_and_empty(rt: &impl Abort, mail: &mut Mail) {
    let (first, second, third) = (name(1, 0), name(2, 0), name(9, 6));
    if mail.room() && !mail.has(&Event::Bye(first)) {
        mail.post(Message::Bye(first, true));
    }
    if mail.room() && !mail.has(&Event::Link(second)) {
        mail.post(Message::Link(second, name(3, 1)));
    }
    if mail.room() && !mail.has(&Event::Ack(third)) {
        mail.post(Message::Ack(third));
    }
    assert_eq!(rt; (mail.count(), mail.room()), (3, false));
    assert_eq!(rt;
        (mail.at(0), mail.at(1), mail.at(2), mail.at(3)),
        (
            Some(Event::Ack(name(9, 6))),
            Some(Event::Link(name(2, 0))),
            Some(Event::Bye(name(1, 0))),
            None
        )
    );
    assert!(rt; mail.see(&Event::Main).is_none());
    match mail.see(&Event::Link(name(2, 0))) {
        Some(Message::Link(_, next)) => assert_eq!(rt; *next, name(3, 1)),
        _ => assert!(rt; false, "no link is there"),
    }
    for e in [
        Event::Link(name(2, 0)),
        Event::Ack(name(9, 6)),
        Event::Bye(name(1, 0)),
    ] {
        match mail.take(&e) {
            Some(m) => spend(rt, m),
            None => assert!(rt; false, "no message is there"),
        }
        assert!(rt; !mail.has(&e));
    }
}

/// Lets a message go that has no token.
fn spend(rt: &impl Abort, m: Message) {
    match m {
        Message::Link(_, _) | Message::Ack(_) | Message::Bye(_, _) => {}
        _ => panic!(rt; "another message"),
    }
}

#[test]
fn names_come_out_in_the_order_of_kinds(rt: HostRuntime) -> Result<(), Fail> {
    let mut mail = Mail::open(rt.alloc(), 3)?;
    fill_and_empty(&rt, &mut mail);
    fill_and_empty(&rt, &mut mail);
    if mail.count() == 0 {
        mail.close();
    } else {
        panic!(&rt; "messages are left");
    }
    Ok(())
}
