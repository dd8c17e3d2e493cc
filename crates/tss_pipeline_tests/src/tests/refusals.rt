// Events that may not happen change nothing.
use super::{check_eq, event, follow, machine, opened};
use std::test::Fail;
use tss_base::{Event, Key, OpName};
use tss_pipeline::NotEnabled;
use tss_programs::{FULL_TABLES_LOG, IDLE_RACE_LOG, full_tables, idle_race};

#[test]
fn a_decode_waits_for_full_tables(rt: HostRuntime) -> Result<(), Fail> {
    let image = full_tables(rt.alloc())?;
    let machine = machine(
        rt.alloc(),
        &[
            (Key::Entries, "7"),
            (Key::Versions, "7"),
            (Key::Buffers, "7"),
        ],
    )?;
    let mut p = opened(rt.alloc(), image.as_slice(), &machine)?;
    let mut peaks = p.counts();
    check_eq(&rt, follow(&rt, &mut p, FULL_TABLES_LOG, &mut peaks), 51);
    let full = p.counts();
    check_eq(&rt, full.entries, 7);
    check_eq(&rt, full.versions, 7);
    check_eq(&rt, p.step(event(&rt, "decode 2.0")), Err(NotEnabled));
    check_eq(&rt, p.counts(), full);
    for text in ["idle 1.0", "retire 1.0", "gone 1.0", "decode 2.0"] {
        check_eq(&rt, p.step(event(&rt, text)), Ok(()));
    }
    p.close();
    Ok(())
}

#[test]
fn an_idle_races_with_a_use(rt: HostRuntime) -> Result<(), Fail> {
    let image = idle_race(rt.alloc())?;
    let machine = machine(rt.alloc(), &[])?;
    let mut p = opened(rt.alloc(), image.as_slice(), &machine)?;
    let mut left: u32 = 15;
    for line in IDLE_RACE_LOG.lines() {
        if left == 0 {
            break;
        }
        left -= 1;
        check_eq(&rt, p.step(event(&rt, line)), Ok(()));
    }
    for text in ["decode 2.0", "ack 2.0", "idle 1.0"] {
        check_eq(&rt, p.step(event(&rt, text)), Ok(()));
    }
    let first = OpName { task: 1, place: 0 };
    assert!(rt; p.see(&Event::Nack(first)).is_some());
    assert!(rt; p.see(&Event::Retire(first)).is_none());
    p.close();
    Ok(())
}

#[test]
fn no_message_no_event(rt: HostRuntime) -> Result<(), Fail> {
    let image = idle_race(rt.alloc())?;
    let machine = machine(rt.alloc(), &[])?;
    let mut p = opened(rt.alloc(), image.as_slice(), &machine)?;
    let start = p.counts();
    for text in [
        "take",
        "decode 1.0",
        "ack 1.0",
        "start 0",
        "exec 0",
        "finish 0",
        "copy 0",
        "gone 1.0",
        "exec 63",
    ] {
        check_eq(&rt, p.step(event(&rt, text)), Err(NotEnabled));
    }
    check_eq(&rt, p.counts(), start);
    check_eq(&rt, p.enabled_count(), 1);
    check_eq(&rt, p.enabled_at(0), Some(Event::Main));
    check_eq(&rt, p.enabled_at(1), None);
    assert!(rt; !p.finished());
    check_eq(&rt, p.result(), None);
    p.close();
    Ok(())
}
