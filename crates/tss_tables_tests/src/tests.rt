// Each kind of table opened with ample memory, filled, emptied and filled anew.
use std::fmt::Debug;
use std::process::Abort;
use std::test::Fail;
use tss_base::OpName;
use tss_tables::{NameTable, Seats, Table};

/// Checks that two values are equal. A call has fewer steps than `assert_eq!`, so a test of many is proved sooner.
fn check_eq<T: PartialEq + Debug + Copy>(rt: &impl Abort, left: T, right: T) {
    assert_eq!(rt; left, right);
}

/// Fills a table of three with the first three keys in an order that isn't theirs, and empties it.
fn fill_and_empty(rt: &impl Abort, table: &mut Table<u32>, value: u32) {
    for key in [40, 7, 0xffff_ffff, 9] {
        if table.room() && !table.has(key) {
            table.add(key, value);
        }
    }
    check_eq(rt, (table.len(), table.room()), (3, false));
    check_eq(
        rt,
        (table.get(9).copied(), table.get(40).copied()),
        (None, Some(value)),
    );
    check_eq(
        rt,
        (table.first(), table.key_at(1), table.key_at(3)),
        (Some(7), Some(40), None),
    );
    check_eq(
        rt,
        (table.next_after(8), table.next_after(40)),
        (Some(40), Some(0xffff_ffff)),
    );
    if let Some(value) = table.get_mut(7) {
        *value = 70;
    }
    check_eq(
        rt,
        (table.remove(7), table.remove(40), table.remove(40)),
        (Some(70), Some(value), None),
    );
    check_eq(rt, table.remove(0xffff_ffff), Some(value));
}

#[test]
fn numbers_come_back_in_order(rt: HostRuntime) -> Result<(), Fail> {
    let mut table = Table::open(rt.alloc(), 3)?;
    fill_and_empty(&rt, &mut table, 5);
    fill_and_empty(&rt, &mut table, 6);
    assert!(rt; table.is_empty());
    table.close();
    Ok(())
}

#[test]
fn names_come_back_in_order(rt: HostRuntime) -> Result<(), Fail> {
    let mut table = NameTable::open(rt.alloc(), 2)?;
    let first = OpName { task: 1, place: 6 };
    let second = OpName { task: 2, place: 0 };
    for name in [second, first] {
        if table.room() && !table.has(name) {
            table.add(name, name.task);
        }
    }
    check_eq(
        &rt,
        (table.first(), table.next_after(first)),
        (Some(first), Some(second)),
    );
    check_eq(
        &rt,
        (table.remove(first), table.remove(second)),
        (Some(1), Some(2)),
    );
    assert!(rt; table.is_empty());
    table.close();
    Ok(())
}

/// A value that can't be let go.
struct Held(u32);

#[test]
fn places_hold_what_must_be_taken_out(rt: HostRuntime) -> Result<(), Fail> {
    let mut seats = Seats::open(rt.alloc(), 2)?;
    for value in 0..2 {
        if 1 < seats.size() && !seats.has(1) {
            seats.add(1, Held(value));
            check_eq(&rt, (seats.has(0), seats.len()), (false, 1));
            match seats.remove(1) {
                Some(Held(held)) => check_eq(&rt, held, value),
                None => assert!(rt; false, "nothing was held"),
            }
        }
    }
    assert!(rt; seats.len() == 0);
    seats.close();
    Ok(())
}

/// The most names of one table of the unit machine: the messages, of which a window of 8 tasks, 1,024 slots and 16,384
/// places have so many.
const MOST: u32 = 30_776;

/// The name with a number, of seven a task.
fn name(number: u32) -> OpName {
    OpName {
        task: number / 7,
        place: number % 7,
    }
}

#[test]
fn a_table_of_the_greatest_size_is_filled_and_emptied(rt: HostRuntime) -> Result<(), Fail> {
    let mut table = NameTable::open(rt.alloc(), MOST)?;
    for number in 0..MOST {
        let key = name(number);
        if table.room() && !table.has(key) {
            table.add(key, number);
        }
    }
    check_eq(&rt, (table.len(), table.room()), (MOST, false));
    check_eq(
        &rt,
        (table.key_at(MOST.saturating_sub(1)), table.key_at(MOST)),
        (Some(name(MOST.saturating_sub(1))), None),
    );
    for number in 0..MOST {
        let last = MOST.saturating_sub(1).saturating_sub(number);
        check_eq(&rt, table.remove(name(last)), Some(last));
    }
    assert!(rt; table.is_empty());
    table.close();
    Ok(())
}
