// What no clause says: that an epoch of the largest size opens; and each refusal and an accepted spawn, on values from
// outside.
ghost use Rattle.std.specs.Prelude.{◌<◌};

use std::alloc::Global;
use std::fmt::Debug;
use std::process::Abort;
use std::test::Fail;
use tss_base::lists::ENTRY_BYTES;
use tss_base::{Image, Limits, Mode, Operand, Range, Segment, Task};
use tss_memory::Space;
use tss_operands::{Epoch, SpawnFault, SpawnWords, read_spawn};

/// Checks that two values are equal. A call has fewer steps than `assert_eq!`, so a test of many is proved sooner.
fn check_eq<T: PartialEq + Debug + Copy>(rt: &impl Abort, left: T, right: T) {
    assert_eq!(rt; left, right);
}

/// The base of the data, which can be written: 4,096 bytes.
const DATA: u32 = 0x20000;

/// Where the operand lists stand.
const LIST: u32 = 0x20800;

const LIMITS: Limits = Limits {
    main_budget: 1000,
    task_budget: 100,
    max_tasks: 16,
    max_operands: 7,
    object_bytes: 128,
    epoch_objects: 16,
    output_bytes: 64,
};

/// An entry of an operand list: base, length, mode.
type Entry = (u32, u32, u32);

/// 64 bytes of code and the data, all zeros.
fn space(alloc: Global) -> Result<Space, Fail> {
    let mut segments = Vec::new(alloc);
    let code = vec![in alloc; 0; 64]?;
    segments.push(Segment::new(0x10000, code, false, true))?;
    let data = vec![in alloc; 0; 4096]?;
    segments.push(Segment::new(DATA, data, true, false))?;
    let (space, _code) = Space::load(alloc, &Image::new(0x10000, segments))?;
    Ok(space)
}

/// Writes a word in the data.
fn put(rt: &impl Abort, space: &mut Space, at: u32, word: u32) {
    let r = Range { base: at, len: 4 };
    match space.find(&r, 0) {
        Some(found) => {
            assert!(rt; found.writable);
            space.set_number(found, &r, word);
        }
        None => assert!(rt; false),
    }
}

/// The task of these entries, or the first check that fails, in an epoch with the named objects.
fn spawn(
    rt: &impl Abort,
    space: &mut Space,
    epoch: &Epoch,
    limits: &Limits,
    entries: &[Entry],
) -> Result<Task, SpawnFault> {
    assert!(rt; entries.len() <= 8 && limits.max_operands <= 7);
    for (i, entry) in entries.iter().enumerate() {
        let at = LIST + ENTRY_BYTES * i as u32;
        put(rt, space, at, entry.0);
        put(rt, space, at + 4, entry.1);
        put(rt, space, at + 8, entry.2);
    }
    let words = SpawnWords {
        entry: 0x10000,
        list: LIST,
        count: entries.len() as u32,
        argument: 9,
    };
    read_spawn(&words, space, epoch, limits, 3)
}

/// Names an object.
fn name(rt: &impl Abort, epoch: &mut Epoch, object: Range) {
    assert!(rt; object.len != 0);
    assert!(rt; !epoch.overlaps(&object));
    assert!(rt; !epoch.is_full());
    epoch.name(object);
}

#[test]
fn each_refusal_of_an_entry(rt: HostRuntime) -> Result<(), Fail> {
    let mut space = space(rt.alloc())?;
    let mut epoch = Epoch::open(rt.alloc(), 16)?;
    name(
        &rt,
        &mut epoch,
        Range {
            base: 0x20100,
            len: 8,
        },
    );
    let rows: [(&[Entry], u32); 17] = [
        (&[(DATA, 4, 0)], 4),
        (&[(DATA, 4, 4)], 4),
        (&[(DATA, 0, 1)], 5),
        (&[(DATA, 129, 1)], 5),
        (&[(DATA + 2, 4, 1)], 6),
        (&[(0x20FFC, 8, 1)], 7),
        (&[(0x10000, 4, 2)], 7),
        (&[(0x10000, 4, 3)], 7),
        (&[(0xFFFFFFFC, 4, 1)], 7),
        (&[(DATA, 5, 1), (DATA + 4, 4, 1)], 8),
        (&[(DATA + 4, 4, 1), (DATA, 5, 1)], 8),
        (&[(0x20104, 4, 1)], 8),
        (&[(0x20100, 4, 1)], 8),
        (&[(0x200FC, 16, 1)], 8),
        (&[(DATA, 4, 1), (DATA + 2, 4, 9)], 4),
        (&[(DATA, 4, 1), (DATA + 2, 4, 1)], 6),
        (&[(DATA, 5, 1), (DATA + 4, 4, 1), (DATA, 4, 9)], 8),
    ];
    for (entries, number) in rows {
        let answer = spawn(&rt, &mut space, &epoch, &LIMITS, entries);
        assert_eq!(rt; answer, Err(SpawnFault(number)), "{entries:?}");
    }
    Ok(())
}

#[test]
fn each_refusal_of_a_list_and_of_a_task(rt: HostRuntime) -> Result<(), Fail> {
    let space = space(rt.alloc())?;
    let mut epoch = Epoch::open(rt.alloc(), 16)?;
    name(
        &rt,
        &mut epoch,
        Range {
            base: 0x20900,
            len: 4,
        },
    );
    for (list, count, spawned, want) in [
        (LIST, 8, 0, 1),
        (LIST + 2, 1, 0, 2),
        (0x20FF8, 1, 0, 2),
        (0xFFFFFFFC, 1, 0, 2),
        (0x208F8, 1, 0, 3),
        (0x20900, 1, 0, 3),
        (LIST, 1, 0, 4),
        (LIST, 0, 16, 10),
        (0x20902, 0, 0, 0),
    ] {
        let words = SpawnWords {
            entry: 0x10000,
            list,
            count,
            argument: 0,
        };
        let number = match read_spawn(&words, &space, &epoch, &LIMITS, spawned) {
            Ok(_) => 0,
            Err(fault) => fault.0,
        };
        assert_eq!(rt;
            number,
            want,
            "list {list:#x}, count {count}, spawned {spawned}"
        );
    }
    Ok(())
}

#[test]
fn distinct_objects_fill_an_epoch(rt: HostRuntime) -> Result<(), Fail> {
    let mut space = space(rt.alloc())?;
    let mut epoch = Epoch::open(rt.alloc(), 2)?;
    let limits = Limits {
        epoch_objects: 2,
        ..LIMITS
    };
    name(&rt, &mut epoch, Range { base: DATA, len: 4 });
    let again = [
        (DATA, 4, 1),
        (DATA + 4, 4, 1),
        (DATA + 4, 4, 2),
        (DATA, 4, 1),
    ];
    assert!(rt; spawn(&rt, &mut space, &epoch, &limits, &again).is_ok());
    let more = [(DATA, 4, 1), (DATA + 4, 4, 1), (DATA + 8, 4, 1)];
    let answer = spawn(&rt, &mut space, &epoch, &limits, &more);
    check_eq(&rt, answer, Err(SpawnFault(9)));
    epoch.clear();
    let answer = spawn(&rt, &mut space, &epoch, &limits, &more);
    check_eq(&rt, answer, Err(SpawnFault(9)));
    assert!(rt;
        spawn(
            &rt,
            &mut space,
            &epoch,
            &limits,
            &[(0x20FFC, 4, 3), (0x10000, 64, 1)]
        )
        .is_ok()
    );
    Ok(())
}

#[test]
fn equal_operands_are_merged(rt: HostRuntime) -> Result<(), Fail> {
    let mut space = space(rt.alloc())?;
    let mut epoch = Epoch::open(rt.alloc(), 16)?;
    let (x, y, z) = (DATA, DATA + 0x40, DATA + 0x80);
    let listed = [
        (x, 4, 1),
        (y, 8, 2),
        (z, 4, 1),
        (x, 4, 2),
        (y, 8, 2),
        (z, 4, 1),
        (x, 4, 1),
    ];
    let none = Operand {
        object: Range { base: 0, len: 0 },
        mode: Mode::Input,
    };
    let on = |base: u32, len: u32, mode: Mode| Operand {
        object: Range { base, len },
        mode,
    };
    let task = Task {
        number: 4,
        entry: 0x10000,
        argument: 9,
        listed: 7,
        bases: [x, y, z, x, y, z, x],
        count: 3,
        operands: [
            on(x, 4, Mode::Inout),
            on(y, 8, Mode::Output),
            on(z, 4, Mode::Input),
            none,
            none,
            none,
            none,
        ],
    };
    let answer = spawn(&rt, &mut space, &epoch, &LIMITS, &listed);
    check_eq(&rt, answer, Ok(task));
    check_eq(&rt, epoch.count(), 0);
    for base in [x, y, z] {
        let len = if base == y { 8 } else { 4 };
        name(&rt, &mut epoch, Range { base, len });
    }
    let answer = spawn(&rt, &mut space, &epoch, &LIMITS, &listed);
    check_eq(&rt, answer, Ok(task));
    Ok(())
}

#[test]
fn the_objects_of_a_task_are_named(rt: HostRuntime) -> Result<(), Fail> {
    let space = space(rt.alloc())?;
    let mut epoch = Epoch::open(rt.alloc(), 16)?;
    let words = SpawnWords {
        entry: 0x10000,
        list: 0,
        count: 0,
        argument: 0,
    };
    match read_spawn(&words, &space, &epoch, &LIMITS, 0) {
        Ok(task) => epoch.name_all(&task),
        Err(_) => assert!(rt; false),
    }
    check_eq(&rt, epoch.count(), 0);
    Ok(())
}

/// The object of the four bytes of a word, by the word's number.
fn word_object(k: u32) -> Range
    requires { k < 65536 }
{
    Range {
        base: 4 * k,
        len: 4,
    }
}

#[test]
fn the_most_objects_are_named_in_any_order(rt: HostRuntime) -> Result<(), Fail> {
    let mut epoch = Epoch::open(rt.alloc(), 65536)?;
    for k in 500..65536 {
        name(&rt, &mut epoch, word_object(k));
    }
    for k in (0..500).rev() {
        name(&rt, &mut epoch, word_object(k));
    }
    assert!(rt; epoch.is_full());
    check_eq(&rt, epoch.count(), 65536);
    check_eq(&rt, epoch.at(0), Some(Range { base: 2000, len: 4 }));
    check_eq(&rt, epoch.at(65535), Some(Range { base: 0, len: 4 }));
    check_eq(&rt, epoch.at(65536), None);
    for k in 0..65536 {
        let object = word_object(k);
        let last = Range {
            base: 4 * k + 3,
            len: 1,
        };
        assert!(rt; epoch.has(&object) && epoch.touches(&object) && !epoch.overlaps(&object));
        assert!(rt; !epoch.has(&last) && epoch.touches(&last) && epoch.overlaps(&last));
    }
    let above = Range {
        base: 0x40000,
        len: 8,
    };
    assert!(rt; !epoch.touches(&above) && !epoch.overlaps(&above));
    assert!(rt;
        epoch.touches(&Range {
            base: 0x3FFFF,
            len: 9
        })
    );
    epoch.clear();
    check_eq(&rt, epoch.count(), 0);
    assert!(rt;
        !epoch.touches(&Range {
            base: 0,
            len: 0x40000
        })
    );
    Ok(())
}

#[test]
fn the_object_with_a_base_is_found_and_unnamed(rt: HostRuntime) -> Result<(), Fail> {
    let first = Range {
        base: 0x200,
        len: 8,
    };
    let awaited = Range {
        base: 0x100,
        len: 16,
    };
    let highest = Range {
        base: 0xFFFFFFFC,
        len: 4,
    };
    let mut epoch = Epoch::open(rt.alloc(), 3)?;
    for object in [first, awaited, highest] {
        name(&rt, &mut epoch, object);
        check_eq(&rt, epoch.find(object.base), Some(object));
    }
    for base in [0, 0xFF, 0x101, 0x110, 0x1FF, 0x208, 0xFFFFFFFB, 0xFFFFFFFF] {
        assert_eq!(rt; epoch.find(base), None, "{base}");
        assert!(rt; !epoch.unname(base), "{base}");
    }
    assert!(rt; epoch.is_full());
    assert!(rt; epoch.unname(awaited.base));
    assert!(rt; !epoch.unname(awaited.base));
    check_eq(&rt, epoch.find(awaited.base), None);
    assert!(rt; !epoch.touches(&awaited));
    check_eq(&rt, epoch.at(0), Some(first));
    check_eq(&rt, epoch.at(1), Some(highest));
    check_eq(&rt, epoch.at(2), None);
    name(&rt, &mut epoch, awaited);
    check_eq(&rt, epoch.at(2), Some(awaited));
    assert!(rt; epoch.unname(highest.base) && epoch.unname(first.base));
    check_eq(&rt, epoch.at(0), Some(awaited));
    check_eq(&rt, epoch.count(), 1);
    Ok(())
}
