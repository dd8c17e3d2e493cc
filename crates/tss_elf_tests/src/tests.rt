// What is read of images from outside, and of images that fail one check.
use std::alloc::Global;
use std::fmt::Debug;
use std::process::Abort;
use std::test::Fail;
use tss_base::Segment;
use tss_elf::{ImageFault, read_image};

/// Checks that two values are equal. A call has fewer steps than `assert_eq!`, so a test of many is proved sooner.
fn check_eq<T: PartialEq + Debug + Copy>(rt: &impl Abort, left: T, right: T) {
    assert_eq!(rt; left, right);
}

/// Two headers: three words of code that exit with 7, and a page that can be written.
const EXIT: &str =
    "7f454c460101010000000000000000000200f30001000000000001003400000000000000000000003400200002000000\
    00000000010000007400000000000100000001000c0000000c0000000500000004000000010000000000000000000200\
    0000020000000000001000000600000004000000130570009308100073000000";

/// One header, and four words of code.
const FIRST: &str =
    "7f454c460101010000000000000000000200f30001000000000001003400000000000000000000003400200001000000\
    000000000100000054000000000001000000010010000000100000000500000004000000370500001305750093081000\
    73000000";

/// The first bytes of an image as a linker gives it, with four headers; zeros follow up to `LINKER_LEN`.
const LINKER: &str =
    "7f454c460101010000000000000000000200f30001000000b40001003400000000000000000000003400200004000000\
    000000000300007000000000000000000000000000000000000000000000000001000000010000000000000000000100\
    000001000002000000020000050000000100000001000000000200000012010000120100100000003000000006000000\
    0100000051e5746400000000000000000000000000000000000000000600000001000000130570009308100073000000";

const LINKER_LEN: usize = 528;

/// The program of examples/linked.c, as GCC and its linker made it.
const LINKED: &str =
    "7f454c460101010000000000000000000200f30001000000940001003400000098010000000000003400200003002800\
    07000600030000704201000000000000000000001c000000000000000400000001000000010000000000000000000100\
    0000010010010000100100000500000000100000010000001001000010110100101101000c0000001000000006000000\
    00100000b717010003a7c7111307170023aee71003a7c7111307270023aee71003a7c7111307370023aee71003a7c711\
    1307470023aee71037170100130707110326070083a6c711b386c60023aed7108326470003a6c711b386c60023aed710\
    8326870003a7c7113307d70023aee71003a5c7119308100073000000678000000a000000140000001e0000004743433a\
    202831322e322e302d31342b646562313275312b31312b6232292031322e322e3000411b000000726973637600011100\
    0000041005727633326932703100002e7368737472746162002e74657874002e64617461002e73627373002e636f6d6d\
    656e74002e72697363762e61747472696275746573000000000000000000000000000000000000000000000000000000\
    000000000000000000000000000000000b000000010000000600000094000100940000007c0000000000000000000000\
    040000000000000011000000010000000300000010110100100100000c00000000000000000000000400000000000000\
    1700000008000000030000001c1101001c01000004000000000000000000000004000000000000001d00000001000000\
    30000000000000001c010000260000000000000000000000010000000100000026000000030000700000000000000000\
    420100001c00000000000000000000000100000000000000010000000300000000000000000000005e01000038000000\
    00000000000000000100000000000000";

/// Changes of the bytes of `LINKER`, and the number of the check that then fails: another class, a segment far beyond the
/// file, too many headers, and a segment that begins at the last byte of the one before.
const LINKER_CASES: [(&[(usize, u8)], u32); 4] = [
    (&[(4, 2)], 3),
    (
        &[
            (88, 0xFF),
            (89, 0xFF),
            (90, 0xFF),
            (91, 0xFF),
            (100, 0xFF),
            (101, 0xFF),
            (102, 0xFF),
            (103, 0xFF),
        ],
        12,
    ),
    (&[(44, 1), (45, 1)], 9),
    (&[(124, 0xFF), (125, 1), (126, 1)], 14),
];

/// Changes of the bytes of `EXIT`, and the number of the check that then fails, 0 where none does.
const CASES: [(&[(usize, u8)], u32); 40] = [
    (&[], 0),
    // The file header. Bits 0 and 3 of the flags are ignored.
    (&[(0, 0)], 2),
    (&[(3, 0x47)], 2),
    (&[(4, 2)], 3),
    (&[(5, 2)], 4),
    (&[(6, 0)], 5),
    (&[(20, 2)], 5),
    (&[(16, 3)], 6),
    (&[(18, 0xF4)], 7),
    (&[(36, 2)], 8),
    (&[(36, 4)], 8),
    (&[(36, 9)], 0),
    (&[(44, 1), (45, 1)], 9),
    (&[(42, 33)], 9),
    (&[(28, 65)], 10),
    (&[(31, 0xFF)], 10),
    // No header: neither its size nor its place is looked at, but there is no code.
    (&[(28, 0xFF), (42, 33), (44, 0)], 15),
    // The program headers.
    (&[(84, 2)], 11),
    (&[(84, 3)], 11),
    (&[(84, 4)], 0),
    (&[(88, 128)], 0),
    (&[(88, 129)], 12),
    (&[(92, 0), (93, 0xF0), (94, 0xFC), (95, 0xFF)], 0),
    (&[(92, 1), (93, 0xF0), (94, 0xFC), (95, 0xFF)], 12),
    (&[(72, 11)], 13),
    // The segments together: a shared byte, and neighbours that touch.
    (&[(92, 0x0B), (94, 1)], 14),
    (&[(92, 0x0C), (94, 1)], 0),
    (&[(93, 0xF0), (94, 0)], 0),
    (&[(92, 1), (93, 0xF0), (94, 0)], 14),
    // A segment of no bytes isn't kept, wherever it is said to be.
    (&[(94, 1), (105, 0)], 0),
    (&[(76, 4)], 15),
    (&[(68, 0), (72, 0)], 15),
    (&[(24, 2)], 16),
    (&[(24, 8)], 0),
    (&[(24, 12)], 16),
    (&[(26, 2)], 16),
    // 64 MiB together, and a byte more.
    (&[(104, 0xF4), (105, 0xFF), (106, 0xFF), (107, 3)], 0),
    (&[(104, 0xF5), (105, 0xFF), (106, 0xFF), (107, 3)], 17),
    // Two fail: the earlier check, the earlier header, and then the earlier check of one header.
    (&[(4, 2), (36, 2)], 3),
    (&[(72, 11), (84, 2)], 13),
];

/// The number of the check that the bytes fail, 0 where they are accepted, 99 where memory ran out.
fn verdict(alloc: Global, bytes: &[u8]) -> u32 {
    match read_image(alloc, bytes) {
        Ok(_) => 0,
        Err(ImageFault::Check(n)) => n,
        Err(ImageFault::NoMemory) => 99,
    }
}

/// Writes bytes into an image, each at its place.
fn patch(image: &mut [u8], changes: &[(usize, u8)]) {
    for (at, byte) in changes {
        if let Some(place) = image.get_mut(*at) {
            *place = *byte;
        }
    }
}

/// What a segment has to be: its base, how many bytes it has, from where to where its file has those before the zeros at
/// its end, and whether it can be written and executed.
#[derive(Clone, Copy)]
struct Wanted {
    base: u32,
    len: u32,
    from: usize,
    to: usize,
    writable: bool,
    code: bool,
}

fn check_segment(rt: &impl Abort, segment: &Segment, bytes: &[u8], wanted: Wanted) {
    let stored = bytes.get(wanted.from..wanted.to).unwrap_or(bytes);
    check_eq(rt, segment.base(), wanted.base);
    check_eq(rt, segment.len(), wanted.len);
    check_eq(rt, segment.writable(), wanted.writable);
    check_eq(rt, segment.code(), wanted.code);
    assert!(rt; segment.bytes().starts_with(stored), "at {:x}", wanted.base);
    let zeros = segment
        .bytes()
        .iter()
        .skip(stored.len())
        .all(|byte| *byte == 0);
    assert!(rt; zeros, "at {:x}", wanted.base);
}

fn check_image(
    rt: &impl Abort,
    alloc: Global,
    bytes: &[u8],
    entry: u32,
    wanted: [Wanted; 2],
) -> Result<(), ImageFault> {
    let image = read_image(alloc, bytes)?;
    check_eq(rt, image.entry(), entry);
    assert!(rt; image.count() == 2);
    check_segment(rt, image.segment(0), bytes, wanted[0]);
    check_segment(rt, image.segment(1), bytes, wanted[1]);
    Ok(())
}

#[test]
fn a_program_that_gcc_linked_is_read(rt: HostRuntime) -> Result<(), Fail> {
    let linked = hex::decode(rt.alloc(), LINKED)?;
    let wanted = [
        Wanted {
            base: 0x10000,
            len: 0x110,
            from: 0,
            to: 0x110,
            writable: false,
            code: true,
        },
        Wanted {
            base: 0x11110,
            len: 0x10,
            from: 0x110,
            to: 0x11C,
            writable: true,
            code: false,
        },
    ];
    check_image(&rt, rt.alloc(), &linked, 0x10094, wanted)?;
    Ok(())
}

#[test]
fn headers_of_other_types_are_passed_over(rt: HostRuntime) -> Result<(), Fail> {
    let mut linker = hex::decode(rt.alloc(), LINKER)?;
    linker.resize(LINKER_LEN, 0)?;
    let wanted = [
        Wanted {
            base: 0x10000,
            len: 0x200,
            from: 0,
            to: 0x200,
            writable: false,
            code: true,
        },
        Wanted {
            base: 0x11200,
            len: 48,
            from: 0x200,
            to: 0x210,
            writable: true,
            code: false,
        },
    ];
    check_image(&rt, rt.alloc(), &linker, 0x100B4, wanted)?;
    Ok(())
}

#[test]
fn segments_come_in_address_order(rt: HostRuntime) -> Result<(), Fail> {
    let mut bytes = hex::decode(rt.alloc(), EXIT)?;
    patch(&mut bytes, &[(93, 0x80), (94, 0)]);
    let wanted = [
        Wanted {
            base: 0x8000,
            len: 0x1000,
            from: 0,
            to: 0,
            writable: true,
            code: false,
        },
        Wanted {
            base: 0x10000,
            len: 12,
            from: 116,
            to: 128,
            writable: false,
            code: true,
        },
    ];
    check_image(&rt, rt.alloc(), &bytes, 0x10000, wanted)?;
    Ok(())
}

#[test]
fn cuts_and_changes_of_a_linked_image_are_refused(rt: HostRuntime) -> Result<(), Fail> {
    let mut image = hex::decode(rt.alloc(), LINKER)?;
    image.resize(LINKER_LEN, 0)?;
    for len in 0..=LINKER_LEN {
        let want = match len {
            0..52 => 1,
            52..180 => 10,
            180..528 => 12,
            _ => 0,
        };
        let found = image
            .get(..len)
            .map_or(99, |part| verdict(rt.alloc(), part));
        assert_eq!(rt; found, want, "cut to {len}");
    }
    for (changes, want) in &LINKER_CASES {
        let mut changed = Vec::from_slice(rt.alloc(), &image)?;
        patch(&mut changed, changes);
        check_eq(&rt, verdict(rt.alloc(), &changed), *want);
    }
    Ok(())
}

#[test]
fn each_check_refuses_what_fails_it_alone(rt: HostRuntime) -> Result<(), Fail> {
    let image = hex::decode(rt.alloc(), EXIT)?;
    for (i, (changes, want)) in CASES.iter().enumerate() {
        let mut changed = Vec::from_slice(rt.alloc(), &image)?;
        patch(&mut changed, changes);
        assert_eq!(rt; verdict(rt.alloc(), &changed), *want, "case {i}");
    }
    let first = hex::decode(rt.alloc(), FIRST)?;
    check_eq(&rt, verdict(rt.alloc(), &first), 0);
    Ok(())
}
