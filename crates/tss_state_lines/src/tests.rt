// Lines of what the worked states don't show: links and farewells, a version over another, and what is none.
use crate::{put_operand, put_piece, put_version};
use std::alloc::Global;
use std::test::Fail;
use tss_base::{Farewell, Follow, How, LinkState, Mode, OpName, Operand, Range, Storage};
use tss_outside::{Failed, MemSink};
use tss_stations::OperandView;
use tss_text::PieceWriter;
use tss_versions::VersionView;

/// The name of an operand.
fn name(task: u32, place: u32) -> OpName {
    OpName { task, place }
}

/// Four bytes.
fn object() -> Range {
    Range {
        base: 0x2ABC0,
        len: 4,
    }
}

/// An operand that is read and written, with its link and its farewell, after a ready of a version in a buffer.
fn operand(link: LinkState, farewell: Farewell) -> OperandView {
    OperandView {
        operand: Operand {
            object: object(),
            mode: Mode::Inout,
        },
        version: Some(name(65_536, 6)),
        storage: Some(Storage::Buffer(3, name(2, 1))),
        link,
        farewell,
    }
}

/// A version over which another one waits.
fn version() -> VersionView {
    VersionView {
        name: name(3, 0),
        object: object(),
        storage: None,
        produced: false,
        registered: 12,
        released: 7,
        head: Some(name(4, 0)),
        tail: Some(name(5, 1)),
        predecessor: Some(name(2, 6)),
        successor: Some(Follow {
            version: name(9, 2),
            how: How::Over,
            last: 13,
        }),
        asked: Some(12),
        refused: Some(0),
    }
}

/// Puts the lines.
fn put(out: &mut MemSink) -> Result<(), Failed> {
    let mut to = PieceWriter::new(out);
    let held = operand(LinkState::Held(name(7, 0)), Farewell::Nothing);
    put_operand(&mut to, name(6, 0), &held)?;
    let passed = operand(LinkState::Passed, Farewell::Promised);
    put_operand(&mut to, name(6, 1), &passed)?;
    let left = operand(LinkState::Nothing, Farewell::Left);
    put_operand(&mut to, name(6, 2), &left)?;
    put_version(&mut to, &version())?;
    put_piece(&mut to, 65_536, &[0xAB; 70])?;
    to.flush()
}

/// The lines.
const LINES: &str = "operand 6.0 0002abc0 4 inout 65536.6 2.1 7.0 -\n\
     operand 6.1 0002abc0 4 inout 65536.6 2.1 passed promised\n\
     operand 6.2 0002abc0 4 inout 65536.6 2.1 - left\n\
     version 3.0 0002abc0 4 - open 12 7 4.0 5.1 2.6 9.2 over 13 12 0\n\
     piece 65536 abababababababababababababababababababababababababababababababababababababababababab\
     abababababababababababababababababababababababababababab\n";

#[test]
fn links_farewells_and_versions_are_told(rt: HostRuntime) -> Result<(), Fail> {
    let mut out = MemSink::new(rt.alloc(), 4096)?;
    assert!(rt; put(&mut out).is_ok());
    assert!(rt; out.bytes() == LINES.as_bytes());
    Ok(())
}
