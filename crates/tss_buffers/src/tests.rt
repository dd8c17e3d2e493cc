// Buffers that are set, written and unset beside one another, and copies of one piece and of several.
ghost use Rattle.std.specs.Prelude.{◌≡◌, ◌+◌, ◌≤◌, IfOk, IfSome};
ghost use Rattle.tss_buffers.specs.Contents.{HasBuffer};

use crate::{Buffers, CopyEngine, Moved};
use std::alloc::Global;
use std::test::Fail;
use tss_base::{Blocked, NoMemory, Range};
use tss_tokens::{Ended, Pool, Token};

/// Puts a word in a buffer, where it is set.
fn put_word(buffers: &mut Buffers, bank: u32, place: u32, at: u32, value: u32) -> bool
    requires there { HasBuffer buffers.old bank place }
    requires within { at + 4 ≤ buffers.old.object_bytes }
    ensures banks { buffers.new.banks ≡ buffers.old.banks }
    ensures each { buffers.new.each ≡ buffers.old.each }
    ensures bytes { buffers.new.object_bytes ≡ buffers.old.object_bytes }
{
    if buffers.is_set(bank, place) {
        buffers.put(bank, place, at, 4, value);
        return true;
    }
    false
}

/// The half at a place of a buffer, where it is set.
fn half(buffers: &Buffers, bank: u32, place: u32, at: u32) -> Option<u32>
    requires there { HasBuffer buffers.now bank place }
    requires within { at + 2 ≤ buffers.now.object_bytes }
{
    if buffers.is_set(bank, place) {
        return Some(buffers.number(bank, place, at, 2));
    }
    None
}

#[test]
fn each_buffer_has_its_own_bytes(rt: HostRuntime) -> Result<(), Fail> {
    let mut buffers = Buffers::open(rt.alloc(), 2, 3, 8)?;
    buffers.zero(0, 2);
    buffers.zero(1, 0);
    buffers.zero(1, 1);
    assert!(rt; put_word(&mut buffers, 0, 2, 4, 0xFFFF_FFFF));
    assert!(rt; put_word(&mut buffers, 1, 1, 4, 0x0403_0201));
    assert!(rt; !put_word(&mut buffers, 1, 2, 4, 1));
    assert_eq!(rt; buffers.bytes(1, 1), [0, 0, 0, 0, 1, 2, 3, 4].as_slice());
    assert_eq!(rt; buffers.bytes(1, 0), [0; 8].as_slice());
    assert_eq!(rt; half(&buffers, 1, 1, 5), Some(0x0302));
    buffers.zero(0, 2);
    buffers.unset(1, 0);
    assert_eq!(rt; buffers.bytes(0, 2), [0; 8].as_slice());
    assert_eq!(rt; half(&buffers, 1, 1, 6), Some(0x0403));
    assert_eq!(rt; half(&buffers, 1, 0, 0), None);
    Ok(())
}

#[test]
fn the_greatest_buffer_is_zeroed(rt: HostRuntime) -> Result<(), Fail> {
    let mut buffers = Buffers::open(rt.alloc(), 1, 2, 65_536)?;
    buffers.zero(0, 1);
    assert!(rt; put_word(&mut buffers, 0, 1, 65_532, 0x0102_0304));
    assert_eq!(rt; half(&buffers, 0, 1, 65_534), Some(0x0102));
    assert_eq!(rt; (buffers.banks(), buffers.object_bytes()), (1, 65_536));
    Ok(())
}

/// Moves a piece, whose token ends with its pool. Where it begins, how long it is, and whether it was the last.
fn piece(engine: &mut CopyEngine, ended: &Ended) -> Option<(u32, u32, bool)>
    requires { IfSome engine.old (λ c. c.buffer.number ≡ ended.now) }
    ensures { IfSome engine.new (λ c. c.buffer.number ≡ ended.now) }
{
    match engine.advance() {
        Ok(moved) => {
            let Moved {
                place: _,
                at,
                len,
                last,
            } = moved;
            match last {
                Some(token) => {
                    token.end(ended);
                    Some((at, len, true))
                }
                None => Some((at, len, false)),
            }
        }
        Err(Blocked) => None,
    }
}

/// Two tokens of a pool that has ended.
fn tokens(alloc: Global) -> Result<(Option<Token>, Option<Token>, Ended), NoMemory>
    ensures first { IfOk result (λ p. IfSome p.0 (λ t. t.number ≡ p.2)) }
    ensures second { IfOk result (λ p. IfSome p.1 (λ t. t.number ≡ p.2)) }
{
    let mut pool = Pool::open(alloc, 1, 2)?;
    let first = pool.take();
    let second = pool.take();
    Ok((first, second, pool.end()))
}

/// Begins a copy with a token, which ends where the engine hands it back.
fn begin(engine: &mut CopyEngine, token: Option<Token>, len: u32, ended: &Ended)
    requires engine { IfSome engine.old (λ c. c.buffer.number ≡ ended.now) }
    requires token { IfSome token (λ t. t.number ≡ ended.now) }
    ensures { IfSome engine.new (λ c. c.buffer.number ≡ ended.now) }
{
    match token {
        Some(token) => match engine.start(token, Range { base: 64, len }) {
            Ok(()) => {}
            Err(back) => back.1.end(ended),
        },
        None => {}
    }
}

/// Ends an engine, and the token that it has.
fn end(engine: CopyEngine, ended: &Ended)
    requires { IfSome engine (λ c. c.buffer.number ≡ ended.now) }
{
    match engine.close() {
        Some(token) => token.end(ended),
        None => {}
    }
}

#[test]
fn a_copy_goes_home_in_pieces(rt: HostRuntime) -> Result<(), Fail> {
    let (first, second, ended) = tokens(rt.alloc())?;
    let mut engine = CopyEngine::idle();
    begin(&mut engine, first, 129, &ended);
    assert_eq!(rt; engine.moved(), Some(0));
    assert_eq!(rt; piece(&mut engine, &ended), Some((0, 64, false)));
    assert_eq!(rt; piece(&mut engine, &ended), Some((64, 64, false)));
    assert_eq!(rt; engine.moved(), Some(128));
    assert_eq!(rt; piece(&mut engine, &ended), Some((128, 1, true)));
    assert_eq!(rt; piece(&mut engine, &ended), None);
    begin(&mut engine, second, 64, &ended);
    assert_eq!(rt; piece(&mut engine, &ended), Some((0, 64, true)));
    assert_eq!(rt; engine.moved(), None);
    end(engine, &ended);
    Ok(())
}

#[test]
fn a_busy_engine_goes_on_with_its_copy(rt: HostRuntime) -> Result<(), Fail> {
    let (first, second, ended) = tokens(rt.alloc())?;
    let mut engine = CopyEngine::idle();
    begin(&mut engine, first, 70, &ended);
    assert_eq!(rt; piece(&mut engine, &ended), Some((0, 64, false)));
    begin(&mut engine, second, 20, &ended);
    assert_eq!(rt; piece(&mut engine, &ended), Some((64, 6, true)));
    end(engine, &ended);
    Ok(())
}
