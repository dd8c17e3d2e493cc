// The engine with which a bank brings the bytes of a retired version home.
ghost use Rattle.std.specs.Prelude.{◌≡◌, ◌+◌, ◌↔◌, ◌≤◌, None, Some, IfOk, IfErr, IsErr, IsSome, IsNone, OnOk, OnErr, option_map};
ghost use Rattle.tss_tokens.specs.Pool.{TokenState};
ghost use Rattle.tss_buffers.specs.Copies.{Advances};

use std::marker::Model;
use std::mem;
use tss_base::bounds::COPY_BYTES;
use tss_base::{Blocked, Range};
use tss_tokens::Token;

/// What an engine copies: a buffer, whose place the token is, to an object, of which the first bytes have moved.
pub(crate) struct Copying {
    pub(crate) buffer: Token,
    pub(crate) object: Range,
    pub(crate) moved: u32,
}

/// A piece of a copy: the place of the buffer, where the piece begins in it and in the object, how many bytes it has,
/// and after the last piece the token of the buffer.
pub struct Moved {
    pub place: u32,
    pub at: u32,
    pub len: u32,
    pub last: Option<Token>,
}

/// The copy engine of a bank. It counts which bytes go home next, and moves none itself.
pub struct CopyEngine {
    copy: Option<Copying>,
}

impl Model for CopyEngine {
    ghost use Rattle.std.specs.Prelude.{Option, IfSome, ◌≤◌};
    ghost use Rattle.tss_buffers.specs.declared.copying.Copying.{Copying};

    ghost Value = { Option Copying };

    ghost view = { λ e. e.copy };

    ghost invariant = { λ e. IfSome e.copy (λ c. c.moved ≤ c.object.len) };
}

impl CopyEngine {
    /// An engine without a copy.
    pub fn idle() -> CopyEngine
        ensures { result ≡ None }
    {
        CopyEngine { copy: None }
    }

    /// Begins the copy of a buffer to an object. Blocked exactly where the engine is busy.
    pub fn start(&mut self, buffer: Token, object: Range) -> Result<(), (Blocked, Token)>
        ensures blocked { IsErr result ↔ IsSome self.old }
        ensures begun { OnOk result (self.new ≡ Some (record { buffer = buffer; object = object; moved = 0 })) }
        ensures handed_back { IfErr result (λ e. e.1 ≡ buffer) }
        ensures unchanged { OnErr result (self.new ≡ self.old) }
    {
        if self.copy.is_some() {
            return Err((Blocked, buffer));
        }
        let begun = Copying {
            buffer,
            object,
            moved: 0,
        };
        match mem::replace(&mut self.copy, Some(begun)) {
            None => Ok(()),
            Some(_) => unreachable!(),
        }
    }

    /// The next piece of the copy. Blocked exactly where the engine is idle.
    pub fn advance(&mut self) -> Result<Moved, Blocked>
        ensures blocked { IsErr result ↔ IsNone self.old }
        ensures exact { IfOk result (λ m. Advances self.old m self.new) }
        ensures unchanged { OnErr result (self.new ≡ self.old) }
    {
        match self.copy.take() {
            None => Err(Blocked),
            Some(copy) => {
                let Copying {
                    buffer,
                    object,
                    moved,
                } = copy;
                let place = buffer.place();
                let left = object.len - moved;
                if left <= COPY_BYTES {
                    return Ok(Moved {
                        place,
                        at: moved,
                        len: left,
                        last: Some(buffer),
                    });
                }
                let rest = Copying {
                    buffer,
                    object,
                    moved: moved + COPY_BYTES,
                };
                match mem::replace(&mut self.copy, Some(rest)) {
                    None => {}
                    Some(_) => unreachable!(),
                }
                Ok(Moved {
                    place,
                    at: moved,
                    len: COPY_BYTES,
                    last: None,
                })
            }
        }
    }

    /// How many bytes have moved. None exactly where the engine is idle.
    pub fn moved(&self) -> Option<u32>
        ensures { result ≡ option_map (λ c. c.moved) self.now }
    {
        match &self.copy {
            None => None,
            Some(copy) => Some(copy.moved),
        }
    }

    /// Ends the engine in any state, with the token of the buffer that it copies. None exactly where it is idle.
    pub fn close(self) -> Option<Token>
        ensures { result ≡ option_map (λ c. c.buffer) self }
    {
        let CopyEngine { copy } = self;
        match copy {
            None => None,
            Some(copy) => {
                let Copying {
                    buffer,
                    object: _,
                    moved: _,
                } = copy;
                Some(buffer)
            }
        }
    }
}
