// What main has printed.
ghost use Rattle.std.specs.Prelude.{◌≡◌, ◌+◌, ◌<◌, ◌≤◌, nat_lt, [], ◌∷◌, ◌++◌, IfOk, filter, length, option_map, slice_get};
ghost use Rattle.tss_model.specs.MainStep.{output_of};
ghost use Rattle.tss_steps.specs.Printing.{Rise, end_before, part, start_at};

use std::alloc::Global;
use std::marker::Model;
use tss_base::NoMemory;

/// Where a piece ends among the bytes printed, and how many tasks had been spawned before it.
#[derive(Clone, Copy, Debug)]
pub(crate) struct Mark {
    pub(crate) before: u32,
    pub(crate) end: u32,
}

/// The pieces that main has printed, in order, with room for the bytes that it may print.
#[derive(Drop, Debug)]
pub struct Printed {
    limit: u32,
    bytes: Vec<u8>,
    marks: Vec<Mark>,
}

impl Model for Printed {
    ghost use Rattle.std.specs.Prelude.{vec_capacity};
    ghost use Rattle.tss_steps.specs.Printing.{PrintedState, IsPrinted, pieces_from};

    ghost Value = { PrintedState };

    ghost view = { λ p. record { limit = p.limit; pieces = pieces_from p.bytes.items 0 p.marks.items } };

    ghost invariant = { λ p. IsPrinted p.limit p.bytes.items p.marks.items (vec_capacity p.bytes) (vec_capacity p.marks) };
}

impl Printed {
    /// Nothing, with room for `limit` bytes, and for as many pieces. No other call takes memory.
    pub fn open(alloc: Global, limit: u32) -> Result<Printed, NoMemory>
        ensures { IfOk result (λ p. p ≡ record { limit = limit; pieces = [] }) }
    {
        Ok(Printed {
            limit,
            bytes: Vec::with_capacity(alloc, limit as usize)?,
            marks: Vec::with_capacity(alloc, limit as usize)?,
        })
    }

    /// One piece more, before which `before` tasks were spawned.
    pub fn push(&mut self, before: u32, bytes: &[u8])
        requires some { 0 < length bytes.now }
        requires room { length (output_of self.old.pieces) + length bytes.now ≤ self.old.limit }
        ensures { self.new ≡ record self.old { pieces = self.old.pieces ++ record { before = before; bytes = bytes.now } ∷ [] } }
    {
        match self.bytes.extend_from_slice(bytes) {
            Ok(()) => {}
            Err(_) => unreachable!(),
        }
        self.marks.push_reserved(Mark {
            before,
            end: self.bytes.len() as u32,
        });
    }

    /// Forgets all pieces.
    pub fn clear(&mut self)
        ensures { self.new ≡ record self.old { pieces = [] } }
    {
        self.bytes.clear();
        self.marks.clear();
    }

    /// All bytes.
    pub fn bytes(&self) -> &[u8]
        ensures bytes { result.now ≡ output_of self.now.pieces }
        ensures few { length (output_of self.now.pieces) ≤ self.now.limit }
    {
        self.bytes.as_slice()
    }

    /// How many pieces there are.
    pub fn count(&self) -> u32
        ensures { result ≡ length self.now.pieces }
    {
        self.marks.len() as u32
    }

    /// The piece at a place, from 0, with how many tasks were spawned before it.
    pub fn piece_at(&self, i: u32) -> Option<(u32, &[u8])>
        ensures { option_map (λ p. record { before = p.0; bytes = p.1.now }) result ≡ slice_get self.now.pieces i }
    {
        match self.marks.get(i as usize) {
            Some(mark) => {
                let start = start_at(&self.marks, i as usize);
                Some((mark.before, part(&self.bytes, start, mark.end)))
            }
            None => None,
        }
    }

    /// The bytes of the pieces before which fewer than `task` tasks were spawned. They stand first.
    pub fn bytes_before(&self, task: u32) -> &[u8]
        requires { Rise self.now.pieces }
        ensures { result.now ≡ output_of (filter (λ p. nat_lt p.before task) self.now.pieces) }
    {
        part(&self.bytes, 0, end_before(&self.marks, task))
    }
}

/// The bytes from one place to another.
fn part(bytes: &[u8], from: u32, until: u32) -> &[u8]
    requires from { from ≤ until }
    requires until { until ≤ length bytes.now }
    ensures { result.now ≡ part bytes.now from until }
{
    &bytes[from as usize..until as usize]
}

/// Where the piece at a place begins.
fn start_at(marks: &[Mark], i: usize) -> u32
    requires { i < length marks.now }
    ensures { result ≡ start_at i 0 marks.now }
{
    if i == 0 { 0 } else { marks[i - 1].end }
}

/// Where the first pieces end, up to one before which at least `task` tasks were spawned.
fn end_before(marks: &[Mark], task: u32) -> u32
    ensures { result ≡ end_before task 0 marks.now }
{
    let mut end = 0;
    for i in 0..marks.len() {
        if task <= marks[i].before {
            return end;
        }
        end = marks[i].end;
    }
    end
}
