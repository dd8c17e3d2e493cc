// Operands, their names, where their values lie, and tasks.
use crate::bounds::MAX_OPERANDS;
use crate::range::Range;

/// How a task uses an object: it reads it, it writes it from zeros on, or it reads and writes it.
#[derive(Clone, Copy, Debug, PartialEq, Eq)]
pub enum Mode {
    Input,
    Output,
    Inout,
}

/// An object and how a task uses it.
#[derive(Clone, Copy, Debug, PartialEq, Eq)]
pub struct Operand {
    pub object: Range,
    pub mode: Mode,
}

/// The name of an operand: its task's number, from 1, and its place among the task's merged operands, from 0.
/// A version has the name of the operand that opened it, and a buffer that of the operand for which it was taken.
#[derive(Clone, Copy, Debug, PartialEq, Eq, PartialOrd, Ord)]
pub struct OpName {
    pub task: u32,
    pub place: u32,
}

/// Where an object's value lies: at its own place in memory, or in a buffer, a place of the object's bank with the
/// name for which it was taken.
#[derive(Clone, Copy, Debug, PartialEq, Eq)]
pub enum Storage {
    Home,
    Buffer(u32, OpName),
}

/// A spawned task: its number, from 1, the address of its first instruction, its argument word, the bases of the
/// operands as listed (the first `listed` of `bases`), and the merged operands (the first `count` of `operands`).
#[derive(Clone, Copy, Debug, PartialEq, Eq)]
pub struct Task {
    pub number: u32,
    pub entry: u32,
    pub argument: u32,
    pub listed: u32,
    pub bases: [u32; MAX_OPERANDS as usize],
    pub count: u32,
    pub operands: [Operand; MAX_OPERANDS as usize],
}
