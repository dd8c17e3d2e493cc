// The rule of access.
ghost use Rattle.std.specs.Prelude.{◌≡◌, ◌&&◌, IsTrue, OnOk, IsOk};
ghost use Rattle.std.specs.List.{list_any};
ghost use Rattle.tss_base.specs.Range.{contains};
ghost use Rattle.tss_model.specs.Access.{writes, main_may, main_answer, task_may_within, task_answer};
ghost use Rattle.tss_core.specs.Rule.{purpose_of, allowed, is_owned, is_fixed_for};

use tss_base::addresses::SCRATCH;
use tss_base::{Mode, Operand, Range};

/// What an access does.
#[derive(Clone, Copy, Debug, PartialEq, Eq)]
pub enum Purpose {
    Loads,
    Stores,
}

/// Why an access is refused: the actor may not make it, or it meets an object that main has named.
#[derive(Clone, Copy, Debug, PartialEq, Eq)]
pub enum Deny {
    Denied,
    Touch,
}

/// The rule of access for main. `within` is whether the range of memory in which the access lies wholly can be
/// written, and none where it lies in no single range; `touched` is whether it meets an object that main has named and
/// hasn't taken back. Main loads in every range and stores in one that can be written, and touches what it has named.
#[inline(always)]
pub fn main_access(purpose: Purpose, within: Option<bool>, touched: bool) -> Result<(), Deny>
    ensures exact { result ≡ allowed (main_answer (purpose_of purpose) within touched) }
    ensures placed { OnOk result (IsTrue (main_may (purpose_of purpose) within)) }
{
    let may = match (purpose, within) {
        (_, None) => false,
        (Purpose::Loads, Some(_)) => true,
        (Purpose::Stores, Some(writable)) => writable,
    };
    if !may {
        Err(Deny::Denied)
    } else if touched {
        Err(Deny::Touch)
    } else {
        Ok(())
    }
}

/// The rule of access for a task with these operands. `within` is whether the range of memory in which the access lies
/// wholly can be written, and none where it lies in no single range; it is not looked at where the task owns the
/// access. A task loads and stores in its scratch, loads in each of its operands and in memory that can't be written,
/// and stores in its operands that are output or inout.
#[inline(always)]
pub fn task_access(
    purpose: Purpose,
    operands: &[Operand],
    r: &Range,
    within: Option<bool>,
) -> Result<(), Deny>
    ensures exact { result ≡ allowed (task_answer (purpose_of purpose) operands.now r.now within) }
    ensures owned { IsTrue (is_owned purpose operands.now r.now) → IsOk result }
    ensures placed { OnOk result (IsTrue (task_may_within (purpose_of purpose) operands.now r.now within)) }
{
    if owns(purpose, operands, r) || is_fixed(purpose, within) {
        Ok(())
    } else {
        Err(Deny::Denied)
    }
}

/// Whether the access lies wholly inside the task's scratch or one of its operands, for a store one that is output or
/// inout.
#[inline(always)]
pub fn owns(purpose: Purpose, operands: &[Operand], r: &Range) -> bool
    ensures { result ≡ is_owned purpose operands.now r.now }
{
    match purpose {
        Purpose::Loads => SCRATCH.contains(r) || lies_in_operand(operands, r),
        Purpose::Stores => SCRATCH.contains(r) || lies_in_written(operands, r),
    }
}

/// Whether the access lies wholly inside one of the operands.
#[inline(always)]
fn lies_in_operand(operands: &[Operand], r: &Range) -> bool
    ensures { result ≡ list_any (λ o. contains o.object r.now) operands.now }
{
    operands.iter().any(|o| o.object.contains(r))
}

/// Whether it lies wholly inside one that is output or inout.
#[inline(always)]
fn lies_in_written(operands: &[Operand], r: &Range) -> bool
    ensures { result ≡ list_any (λ o. writes o.mode && contains o.object r.now) operands.now }
{
    operands
        .iter()
        .any(|o| writes(o.mode) && o.object.contains(r))
}

/// Whether a task loads in memory that can't be written.
#[inline(always)]
fn is_fixed(purpose: Purpose, within: Option<bool>) -> bool
    ensures { result ≡ is_fixed_for purpose within }
{
    match (purpose, within) {
        (Purpose::Loads, Some(writable)) => !writable,
        _ => false,
    }
}

/// Whether a task writes an operand of this mode.
#[inline(always)]
pub fn writes(mode: Mode) -> bool
    ensures { result ≡ writes mode }
{
    match mode {
        Mode::Input => false,
        Mode::Output | Mode::Inout => true,
    }
}
