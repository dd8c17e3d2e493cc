// Where memory has the bytes of an access that the rule of access grants.
ghost use Rattle.std.specs.Prelude.{◌≡◌, ◌<◌, false, IfOk, IfErr, IsSome, IsTrue, Err, option_map};
ghost use Rattle.tss_base.specs.Range.{contains};
ghost use Rattle.tss_model.specs.Memory.{range_of, scratch_range};
ghost use Rattle.tss_model.specs.Access.{Granted, main_access, task_access};
ghost use Rattle.tss_memory.specs.Ranges.{AreRanges, IsFound};
ghost use Rattle.tss_core.specs.Rule.{purpose_of, allowed};
ghost use Rattle.tss_steps.specs.Placing.{are_placed, IsFoundFor};

use tss_base::{Operand, Range};
use tss_core::{Deny, Purpose, main_access, task_access};
use tss_memory::{Found, Space};
use tss_operands::Epoch;

/// For an access of main: the range of memory in which it lies, where the one at the place `near` is tried first, or
/// why it is refused.
#[inline(always)]
pub(crate) fn main_place(
    space: &Space,
    epoch: &Epoch,
    purpose: Purpose,
    r: &Range,
    near: u32,
) -> Result<Found, Deny>
    requires { 0 < r.now.len }
    ensures granted { IfOk result (λ f. main_access space.now.ranges epoch.now.objects (purpose_of purpose) r.now ≡ Granted) }
    ensures refused { IfErr result (λ d. Err d ≡ allowed (main_access space.now.ranges epoch.now.objects (purpose_of purpose) r.now)) }
    ensures found { IfOk result (λ f. IsFoundFor (purpose_of purpose) space.now.ranges f r.now) }
{
    let found = space.find(r, near);
    main_access(purpose, writable(found), epoch.touches(r))?;
    match found {
        Some(found) => Ok(found),
        None => unreachable!(),
    }
}

/// For an access of a task with these operands, outside its scratch: the range of memory in which it lies, where the one
/// at the place `near` is tried first, or why it is refused.
#[inline(always)]
pub fn task_place(
    space: &Space,
    operands: &[Operand],
    purpose: Purpose,
    r: &Range,
    near: u32,
) -> Result<Found, Deny>
    requires some { 0 < r.now.len }
    requires outside { contains scratch_range r.now ≡ false }
    requires ranges { AreRanges space.now.ranges }
    requires placed { IsTrue (are_placed space.now.ranges operands.now) }
    ensures granted { IfOk result (λ f. task_access space.now.ranges operands.now (purpose_of purpose) r.now ≡ Granted) }
    ensures refused { IfErr result (λ d. Err d ≡ allowed (task_access space.now.ranges operands.now (purpose_of purpose) r.now)) }
    ensures found { IfOk result (λ f. IsFoundFor (purpose_of purpose) space.now.ranges f r.now) }
{
    let found = space.find(r, near);
    task_access(purpose, operands, r, writable(found))?;
    match found {
        Some(found) => Ok(found),
        None => unreachable!(),
    }
}

/// Whether the range of memory that was found can be written.
#[inline(always)]
fn writable(found: Option<Found>) -> Option<bool>
    ensures { result ≡ option_map (λ f. f.writable) found }
{
    found.map(|f| f.writable)
}
