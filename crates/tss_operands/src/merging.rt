// Merging: the listed operands of an object become one.
ghost use Rattle.tss_base.specs.declared.bounds.TheConstants.{MAX_OPERANDS};
ghost use Rattle.std.specs.Prelude.{◌≡◌, ◌≤◌, filter, length};
ghost use Rattle.tss_model.specs.Spawn.{merged_on, merged_operands, same_range};
ghost use Rattle.std.specs.List.{list_all, list_any};
ghost use Rattle.tss_operands.specs.Listing.{is_mode};
ghost use Rattle.tss_operands.specs.Naming.{count_with};

use crate::epoch::Epoch;
use crate::listing::Listing;
use tss_base::{Mode, Operand, Range};

/// One operand for each object that is listed, in order of first appearance.
pub(crate) fn merged(listed: &[Operand]) -> Listing
    requires { length listed.now ≤ MAX_OPERANDS }
    ensures { result ≡ merged_operands listed.now }
{
    let mut merged = Listing::new();
    for operand in listed {
        if !is_listed(merged.as_slice(), &operand.object) {
            merged.push(merged_on(listed, operand.object));
        }
    }
    merged
}

/// Whether one of the operands has the object.
fn is_listed(operands: &[Operand], object: &Range) -> bool
    ensures { result ≡ list_any (λ o. same_range object.now o.object) operands.now }
{
    operands.iter().any(|o| *object == o.object)
}

/// The listed operands of an object as one.
fn merged_on(listed: &[Operand], object: Range) -> Operand
    ensures { result ≡ merged_on listed.now object }
{
    let mode = if all_on(listed, &object, Mode::Input) {
        Mode::Input
    } else if all_on(listed, &object, Mode::Output) {
        Mode::Output
    } else {
        Mode::Inout
    };
    Operand { object, mode }
}

/// Whether all operands of an object have this mode.
fn all_on(listed: &[Operand], object: &Range, mode: Mode) -> bool
    ensures { result ≡ list_all (λ o. is_mode mode o.mode) (filter (λ o. same_range o.object object.now) listed.now) }
{
    listed
        .iter()
        .filter(|o| o.object == *object)
        .all(|o| o.mode == mode)
}

/// How many objects are named with those of the merged operands.
pub(crate) fn named_with(epoch: &Epoch, merged: &Listing) -> u64
    ensures { result ≡ count_with epoch.now.objects merged.now }
{
    let fresh = merged
        .as_slice()
        .iter()
        .filter(|o| !epoch.has(&o.object))
        .count();
    u64::from(epoch.count()) + fresh as u64
}
