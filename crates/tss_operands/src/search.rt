// Objects in address order.
ghost use Rattle.tss_operands.specs.Placed.{ArePlaced, EndsBefore};

use tss_base::Range;

/// How many of the objects end at or before an address.
pub(crate) fn ended_by(objects: &[Range], at: u32) -> usize
    requires { ArePlaced objects.now }
    ensures { EndsBefore objects.now at result }
{
    objects.partition_point(|r| r.end() <= u64::from(at))
}
