// The bytes of one memory in another with the same ranges.
ghost use Rattle.std.specs.Prelude.{◌≡◌};
ghost use Rattle.tss_inorder.specs.Restarts.{with_bytes_of};

use tss_memory::Space;

/// Copies the bytes of the ranges that can be written.
pub(crate) fn copy_writable(space: &mut Space, from: &Space)
    requires { from.now.ranges ≡ space.old.ranges }
    ensures copied { space.new ≡ with_bytes_of from.now space.old }
    ensures ranges { space.new.ranges ≡ space.old.ranges }
{
    let mut i = 0;
    loop {
        let Some((range, writable)) = from.range_at(i) else {
            return;
        };
        if writable {
            space.copy_in(range.base, from.bytes(&range));
        }
        i += 1;
    }
}
