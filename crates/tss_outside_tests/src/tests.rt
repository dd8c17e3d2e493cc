// What no clause says: that memory is found, and how the real forms reach the machine.
mod memory;
mod moving;
mod real;

use std::fmt::Debug;
use std::process::Abort;

/// Checks that two values are equal. A call has fewer steps than `assert_eq!`, so a test of many is proved sooner.
fn check_eq<T: PartialEq + Debug + Copy>(rt: &impl Abort, left: T, right: T) {
    assert_eq!(rt; left, right);
}
