// A range of memory that was found.
/// Which range of memory contains a range: its place among the ranges in address order, from 0, and whether it can be
/// written. It stays good: no call changes the ranges.
#[derive(Clone, Copy, Debug, PartialEq, Eq)]
pub struct Found {
    pub index: u32,
    pub writable: bool,
}
