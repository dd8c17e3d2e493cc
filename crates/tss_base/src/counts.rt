// The counts of the unit machine.
/// How full each table of the unit machine is.
#[derive(Clone, Copy, Debug, PartialEq, Eq)]
pub struct Counts {
    pub messages: u32,
    pub slots: u32,
    pub ready: u32,
    pub workers: u32,
    pub entries: u32,
    pub versions: u32,
    pub buffers: u32,
}

/// The number of events of a run, and the greatest value of each count during it.
#[derive(Clone, Copy, Debug, PartialEq, Eq)]
pub struct Peaks {
    pub events: u64,
    pub counts: Counts,
}
