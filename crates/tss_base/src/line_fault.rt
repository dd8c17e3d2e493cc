// Why a line fails.
/// Why a line of a log, or a pick of a schedule, is not the next event of a run. Lines and picks are counted from 1,
/// and a log's header is a line.
#[derive(Clone, Copy, Debug, PartialEq, Eq)]
pub enum LineFault {
    /// It is no event.
    BadLine(u64),
    /// Its event could not happen, in a run that wasn't over.
    NotEnabled(u64),
    /// The lines ended before this one, and the run wasn't over.
    Short(u64),
    /// The run was over before this line.
    Long(u64),
}
