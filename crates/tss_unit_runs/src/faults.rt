// Why a run does not come to its end.
ghost use Rattle.std.specs.Prelude.{◌≡◌};
ghost use Rattle.tss_unit_runs.specs.Runs.{is_short};

/// Why the run of a given log ended before it was over, or had more lines. Lines are counted from 1, and a header is one.
#[derive(Clone, Copy, Debug, PartialEq, Eq)]
pub enum LineFault {
    /// The line is no event's text.
    BadLine(u64),
    /// Its event could not happen, in a run that wasn't over.
    NotEnabled(u64),
    /// The lines ended before this one, and the run wasn't over.
    Short(u64),
    /// The run was over before this line.
    Long(u64),
}

impl LineFault {
    /// Whether the lines just ended too early.
    pub(crate) fn is_short(&self) -> bool
        ensures { result ≡ is_short self.now }
    {
        matches!(self, LineFault::Short(_))
    }
}

/// Why there is no run of a given log.
#[derive(Clone, Copy, Debug, PartialEq, Eq)]
pub enum GivenFault {
    NoMemory,
    Line(LineFault),
}

/// Why there is no run whose log was written.
#[derive(Clone, Copy, Debug, PartialEq, Eq)]
pub enum LoggedFault {
    NoMemory,
    WriteFault,
}
