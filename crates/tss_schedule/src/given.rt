// The schedule of a log that is given.
ghost use Rattle.std.specs.Prelude.{◌≡◌};
ghost use Rattle.tss_protocol.specs.Text.{lines_of};
ghost use Rattle.tss_log.specs.LogLines.{event_lines};

use crate::schedule::{Pick, Schedule};
use std::marker::Model;
use tss_events::read_event;
use tss_log::Lines;
use tss_pipeline::Pipeline;

/// Reads the lines of a log where they lie, one at each pick. A header is passed over.
#[derive(Drop)]
pub struct Given<'a> {
    lines: Lines<'a>,
}

impl<'a> Model for Given<'a> {
    ghost use Rattle.tss_log.specs.LogLines.{LinesLeft};

    ghost Value = { LinesLeft };

    ghost view = { λ s. s.lines };
}

impl<'a> Given<'a> {
    /// The schedule of a log's bytes.
    pub fn new(bytes: &'a [u8]) -> Given<'a>
        ensures { result ≡ event_lines (lines_of bytes.now) }
    {
        Given {
            lines: Lines::new(bytes),
        }
    }

    /// How many lines were passed over: 1 for a log that begins with a header, else 0. A pick, counted from 1, is the
    /// line with that number and so many more.
    pub fn offset(&self) -> u64
        ensures { result ≡ self.now.offset }
    {
        self.lines.offset()
    }
}

impl<'a> Schedule for Given<'a> {
    ghost use Rattle.tss_schedule.specs.Givens.{given_picks};

    ghost picks = { given_picks };

    fn pick(&mut self, _p: &Pipeline) -> Pick {
        match self.lines.next() {
            None => Pick::End,
            Some(line) => match read_event(line) {
                Some(e) => Pick::Do(e),
                None => Pick::Bad,
            },
        }
    }
}
