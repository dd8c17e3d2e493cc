// The lines of a log that is given, where they lie.
ghost use Rattle.std.specs.Prelude.{◌≡◌, ◌<◌, ◌∷◌, ◌+◌, ◌==◌, bytes_eq, drop, length, option_map, position, slice_get};
ghost use Rattle.tss_base.specs.declared.machine.Machine.{Machine};
ghost use Rattle.tss_base.specs.Image.{ImageState};
ghost use Rattle.tss_protocol.specs.State.{initial_state};
ghost use Rattle.tss_protocol.specs.Schedule.{judged, judged_from};
ghost use Rattle.tss_protocol.specs.Text.{line_feed, lines_of, log_header};
ghost use Rattle.tss_log.specs.LogLines.{event_lines};

use std::marker::Model;

/// The first line of a log of the present format, without its end.
pub const HEADER: [u8; 9] = *b"tss-log 2";

/// The lines of a log that are left, in order. A header is passed over, and counted by the offset.
#[derive(Drop)]
pub struct Lines<'a> {
    rest: &'a [u8],
    offset: u64,
}

impl<'a> Model for Lines<'a> {
    ghost use Rattle.tss_log.specs.LogLines.{LinesLeft};

    ghost Value = { LinesLeft };

    ghost use Rattle.tss_protocol.specs.Text.{lines_of};

    ghost view = { λ s. record { left = lines_of s.rest.now; offset = s.offset } };
}

/// Where the first line ends, unless it is the last and has no end.
fn line_end(bytes: &[u8]) -> Option<usize>
    ensures { result ≡ position (λ c. c == line_feed) bytes.now }
{
    bytes.iter().position(|c| *c == b'\n')
}

/// The first line, without its end, and what comes after it.
pub fn cut_line(bytes: &[u8]) -> (&[u8], &[u8])
    requires { 0 < length bytes.now }
    ensures lines { lines_of bytes.now ≡ result.0.now ∷ lines_of result.1.now }
    ensures shorter { length result.1.now < length bytes.now }
{
    match line_end(bytes) {
        Some(end) => (&bytes[..end], &bytes[end + 1..]),
        None => (bytes, &[]),
    }
}

/// Whether a line is a header.
fn is_header(line: &[u8]) -> bool
    ensures { result ≡ bytes_eq line.now log_header }
{
    line == HEADER.as_slice()
}

/// How many lines a log has, a header among them.
pub fn line_count(bytes: &[u8]) -> u64
    ensures { result ≡ length (lines_of bytes.now) }
{
    let mut rest = bytes;
    let mut count = 0;
    while !rest.is_empty() {
        let (_, after) = cut_line(rest);
        rest = after;
        count += 1;
    }
    count
}

impl<'a> Lines<'a> {
    /// The lines of a log but its header.
    pub fn new(bytes: &'a [u8]) -> Lines<'a>
        ensures exact { result ≡ event_lines (lines_of bytes.now) }

        // The judgement of the log is that of these lines, of which the first has the offset's number and one more.
        ensures judged { (m : Machine) (i : ImageState) →
            judged m i bytes.now ≡ judged_from m (initial_state i) (result.offset + 1) result.left }
    {
        if bytes.is_empty() {
            return Lines {
                rest: bytes,
                offset: 0,
            };
        }
        let (first, rest) = cut_line(bytes);
        if is_header(first) {
            Lines { rest, offset: 1 }
        } else {
            Lines {
                rest: bytes,
                offset: 0,
            }
        }
    }

    /// The next line, without its end. None where none is left.
    pub fn next(&mut self) -> Option<&'a [u8]>
        ensures line { option_map (λ l. l.now) result ≡ slice_get self.old.left 0 }
        ensures left { self.new ≡ record self.old { left = drop 1 self.old.left } }
    {
        if self.rest.is_empty() {
            return None;
        }
        let (line, rest) = cut_line(self.rest);
        self.rest = rest;
        Some(line)
    }

    /// How many lines were passed over: 1 for a log of the present format, which begins with a header, else 0.
    pub fn offset(&self) -> u64
        ensures { result ≡ self.now.offset }
    {
        self.offset
    }
}
