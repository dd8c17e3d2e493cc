// The texts of events, and their reading.
ghost use Rattle.std.specs.Prelude.{◌≡◌, ◌≤◌, ◌<◌, ◌+◌, ◌++◌, ◌∷◌, ◌==◌, Some, IfSome, IsTrue, codes, decimal, drop, length, option_map, take};
ghost use Rattle.std.specs.List.{before_first, after_first};
ghost use Rattle.tss_base.specs.Event.{fits, name_fits, worker_fits};
ghost use Rattle.tss_protocol.specs.Text as text;
ghost use Rattle.tss_events.specs.Reading.{clipped, clipped_name, clipped_event};

use itoa::Buffer;
use tss_base::{Event, OpName};

/// How many bytes hold each event's text.
const TEXT_BYTES: usize = 24;

/// Puts bytes in the place of those from a place on, and answers where they end.
fn put(into: &mut [u8; TEXT_BYTES], start: usize, bytes: &[u8]) -> usize
    requires { start + length bytes.now ≤ 24 }
    ensures end { result ≡ start + length bytes.now }
    ensures written { take result into.new ≡ take start into.old ++ bytes.now }
    ensures others { drop result into.new ≡ drop result into.old }
{
    let end = start + bytes.len();
    into[start..end].copy_from_slice(bytes);
    end
}

/// Puts a number.
fn put_number(into: &mut [u8; TEXT_BYTES], start: usize, n: u32) -> usize
    requires { start + length (decimal n) ≤ 24 }
    ensures end { result ≡ start + length (decimal n) }
    ensures written { take result into.new ≡ take start into.old ++ decimal n }
    ensures others { drop result into.new ≡ drop result into.old }
{
    let mut digits = Buffer::new();
    put(into, start, digits.format(n).as_bytes())
}

/// Puts the word of a kind, with its space, and a worker or a bank.
fn put_unit(into: &mut [u8; TEXT_BYTES], kind: &[u8], unit: u32) -> usize
    requires kind { length kind.now ≤ 8 }
    requires fits { IsTrue (worker_fits unit) }
    ensures end { result ≡ length (kind.now ++ decimal unit) }
    ensures short { result ≤ 15 }
    ensures written { take result into.new ≡ kind.now ++ decimal unit }
    ensures others { drop result into.new ≡ drop result into.old }
{
    let number = put(into, 0, kind);
    put_number(into, number, unit)
}

/// Puts the word of a kind, with its space, and a name.
fn put_named(into: &mut [u8; TEXT_BYTES], kind: &[u8], o: OpName) -> usize
    requires kind { length kind.now ≤ 8 }
    requires fits { IsTrue (name_fits o) }
    ensures end { result ≡ length (kind.now ++ text.name_text o) }
    ensures short { result ≤ 15 }
    ensures written { take result into.new ≡ kind.now ++ text.name_text o }
    ensures others { drop result into.new ≡ drop result into.old }
{
    let task = put(into, 0, kind);
    let stop = put_number(into, task, o.task);
    let place = put(into, stop, b".");
    put_number(into, place, o.place)
}

/// Puts the text of an event.
#[tactic(auto, unfolding(tss_protocol::specs::Text::event_text))]
fn put_event(e: &Event, into: &mut [u8; TEXT_BYTES]) -> usize
    requires { IsTrue (fits e.now) }
    ensures end { result ≡ length (text.event_text e.now) }
    ensures short { result ≤ 15 }
    ensures written { take result into.new ≡ text.event_text e.now }
    ensures others { drop result into.new ≡ drop result into.old }
{
    match e {
        Event::Main => put(into, 0, b"main"),
        Event::Take => put(into, 0, b"take"),
        Event::Decode(o) => put_named(into, b"decode ", *o),
        Event::Ack(o) => put_named(into, b"ack ", *o),
        Event::Open(o) => put_named(into, b"open ", *o),
        Event::Use(o) => put_named(into, b"use ", *o),
        Event::Ready(o) => put_named(into, b"ready ", *o),
        Event::Link(o) => put_named(into, b"link ", *o),
        Event::Start(w) => put_unit(into, b"start ", *w),
        Event::Exec(w) => put_unit(into, b"exec ", *w),
        Event::Finish(w) => put_unit(into, b"finish ", *w),
        Event::Release(o) => put_named(into, b"release ", *o),
        Event::Bye(o) => put_named(into, b"bye ", *o),
        Event::Idle(v) => put_named(into, b"idle ", *v),
        Event::Nack(v) => put_named(into, b"nack ", *v),
        Event::Retire(v) => put_named(into, b"retire ", *v),
        Event::Copy(b) => put_unit(into, b"copy ", *b),
        Event::Gone(v) => put_named(into, b"gone ", *v),
    }
}

/// Writes the text of an event to the front of the bytes, and answers its length, at most 15. The bytes after it stay.
pub fn event_text(e: &Event, into: &mut [u8; 24]) -> usize
    requires { IsTrue (fits e.now) }
    ensures end { result ≡ length (text.event_text e.now) }
    ensures short { result ≤ 15 }
    ensures exact { take result into.new ≡ text.event_text e.now }
    ensures others { drop result into.new ≡ drop result into.old }
    ensures inverse { text.event_of_text (text.event_text e.now) ≡ Some e.now }
{
    put_event(e, into)
}

/// What stands before the first byte that is `mark`, and what stands after it: all and nothing where there is none.
fn cut_at(line: &[u8], mark: u8) -> (&[u8], &[u8])
    ensures before { result.0.now ≡ before_first (λ c. c == mark) line.now }
    ensures after { result.1.now ≡ after_first (λ c. c == mark) line.now }
{
    for at in 0..line.len() {
        if line[at] == mark {
            return (&line[..at], &line[at + 1..]);
        }
    }
    (line, &[])
}

/// The number that digits write, or the greatest of 32 bits where it is above that. Of other bytes it is some number.
fn number_in(digits: &[u8]) -> u32
    ensures { result ≡ clipped (text.number_in digits.now) }
{
    let mut number = 0u32;
    for digit in digits {
        number = number
            .saturating_mul(10)
            .saturating_add(u32::from(digit.saturating_sub(b'0')));
    }
    number
}

/// The name that a text would be.
fn name_in(spelled: &[u8]) -> OpName
    ensures { result ≡ clipped_name (text.name_in spelled.now) }
{
    let (task, place) = cut_at(spelled, b'.');
    OpName {
        task: number_in(task),
        place: number_in(place),
    }
}

/// The event that a kind's word and what follows it would write.
fn event_in(kind: &[u8], rest: &[u8]) -> Option<Event>
    ensures { result ≡ option_map clipped_event (text.event_in kind.now rest.now) }
{
    let (o, n) = (name_in(rest), number_in(rest));
    if kind == b"main".as_slice() {
        Some(Event::Main)
    } else if kind == b"take".as_slice() {
        Some(Event::Take)
    } else if kind == b"decode".as_slice() {
        Some(Event::Decode(o))
    } else if kind == b"ack".as_slice() {
        Some(Event::Ack(o))
    } else if kind == b"open".as_slice() {
        Some(Event::Open(o))
    } else if kind == b"use".as_slice() {
        Some(Event::Use(o))
    } else if kind == b"ready".as_slice() {
        Some(Event::Ready(o))
    } else if kind == b"link".as_slice() {
        Some(Event::Link(o))
    } else if kind == b"start".as_slice() {
        Some(Event::Start(n))
    } else if kind == b"exec".as_slice() {
        Some(Event::Exec(n))
    } else if kind == b"finish".as_slice() {
        Some(Event::Finish(n))
    } else if kind == b"release".as_slice() {
        Some(Event::Release(o))
    } else if kind == b"bye".as_slice() {
        Some(Event::Bye(o))
    } else if kind == b"idle".as_slice() {
        Some(Event::Idle(o))
    } else if kind == b"nack".as_slice() {
        Some(Event::Nack(o))
    } else if kind == b"retire".as_slice() {
        Some(Event::Retire(o))
    } else if kind == b"copy".as_slice() {
        Some(Event::Copy(n))
    } else if kind == b"gone".as_slice() {
        Some(Event::Gone(o))
    } else {
        None
    }
}

/// The event whose text a line is, without its line end. None where the line is no event's one spelling.
pub fn read_event(line: &[u8]) -> Option<Event>
    ensures exact { result ≡ text.event_of_text line.now }
    ensures inverse { IfSome result (λ e. IsTrue (fits e) × (text.event_text e ≡ line.now)) }
{
    let (kind, rest) = cut_at(line, b' ');
    let e = event_in(kind, rest)?;
    if !e.fits() {
        return None;
    }
    let mut bytes = [0; TEXT_BYTES];
    let length = event_text(&e, &mut bytes);
    if &bytes[..length] == line {
        Some(e)
    } else {
        None
    }
}
