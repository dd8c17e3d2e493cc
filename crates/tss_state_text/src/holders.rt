// The object whose value lies in a buffer, and the buffer's bytes as far as the object goes.
ghost use Rattle.std.specs.Prelude.{◌≡◌, None, Some, option_and_then, option_map};
ghost use Rattle.std.specs.FinMap.{get, keys};
ghost use Rattle.tss_events.specs.Events.{storage_name};
ghost use Rattle.tss_pipeline.specs.BankParts.{contents_under, names_at};
ghost use Rattle.tss_state_text.specs.StateText as text;

use tss_base::{Event, OpName, Range, Storage};
use tss_events::{HeldBuffer, Message};
use tss_pipeline::Pipeline;

/// An object, where its value lies in a buffer of this name.
fn object_in(n: OpName, object: Range, storage: Option<Storage>) -> Option<Range>
    ensures { result ≡ text.object_in n object (option_map storage_name storage) }
{
    match storage {
        Some(Storage::Buffer(_, name)) if name == n => Some(object),
        _ => None,
    }
}

/// The object of a version that is still to be opened, where its value lies in the buffer.
fn opening_object(p: &Pipeline, n: OpName, v: OpName) -> Option<Range>
    ensures { result ≡ option_and_then (text.opening_object n) (get p.now.state.mail.opens v) }
{
    match p.see(&Event::Open(v)) {
        Some(Message::Open(opening)) => { object_in(n, opening.operand.object, opening.storage) }
        _ => None,
    }
}

/// The object of a version of a bank, where its value lies in the buffer.
fn version_object(p: &Pipeline, bank: u32, n: OpName, v: OpName) -> Option<Range>
    ensures { result ≡ option_and_then (text.version_object n)
        (get (text.bank_versions p.now.machine.sizes bank p.now.state.versions) v) }
{
    let version = p.version(bank, v)?;
    object_in(n, version.object, version.storage)
}

/// The object of a version that is gone, where its value lies in the buffer.
fn gone_object(p: &Pipeline, n: OpName, v: OpName) -> Option<Range>
    ensures { result ≡ option_and_then (text.gone_object n) (get p.now.state.mail.gones v) }
{
    match p.see(&Event::Gone(v)) {
        Some(Message::Gone(gone)) => match &gone.buffer {
            Some(held) if held.name == n => Some(gone.object),
            _ => None,
        },
        _ => None,
    }
}

/// The object of a name that holds a place of a bank, where its value lies in the buffer.
fn object_of(p: &Pipeline, bank: u32, n: OpName, v: OpName) -> Option<Range>
    ensures { result ≡ text.object_of p.now.machine.sizes p.now.state bank n v }
{
    opening_object(p, n, v)
        .or_else(|| version_object(p, bank, n, v))
        .or_else(|| gone_object(p, n, v))
}

/// The object that a bank copies, where it copies it from the buffer.
fn copy_object(p: &Pipeline, bank: u32, n: OpName) -> Option<Range>
    ensures { result ≡ option_and_then (text.copy_object n) (get p.now.state.copies bank) }
{
    match (p.copy(bank), p.copy_buffer(bank)) {
        (Some((_, object, _)), Some(name)) if name == n => Some(object),
        _ => None,
    }
}

/// The first object that is there, of the names that hold places of a bank, in order.
fn first_object(p: &Pipeline, bank: u32, n: OpName) -> Option<Range>
    ensures { result ≡ text.first_for (text.object_of p.now.machine.sizes p.now.state bank n)
        (keys (text.bank_names bank p.now.state.places)) }
{
    for i in 0..p.place_count(bank) {
        if let Some(v) = p.place_at(bank, i) {
            let object = object_of(p, bank, n, v);
            if object.is_some() {
                return object;
            }
        }
    }
    None
}

/// The object whose value lies in a buffer of a bank.
fn buffer_object(p: &Pipeline, bank: u32, n: OpName) -> Option<Range>
    ensures { result ≡ text.buffer_object p.now.machine.sizes p.now.state bank n }
{
    match copy_object(p, bank, n) {
        Some(object) => Some(object),
        None => first_object(p, bank, n),
    }
}

/// As many bytes as the object has.
fn object_bytes(object: Option<Range>, bytes: &[u8]) -> &[u8]
    ensures { result.now ≡ text.object_bytes object bytes.now }
{
    match object {
        Some(object) => &bytes[..bytes.len().min(object.len as usize)],
        None => bytes,
    }
}

/// The bytes of a held buffer of a bank, as many as its object has, where it is set.
pub(crate) fn shown_bytes(p: &Pipeline, bank: u32, n: OpName) -> Option<&[u8]>
    ensures { option_map (λ b. b.now) result ≡ option_map
        (text.object_bytes (text.buffer_object p.now.machine.sizes p.now.state bank n))
        (contents_under (names_at bank p.now.state.buffers) p.now.state.contents n) }
{
    let bytes = p.contents(bank, n)?;
    Some(object_bytes(buffer_object(p, bank, n), bytes))
}
