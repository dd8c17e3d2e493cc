// The message of a decode to the versioning tables, with the tokens of what it takes.
ghost use Rattle.std.specs.Prelude.{◌≡◌, ◌<◌, None, option_map, true};
ghost use Rattle.std.specs.FinMap as map;
ghost use Rattle.tss_protocol.specs.Renaming.{takes_place, takes_buffer};
ghost use Rattle.tss_renaming.specs.Entries.{entry_of};
ghost use Rattle.tss_renaming.specs.Decoding.{IsOpened};

use crate::entry_view::EntryView;
use crate::held::Held;
use tss_base::{How, Mode, OpName, Operand, Storage};
use tss_events::{Message, Opening};

/// An object's first version follows nothing and lies at home. An input uses the latest version. An inout follows over
/// it, and an output beside it, in a buffer of its own.
pub fn opened(
    places: &mut Held,
    buffers: &mut Held,
    o: OpName,
    operand: &Operand,
    entry: Option<EntryView>,
) -> Message
    requires room { takes_place (option_map entry_of entry) operand.now.mode ≡ true
        → map.len places.old.places < places.old.size }
    requires buffer_room { takes_buffer (option_map entry_of entry) operand.now.mode ≡ true
        → map.len buffers.old.places < buffers.old.size }
    requires fresh { map.get places.old.places o ≡ None }
    requires fresh_buffer { map.get buffers.old.places o ≡ None }
    ensures { IsOpened places.old places.new buffers.old buffers.new o operand.now (option_map entry_of entry) result }
{
    let Some(entry) = entry else {
        return Message::Open(Opening {
            o,
            operand: *operand,
            storage: Some(Storage::Home),
            follows: None,
            place: places.take(o),
            buffer: None,
        });
    };
    match operand.mode {
        Mode::Input => Message::Use(o, entry.latest),
        Mode::Inout => Message::Open(Opening {
            o,
            operand: *operand,
            storage: None,
            follows: Some(entry.follow(How::Over)),
            place: places.take(o),
            buffer: None,
        }),
        Mode::Output => {
            let buffer = buffers.take(o);
            Message::Open(Opening {
                o,
                operand: *operand,
                storage: Some(Storage::Buffer(buffer.place(), o)),
                follows: Some(entry.follow(How::Beside)),
                place: places.take(o),
                buffer: Some(buffer),
            })
        }
    }
}
