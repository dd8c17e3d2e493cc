// The messages under way.
ghost use Rattle.std.specs.Prelude.{◌≡◌, slice_get};
ghost use Rattle.tss_protocol.specs.Mail.{message_at, message_names};
ghost use Rattle.tss_text.specs.Pieces.{Emits};
ghost use Rattle.tss_state_lines.specs.Lines.{message_line};
ghost use Rattle.tss_state_text.specs.StateText.{text_if};

use tss_base::Event;
use tss_outside::{Failed, Sink};
use tss_pipeline::Pipeline;
use tss_state_lines::put_message;
use tss_text::PieceWriter;

/// Puts the line of the message of a name.
fn put_message_of<K: Sink>(
    to: &mut PieceWriter<'_, K>,
    p: &Pipeline,
    name: &Event,
) -> Result<(), Failed>
    ensures { Emits K.Sink to.old to.new result (text_if message_line (message_at p.now.state.mail name.now)) }
{
    match p.see(name) {
        Some(message) => put_message(to, message),
        None => Ok(()),
    }
}

/// Puts the line of a message, by its place in the order of events.
pub(crate) fn put_message_at<K: Sink>(
    to: &mut PieceWriter<'_, K>,
    p: &Pipeline,
    i: u32,
) -> Result<(), Failed>
    ensures { Emits K.Sink to.old to.new result (text_if (λ name. text_if message_line (message_at p.now.state.mail name))
        (slice_get (message_names p.now.state.mail) i)) }
{
    match p.message_at(i) {
        Some(name) => put_message_of(to, p, &name),
        None => Ok(()),
    }
}
