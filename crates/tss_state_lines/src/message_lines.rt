// The lines of messages.
ghost use Rattle.std.specs.Prelude.{◌≡◌, option_map};
ghost use Rattle.tss_events.specs.Events.{message_of};
ghost use Rattle.tss_text.specs.Pieces.{Emits};
ghost use Rattle.tss_protocol.specs.Text.{name_text};
ghost use Rattle.tss_state_lines.specs.Words.{optional};
ghost use Rattle.tss_state_lines.specs.Lines as lines;

use crate::line::put_line;
use crate::marks::{
    final_word, followed_word, how_word, mode_word, optional_storage, storage_word,
};
use crate::word::Word;
use tss_base::OpName;
use tss_events::{HeldBuffer, Message};
use tss_outside::{Failed, Sink};
use tss_text::PieceWriter;

/// What a release says of the operand.
fn producer_word(producer: bool) -> Word
    ensures { result ≡ lines.producer_word producer }
{
    if producer {
        Word::of(b"producer")
    } else {
        Word::of(b"reader")
    }
}

/// Whether a bye is promised.
fn promised_word(promised: bool) -> Word
    ensures { result ≡ lines.promised_word promised }
{
    if promised {
        Word::of(b"promised")
    } else {
        Word::of(b"free")
    }
}

/// Whether a version was the last of its object.
fn retired_word(retired: bool) -> Word
    ensures { result ≡ lines.retired_word retired }
{
    if retired {
        Word::of(b"retired")
    } else {
        Word::of(b"died")
    }
}

/// The buffer that ends with a version, if there is one.
fn gone_word(buffer: &Option<HeldBuffer>) -> Word
    ensures { result ≡ optional name_text (option_map (λ b. b.name) buffer.now) }
{
    match buffer {
        None => Word::of(b"-"),
        Some(held) => Word::name(held.name),
    }
}

/// Puts the line of a message: the event that takes it, and its contents.
#[tactic(auto, unfolding(tss_protocol::specs::Text::event_text))]
pub fn put_message<K: Sink>(to: &mut PieceWriter<'_, K>, message: &Message) -> Result<(), Failed>
    ensures { Emits K.Sink to.old to.new result (lines.message_line (message_of message.now)) }
{
    match message {
        Message::Decode(o, operand) => put_line(
            to,
            b"message",
            &[
                Word::named(b"decode ", *o),
                Word::hex(operand.object.base),
                Word::number(u64::from(operand.object.len)),
                mode_word(operand.mode),
            ],
        ),
        Message::Ack(o) => put_line(to, b"message", &[Word::named(b"ack ", *o)]),
        Message::Open(opening) => put_line(
            to,
            b"message",
            &[
                Word::named(b"open ", opening.o),
                Word::hex(opening.operand.object.base),
                Word::number(u64::from(opening.operand.object.len)),
                mode_word(opening.operand.mode),
                optional_storage(opening.storage),
                followed_word(opening.follows),
                how_word(opening.follows),
                final_word(opening.follows),
            ],
        ),
        Message::Use(o, v) => {
            put_line(to, b"message", &[Word::named(b"use ", *o), Word::name(*v)])
        }
        Message::Ready(o, v, storage) => put_line(
            to,
            b"message",
            &[
                Word::named(b"ready ", *o),
                Word::name(*v),
                storage_word(*storage),
            ],
        ),
        Message::Link(o, next) => put_line(
            to,
            b"message",
            &[Word::named(b"link ", *o), Word::name(*next)],
        ),
        Message::Release(o, v, producer) => put_line(
            to,
            b"message",
            &[
                Word::named(b"release ", *o),
                Word::name(*v),
                producer_word(*producer),
            ],
        ),
        Message::Bye(o, promised) => put_line(
            to,
            b"message",
            &[Word::named(b"bye ", *o), promised_word(*promised)],
        ),
        Message::Idle(v, base, count) => put_line(
            to,
            b"message",
            &[
                Word::named(b"idle ", *v),
                Word::hex(*base),
                Word::number(u64::from(*count)),
            ],
        ),
        Message::Nack(v) => put_line(to, b"message", &[Word::named(b"nack ", *v)]),
        Message::Retire(v) => put_line(to, b"message", &[Word::named(b"retire ", *v)]),
        Message::Gone(gone) => put_line(
            to,
            b"message",
            &[
                Word::named(b"gone ", gone.version),
                Word::hex(gone.object.base),
                gone_word(&gone.buffer),
                retired_word(gone.retired),
            ],
        ),
    }
}
