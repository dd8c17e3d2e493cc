// Taking the message of a kind out of the mail.
ghost use Rattle.std.specs.Prelude.{◌≡◌, IsSome, Some, None};
ghost use Rattle.std.specs.FinMap as map;
ghost use Rattle.tss_base.specs.declared.event.Event.TheVariants as event;
ghost use Rattle.tss_protocol.specs.Mail.{taken};
ghost use Rattle.tss_mail.specs.Letters.{mail_of, without_letter};

use tss_base::{Event, OpName, Operand, Storage};
use tss_events::{Gone, Message, Opening};
use tss_mail::Mail;

/// An operand that is to be decoded: the message is taken.
pub(crate) fn take_decode(mail: &mut Mail, o: OpName) -> Operand
    requires { IsSome (map.get mail.old.decodes o) }
    ensures exact { map.get mail.old.decodes o ≡ Some result }
    ensures others { mail.new ≡ without_letter mail.old (event.Decode o) }
    ensures taken { mail_of mail.new ≡ taken (mail_of mail.old) (event.Decode o) }
{
    match mail.take(&Event::Decode(o)) {
        Some(Message::Decode(_, operand)) => operand,
        _ => unreachable!(),
    }
}

/// An acknowledgement: the message is taken.
pub(crate) fn take_ack(mail: &mut Mail, o: OpName)
    requires { IsSome (map.get mail.old.acks o) }
    ensures others { mail.new ≡ without_letter mail.old (event.Ack o) }
    ensures taken { mail_of mail.new ≡ taken (mail_of mail.old) (event.Ack o) }
{
    match mail.take(&Event::Ack(o)) {
        Some(Message::Ack(_)) => {}
        _ => unreachable!(),
    }
}

/// A version that is to be opened: the message is taken.
pub(crate) fn take_open(mail: &mut Mail, o: OpName) -> Opening
    requires { IsSome (map.get mail.old.opens o) }
    ensures exact { map.get mail.old.opens o ≡ Some result }
    ensures own { result.o ≡ o }
    ensures others { mail.new ≡ without_letter mail.old (event.Open o) }
    ensures taken { mail_of mail.new ≡ taken (mail_of mail.old) (event.Open o) }
{
    match mail.take(&Event::Open(o)) {
        Some(Message::Open(opening)) => opening,
        _ => unreachable!(),
    }
}

/// The version that an operand is to use: the message is taken.
pub(crate) fn take_use(mail: &mut Mail, o: OpName) -> OpName
    requires { IsSome (map.get mail.old.uses o) }
    ensures exact { map.get mail.old.uses o ≡ Some result }
    ensures others { mail.new ≡ without_letter mail.old (event.Use o) }
    ensures taken { mail_of mail.new ≡ taken (mail_of mail.old) (event.Use o) }
{
    match mail.take(&Event::Use(o)) {
        Some(Message::Use(_, v)) => v,
        _ => unreachable!(),
    }
}

/// The version and the storage that an operand is told: the message is taken.
pub(crate) fn take_ready(mail: &mut Mail, o: OpName) -> (OpName, Storage)
    requires { IsSome (map.get mail.old.readies o) }
    ensures exact { map.get mail.old.readies o ≡ Some result }
    ensures others { mail.new ≡ without_letter mail.old (event.Ready o) }
    ensures taken { mail_of mail.new ≡ taken (mail_of mail.old) (event.Ready o) }
{
    match mail.take(&Event::Ready(o)) {
        Some(Message::Ready(_, version, storage)) => (version, storage),
        _ => unreachable!(),
    }
}

/// The operand that comes next: the message is taken.
pub(crate) fn take_link(mail: &mut Mail, o: OpName) -> OpName
    requires { IsSome (map.get mail.old.links o) }
    ensures exact { map.get mail.old.links o ≡ Some result }
    ensures others { mail.new ≡ without_letter mail.old (event.Link o) }
    ensures taken { mail_of mail.new ≡ taken (mail_of mail.old) (event.Link o) }
{
    match mail.take(&Event::Link(o)) {
        Some(Message::Link(_, next)) => next,
        _ => unreachable!(),
    }
}

/// The version that an operand releases, and whether it produced it: the message is taken.
pub(crate) fn take_release(mail: &mut Mail, o: OpName) -> (OpName, bool)
    requires { IsSome (map.get mail.old.releases o) }
    ensures exact { map.get mail.old.releases o ≡ Some result }
    ensures others { mail.new ≡ without_letter mail.old (event.Release o) }
    ensures taken { mail_of mail.new ≡ taken (mail_of mail.old) (event.Release o) }
{
    match mail.take(&Event::Release(o)) {
        Some(Message::Release(_, version, producer)) => (version, producer),
        _ => unreachable!(),
    }
}

/// Whether a link is promised to an operand that leaves: the message is taken.
pub(crate) fn take_bye(mail: &mut Mail, o: OpName) -> bool
    requires { IsSome (map.get mail.old.byes o) }
    ensures exact { map.get mail.old.byes o ≡ Some result }
    ensures others { mail.new ≡ without_letter mail.old (event.Bye o) }
    ensures taken { mail_of mail.new ≡ taken (mail_of mail.old) (event.Bye o) }
{
    match mail.take(&Event::Bye(o)) {
        Some(Message::Bye(_, promised)) => promised,
        _ => unreachable!(),
    }
}

/// The base of the object of a version that asks, and how many readers it counted: the message is taken.
pub(crate) fn take_idle(mail: &mut Mail, v: OpName) -> (u32, u32)
    requires { IsSome (map.get mail.old.idles v) }
    ensures exact { map.get mail.old.idles v ≡ Some result }
    ensures others { mail.new ≡ without_letter mail.old (event.Idle v) }
    ensures taken { mail_of mail.new ≡ taken (mail_of mail.old) (event.Idle v) }
{
    match mail.take(&Event::Idle(v)) {
        Some(Message::Idle(_, base, count)) => (base, count),
        _ => unreachable!(),
    }
}

/// That a version may not retire: the message is taken.
pub(crate) fn take_nack(mail: &mut Mail, v: OpName)
    requires { IsSome (map.get mail.old.nacks v) }
    ensures others { mail.new ≡ without_letter mail.old (event.Nack v) }
    ensures taken { mail_of mail.new ≡ taken (mail_of mail.old) (event.Nack v) }
{
    match mail.take(&Event::Nack(v)) {
        Some(Message::Nack(_)) => {}
        _ => unreachable!(),
    }
}

/// That a version may retire: the message is taken.
pub(crate) fn take_retire(mail: &mut Mail, v: OpName)
    requires { IsSome (map.get mail.old.retires v) }
    ensures others { mail.new ≡ without_letter mail.old (event.Retire v) }
    ensures taken { mail_of mail.new ≡ taken (mail_of mail.old) (event.Retire v) }
{
    match mail.take(&Event::Retire(v)) {
        Some(Message::Retire(_)) => {}
        _ => unreachable!(),
    }
}

/// A version that is gone: the message is taken.
pub(crate) fn take_gone(mail: &mut Mail, v: OpName) -> Gone
    requires { IsSome (map.get mail.old.gones v) }
    ensures exact { map.get mail.old.gones v ≡ Some result }
    ensures named { result.version ≡ v }
    ensures others { mail.new ≡ without_letter mail.old (event.Gone v) }
    ensures taken { mail_of mail.new ≡ taken (mail_of mail.old) (event.Gone v) }
{
    match mail.take(&Event::Gone(v)) {
        Some(Message::Gone(gone)) => gone,
        _ => unreachable!(),
    }
}
