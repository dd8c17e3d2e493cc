// The events of the renaming tables: decode, idle and gone.
ghost use Rattle.std.specs.Prelude.{◌≡◌, ◌<◌, ◌-◌, ◌^◌, None};
ghost use Rattle.std.specs.Option.{ForSome};
ghost use Rattle.std.specs.FinMap as map;
ghost use Rattle.tss_base.specs.declared.event.Event.TheVariants as event;
ghost use Rattle.tss_protocol.specs.UnitMachine.{is_enabled};
ghost use Rattle.tss_events.specs.Events.{messages_of};
ghost use Rattle.tss_buffers.specs.Contents.{HasBuffer};
ghost use Rattle.tss_renaming.specs.Decoding.{wait_here, IsDecoded, decoded_in};
ghost use Rattle.tss_pipeline.specs.Unsetting.{without_bytes};
ghost use Rattle.tss_pipeline.specs.Does.{Does, May};
ghost use Rattle.tss_pipeline.specs.Fit.{IsFit};
ghost use Rattle.tss_pipeline.specs.State.{state_of};

use crate::letters::{take_decode, take_gone, take_idle};
use crate::posting::post_all;
use crate::units::Units;
use tss_base::{Event, OpName, Operand, Range};
use tss_buffers::Buffers;
use tss_events::{Message, Sent};
use tss_renaming::{Decoded, Renaming};

/// Decodes an operand that waits for nothing.
fn decode_at_once(renaming: &mut Renaming, o: OpName, operand: &Operand) -> Sent
    requires may { wait_here renaming.old o operand.now ≡ None }
    requires place { map.get renaming.old.places o ≡ None }
    requires buffer { map.get renaming.old.buffers o ≡ None }
    requires uses { ForSome (map.get renaming.old.entries operand.now.object.base) (λ e. e.sent < 2 ^ 32 - 1) }
    ensures exact { IsDecoded renaming.old renaming.new o operand.now result }
    ensures sent { messages_of result ≡ (decoded_in renaming.old o operand.now).sent }
{
    match renaming.decode(o, operand) {
        Decoded::Done(sent) => sent,
        Decoded::Wait(_) => unreachable!(),
    }
}

/// Takes away the bytes of a buffer of a bank, if there is one.
fn unset_if_any(buffers: &mut Buffers, bank: u32, place: Option<u32>)
    requires { ForSome place (HasBuffer buffers.old bank) }
    ensures { buffers.new ≡ without_bytes buffers.old bank place }
{
    if let Some(place) = place {
        buffers.unset(bank, place);
    }
}

impl Units {
    /// Whether an operand may be decoded.
    pub(crate) fn can_decode(&self, o: OpName) -> bool
        requires { IsFit self.now }
        ensures { result ≡ is_enabled self.now.machine (state_of self.now) (event.Decode o) }
    {
        match self.mail.see(&Event::Decode(o)) {
            Some(Message::Decode(_, operand)) => {
                let bank = self.bank_of(&operand.object);
                self.banks[bank as usize]
                    .renaming
                    .wait_of(o, operand)
                    .is_none()
            }
            _ => false,
        }
    }

    /// An operand finds its object's entry, or makes one. A buffer that is taken for it has no contents yet.
    pub(crate) fn decode(&mut self, o: OpName)
        requires fit { IsFit self.old }
        requires may { May (event.Decode o) self.old }
        ensures { Does (event.Decode o) self.old self.new }
    {
        let operand = take_decode(&mut self.mail, o);
        let bank = self.bank_of(&operand.object);
        let renaming = &mut self.banks[bank as usize].renaming;
        let sent = decode_at_once(renaming, o, &operand);
        let buffer = renaming.buffer(o);
        unset_if_any(&mut self.buffers, bank, buffer);
        post_all(&mut self.mail, sent);
    }

    /// A version that nobody uses asks whether it may retire, and is answered.
    pub(crate) fn idle(&mut self, v: OpName)
        requires fit { IsFit self.old }
        requires may { May (event.Idle v) self.old }
        ensures { Does (event.Idle v) self.old self.new }
    {
        let (base, count) = take_idle(&mut self.mail, v);
        let bank = self.bank_of(&Range { base, len: 0 });
        let sent = self.banks[bank as usize].renaming.idle(v, base, count);
        post_all(&mut self.mail, sent);
    }

    /// A version is gone: its place is free, and its buffer where that ends with it. What the buffer has is of no
    /// meaning from then on.
    pub(crate) fn gone(&mut self, v: OpName)
        requires fit { IsFit self.old }
        requires may { May (event.Gone v) self.old }
        ensures { Does (event.Gone v) self.old self.new }
    {
        let gone = take_gone(&mut self.mail, v);
        let bank = self.bank_of(&gone.object);
        self.banks[bank as usize].renaming.gone(gone);
    }
}
