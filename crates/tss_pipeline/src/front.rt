// Main, the inbox and the gateway: main's event, take and ack.
ghost use Rattle.std.specs.Prelude.{◌≡◌, ◌+◌, ◌*◌, ◌<◌, ◌≤◌, None, length, ◌&&◌, is_none, option_map};
ghost use Rattle.std.specs.FinMap as map;
ghost use Rattle.tss_base.specs.declared.bounds.TheConstants.{MAX_OPERANDS};
ghost use Rattle.tss_model.specs.MainStep.{awaited_object, call_of};
ghost use Rattle.tss_protocol.specs.MainEvent.{is_at_home, may_await, may_call};
ghost use Rattle.tss_base.specs.declared.event.Event.TheVariants as event;
ghost use Rattle.tss_model.specs.Access.{operands_of};
ghost use Rattle.tss_protocol.specs.Gateway.{sent_by_take};
ghost use Rattle.tss_protocol.specs.Mail.{message_count, posted_all};
ghost use Rattle.tss_protocol.specs.UnitMachine.{is_enabled};
ghost use Rattle.tss_events.specs.declared.message.Message.TheVariants as message;
ghost use Rattle.tss_mail.specs.Letters.{mail_of, with_letter};
ghost use Rattle.tss_conditions.specs.Posting.{ArePostable};
ghost use Rattle.tss_pipeline.specs.Does.{Does, May};
ghost use Rattle.tss_pipeline.specs.Fit.{IsFit};
ghost use Rattle.tss_pipeline.specs.Lines.{AwaitDecodes, lined};
ghost use Rattle.tss_pipeline.specs.State.{state_of};

use crate::bank::Bank;
use crate::letters::take_ack;
use crate::station_events::queue_where;
use crate::units::{Units, bank_of};
use tss_base::calls::{AWAIT, BARRIER, SPAWN};
use tss_base::{OpName, Operand, Range, Sizes, Task};
use tss_events::Message;
use tss_mail::Mail;

/// An operand that is to be decoded comes into the line of its object's bank, and its decode is sent.
fn expect_operand(sizes: &Sizes, banks: &mut [Bank], mail: &mut Mail, o: OpName, operand: Operand)
    requires banks { AwaitDecodes sizes.now mail.old.decodes banks.old }
    requires lines { map.len mail.old.decodes < sizes.now.window * MAX_OPERANDS }
    requires fresh { map.get mail.old.decodes o ≡ None }
    requires room { message_count (mail_of mail.old) < mail.old.size }
    ensures lines { banks.new ≡ lined sizes.now mail.new.decodes 0 banks.old }
    ensures mail { mail.new ≡ with_letter mail.old (message.Decode o operand) }
{
    let bank = bank_of(sizes, &operand.object);
    banks[bank as usize].renaming.expect(o);
    mail.post(Message::Decode(o, operand));
}

/// All operands of a task are to be decoded.
fn expect_all(sizes: &Sizes, banks: &mut [Bank], mail: &mut Mail, task: &Task)
    requires banks { AwaitDecodes sizes.now mail.old.decodes banks.old }
    requires count { length (operands_of task.now) ≡ task.now.count }
    requires lines { map.len mail.old.decodes + task.now.count ≤ sizes.now.window * MAX_OPERANDS }
    requires fresh { ArePostable (mail_of mail.old) (sent_by_take task.now) }
    requires room { message_count (mail_of mail.old) + task.now.count ≤ mail.old.size }
    ensures lines { banks.new ≡ lined sizes.now mail.new.decodes 0 banks.old }
    ensures mail { mail.new ≡ record mail.old { decodes = mail.new.decodes } }
    ensures sent { mail_of mail.new ≡ posted_all (mail_of mail.old) (sent_by_take task.now) }
{
    let operands = &task.operands[..task.count as usize];
    for place in 0..operands.len() {
        let o = OpName {
            task: task.number,
            place: place as u32,
        };
        expect_operand(sizes, banks, mail, o, operands[place]);
    }
}

impl Units {
    /// Whether main's event may happen: it hasn't ended, no trap is held, and its next call, if it is one, needn't wait.
    pub(crate) fn can_main(&self) -> bool
        requires { IsFit self.now }
        ensures { result ≡ is_enabled self.now.machine (state_of self.now) event.Main }
    {
        self.goes_on() && self.may_call(self.main.next_call(&self.code))
    }

    /// Whether main hasn't ended and no trap is held.
    fn goes_on(&self) -> bool
        ensures { result ≡ (is_none (state_of self.now).main.ending && is_none (state_of self.now).trap) }
    {
        self.main.ending().is_none() && self.trap.is_none()
    }

    /// Whether a call of this number needn't wait: a spawn waits for an empty inbox, a barrier for a drained state, and an
    /// await for its object.
    fn may_call(&self, call: Option<u32>) -> bool
        requires { IsFit self.now }
        ensures { result ≡ may_call (state_of self.now) (option_map call_of call) }
    {
        match call {
            Some(SPAWN) => self.has_no_arrival(),
            Some(BARRIER) => self.is_drained(),
            Some(AWAIT) => self.may_await(),
            _ => true,
        }
    }

    /// Whether the object that main awaits is at home, or there is none.
    fn may_await(&self) -> bool
        requires { IsFit self.now }
        ensures { result ≡ may_await (state_of self.now) (awaited_object self.now.main.main) }
    {
        match self.main.awaited() {
            Some(object) => self.is_at_home(&object),
            None => true,
        }
    }

    /// Whether an object is at home: it has no entry, no operand of the inbox's task is on it, and none that is to be
    /// decoded.
    fn is_at_home(&self, object: &Range) -> bool
        requires { IsFit self.now }
        ensures { result ≡ is_at_home (state_of self.now) object.now }
    {
        !self.has_entry(object) && !self.is_arriving(object) && !self.is_decoding(object)
    }

    /// Main's event: a call alone, or a stretch of steps.
    pub(crate) fn main_event(&mut self)
        requires fit { IsFit self.old }
        requires may { May event.Main self.old }
        ensures { Does event.Main self.old self.new }
    {
        if self.main.next_call(&self.code).is_none() {
            let most = self.machine.sizes.quantum;
            self.main.stretch(&self.code, &mut self.space, most);
            return;
        }
        if let Some(task) = self.main.call(&self.space) {
            match self.gateway.accept(task) {
                Ok(()) => {}
                Err(_) => unreachable!(),
            }
        }
    }

    /// Whether the inbox's task may be taken: there is one, fewer tasks than the window are held, and its station has a
    /// free slot.
    pub(crate) fn can_take(&self) -> bool
        requires { IsFit self.now }
        ensures { result ≡ is_enabled self.now.machine (state_of self.now) event.Take }
    {
        match self.gateway.inbox() {
            Some(task) => self.gateway.has_window() && self.stations.room(task.number),
            None => false,
        }
    }

    /// The inbox's task goes into flight: its operands are to be decoded. Without operands it is queued.
    pub(crate) fn take(&mut self)
        requires fit { IsFit self.old }
        requires may { May event.Take self.old }
        ensures { Does event.Take self.old self.new }
    {
        let Ok(task) = self.gateway.take() else {
            unreachable!();
        };
        self.stations.enter(&task);
        queue_where(&mut self.queue, task.number, task.count == 0);
        expect_all(&self.machine.sizes, &mut self.banks, &mut self.mail, &task);
    }

    /// An operand is acknowledged.
    pub(crate) fn ack(&mut self, o: OpName)
        requires fit { IsFit self.old }
        requires may { May (event.Ack o) self.old }
        ensures { Does (event.Ack o) self.old self.new }
    {
        take_ack(&mut self.mail, o);
        match self.gateway.ack(o) {
            Ok(()) => {}
            Err(_) => unreachable!(),
        }
    }
}
