// The events of the versioning tables: open, use, release, nack and retire.
ghost use Rattle.std.specs.Prelude.{◌≡◌, ◌<◌, length, Some, IsSome};
ghost use Rattle.tss_base.specs.declared.event.Event.TheVariants as event;
ghost use Rattle.tss_protocol.specs.Names.{bank_of};
ghost use Rattle.tss_protocol.specs.Stations.{operand_at};
ghost use Rattle.tss_protocol.specs.UnitMachine.{is_enabled};
ghost use Rattle.tss_stations.specs.Views.{flight_of};
ghost use Rattle.tss_pipeline.specs.Does.{Does, May};
ghost use Rattle.tss_pipeline.specs.Fit.{AreBanks, IsFit};
ghost use Rattle.tss_pipeline.specs.Registering.{IsBankWith};
ghost use Rattle.tss_pipeline.specs.State.{state_of};

use crate::letters::{take_nack, take_open, take_release, take_retire, take_use};
use crate::posting::post_all;
use crate::units::Units;
use tss_base::{Event, OpName};
use tss_events::Message;

impl Units {
    /// Whether a version may be opened: the one that it follows is registered.
    pub(crate) fn can_open(&self, o: OpName) -> bool
        requires { IsFit self.now }
        ensures { result ≡ is_enabled self.now.machine (state_of self.now) (event.Open o) }
    {
        match self.mail.see(&Event::Open(o)) {
            Some(Message::Open(opening)) => match &opening.follows {
                Some(follow) => {
                    let bank = self.bank_of(&opening.operand.object);
                    self.banks[bank as usize].versions.has(follow.version)
                }
                None => true,
            },
            _ => false,
        }
    }

    /// A version is registered.
    pub(crate) fn open_version(&mut self, o: OpName)
        requires fit { IsFit self.old }
        requires may { May (event.Open o) self.old }
        ensures { Does (event.Open o) self.old self.new }
    {
        let opening = take_open(&mut self.mail, o);
        let bank = self.bank_of(&opening.operand.object);
        match self.banks[bank as usize].versions.open_version(opening) {
            Ok(sent) => post_all(&mut self.mail, sent),
            Err(_) => unreachable!(),
        }
    }

    /// The bank of an operand of a task in flight.
    fn bank_of_operand(&self, o: OpName) -> u32
        requires banks { AreBanks self.now.machine self.now.banks.items }
        requires some { 0 < self.now.machine.sizes.banks }
        requires flies { IsSome (operand_at (flight_of self.now.stations.slots) o) }
        ensures exact { (x : _) → operand_at (flight_of self.now.stations.slots) o ≡ Some x
            → result ≡ bank_of self.now.machine.sizes x.operand.object }
        ensures within { result < length self.now.banks.items }
    {
        match self.stations.operand(o) {
            Some(view) => self.bank_of(&view.operand.object),
            None => unreachable!(),
        }
    }

    /// Whether a reader may be enlisted: its version is registered.
    pub(crate) fn can_use(&self, o: OpName) -> bool
        requires { IsFit self.now }
        ensures { result ≡ is_enabled self.now.machine (state_of self.now) (event.Use o) }
    {
        match self.mail.see(&Event::Use(o)) {
            Some(Message::Use(_, v)) => {
                let bank = self.bank_of_operand(o);
                self.banks[bank as usize].versions.has(*v)
            }
            _ => false,
        }
    }

    /// A reader is enlisted at the end of its version's chain.
    pub(crate) fn use_version(&mut self, o: OpName)
        requires fit { IsFit self.old }
        requires may { May (event.Use o) self.old }
        ensures { Does (event.Use o) self.old self.new }
    {
        let bank = self.bank_of_operand(o);
        let v = take_use(&mut self.mail, o);
        match self.banks[bank as usize].versions.enlist(o, v) {
            Ok(sent) => post_all(&mut self.mail, sent),
            Err(_) => unreachable!(),
        }
    }

    /// A task has finished with a version.
    pub(crate) fn release(&mut self, o: OpName)
        requires fit { IsFit self.old }
        requires may { May (event.Release o) self.old }
        ensures { Does (event.Release o) self.old self.new }
    {
        let bank = self.bank_of_operand(o);
        let (v, producer) = take_release(&mut self.mail, o);
        let sent = self.banks[bank as usize].versions.release(o, v, producer);
        post_all(&mut self.mail, sent);
    }

    /// The bank in which a version is registered.
    fn bank_with(&self, v: OpName) -> Option<u32>
        requires { AreBanks self.now.machine self.now.banks.items }
        ensures { IsBankWith self.now.banks.items v result }
    {
        for bank in 0..self.machine.sizes.banks {
            if self.banks[bank as usize].versions.has(v) {
                return Some(bank);
            }
        }
        None
    }

    /// A version may not retire.
    pub(crate) fn nack(&mut self, v: OpName)
        requires fit { IsFit self.old }
        requires may { May (event.Nack v) self.old }
        ensures { Does (event.Nack v) self.old self.new }
    {
        let Some(bank) = self.bank_with(v) else {
            unreachable!();
        };
        take_nack(&mut self.mail, v);
        let sent = self.banks[bank as usize].versions.nack(v);
        post_all(&mut self.mail, sent);
    }

    /// Whether a version may be removed: it lies at home, or its bank copies nothing.
    pub(crate) fn can_retire(&self, v: OpName) -> bool
        requires { IsFit self.now }
        ensures { result ≡ is_enabled self.now.machine (state_of self.now) (event.Retire v) }
    {
        if !self.mail.has(&Event::Retire(v)) {
            return false;
        }
        let Some(bank) = self.bank_with(v) else {
            return false;
        };
        let bank = &self.banks[bank as usize];
        bank.is_home(v) || bank.job.is_none()
    }

    /// A version retires: it is removed, and is gone at once where it lies at home. Else its bank copies it home.
    pub(crate) fn retire(&mut self, v: OpName)
        requires fit { IsFit self.old }
        requires may { May (event.Retire v) self.old }
        ensures { Does (event.Retire v) self.old self.new }
    {
        let Some(bank) = self.bank_with(v) else {
            unreachable!();
        };
        take_retire(&mut self.mail, v);
        let bank = &mut self.banks[bank as usize];
        let gone = bank.versions.retire(v);
        if let Some(gone) = bank.bring_home(gone) {
            self.mail.post(Message::Gone(gone));
        }
    }
}
