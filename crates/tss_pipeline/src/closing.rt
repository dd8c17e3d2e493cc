// Ending the machine, with its pools, tokens and messages.
ghost use Rattle.std.specs.Prelude.{◌≡◌, ◌+◌, ◌*◌, ◌<◌, ◌≤◌, ℕ, Some, length, slice_get};
ghost use Rattle.tss_pipeline.specs.declared.bank.Bank.{Bank as OneBank};
ghost use Rattle.std.specs.FinMap as map;
ghost use Rattle.std.specs.Option.{ForSome};
ghost use Rattle.arrayvec.specs.ArrayVec.{array_vec_len};
ghost use Rattle.tss_base.specs.declared.bounds.TheConstants.{MAX_BANKS};
ghost use Rattle.tss_mail.specs.Letters.{mail_of};
ghost use Rattle.tss_protocol.specs.Mail.{message_count};
ghost use Rattle.tss_pipeline.specs.Fit.{HoldsOwn, IsFit, AreBanks};
ghost use Rattle.tss_pipeline.specs.Closing.{IsOpeningOf, IsGoneOf, IsOfBank, AreOfBanks, ended_bank, AreEnded};

use crate::bank::{Bank, Job};
use crate::units::{Units, bank_of};
use arrayvec::ArrayVec;
use tss_base::Sizes;
use tss_base::bounds::MAX_BANKS;
use tss_events::{Gone, HeldBuffer, Message, Opening};
use tss_mail::Mail;
use tss_tokens::{Ended, Token};

/// The pools of a bank that have ended: that of its places and that of its buffers. A bank that has not ended has none.
#[derive(Default, Drop)]
pub(crate) struct EndedBank {
    places: Option<Ended>,
    buffers: Option<Ended>,
}

/// How many banks there is room for.
const ROOM: usize = MAX_BANKS as usize;

/// The pools of all banks that have ended, the last bank first.
type EndedBanks = ArrayVec<EndedBank, ROOM>;

impl EndedBank {
    /// Spends the token of a place.
    fn end_place(&self, token: Token)
        requires { self.now.places ≡ Some token.number }
    {
        match &self.places {
            Some(ended) => token.end(ended),
            None => unreachable!(),
        }
    }

    /// Spends the token of a buffer.
    fn end_buffer(&self, token: Token)
        requires { self.now.buffers ≡ Some token.number }
    {
        match &self.buffers {
            Some(ended) => token.end(ended),
            None => unreachable!(),
        }
    }

    /// Ends an open message.
    fn end_opening(&self, opening: Opening, bank: u32)
        requires ended { self.now ≡ ended_bank bank }
        requires own { IsOpeningOf (2 * bank) (2 * bank + 1) opening }
    {
        let Opening {
            o: _,
            operand: _,
            storage: _,
            follows: _,
            place,
            buffer,
        } = opening;
        self.end_place(place);
        match buffer {
            Some(token) => self.end_buffer(token),
            None => {}
        }
    }

    /// Ends a gone message.
    fn end_gone(&self, gone: Gone, bank: u32)
        requires ended { self.now ≡ ended_bank bank }
        requires own { IsGoneOf (2 * bank) (2 * bank + 1) gone }
    {
        let Gone {
            version: _,
            object: _,
            place,
            buffer,
            retired: _,
        } = gone;
        self.end_place(place);
        match buffer {
            Some(HeldBuffer { name: _, token }) => self.end_buffer(token),
            None => {}
        }
    }
}

impl Bank {
    /// Ends the bank.
    fn close(self) -> EndedBank
        requires { HoldsOwn self }
        ensures { result ≡ ended_bank self.renaming.bank }
    {
        let Bank {
            renaming,
            versions,
            engine,
            job,
        } = self;
        let (places, buffers) = renaming.close();
        versions.close(&places, &buffers);
        match engine.close() {
            Some(token) => token.end(&buffers),
            None => {}
        }
        match job {
            Some(
                Job {
                    version: _,
                    object: _,
                    place,
                    buffer: _,
                },
            ) => place.end(&places),
            None => {}
        }
        EndedBank {
            places: Some(places),
            buffers: Some(buffers),
        }
    }
}

/// Ends all banks.
fn end_banks(banks: Vec<Bank>, count: u32) -> EndedBanks
    requires few { count ≤ MAX_BANKS }
    requires count { length banks.items ≡ count }
    requires numbers { (n : ℕ) (b : OneBank) → slice_get banks.items n ≡ Some b → b.renaming.bank ≡ n }
    requires own { (n : ℕ) (b : OneBank) → slice_get banks.items n ≡ Some b → HoldsOwn b }
    ensures { AreEnded 0 count result.items }
{
    let mut banks = banks;
    let mut ended = EndedBanks::new();
    while let Some(bank) = banks.pop() {
        ended.push(bank.close());
    }
    banks.destroy_empty();
    ended
}

/// Ends a message.
fn end_letter(message: Message, sizes: &Sizes, ended: &EndedBanks)
    requires some { 0 < sizes.now.banks }
    requires ended { AreEnded 0 sizes.now.banks ended.now.items }
    requires own { IsOfBank sizes.now message }
{
    match message {
        Message::Open(opening) => {
            let bank = bank_of(sizes, &opening.operand.object);
            ended[(sizes.banks - 1 - bank) as usize].end_opening(opening, bank);
        }
        Message::Gone(gone) => {
            let bank = bank_of(sizes, &gone.object);
            ended[(sizes.banks - 1 - bank) as usize].end_gone(gone, bank);
        }
        Message::Decode(_, _)
        | Message::Ack(_)
        | Message::Use(_, _)
        | Message::Ready(_, _, _)
        | Message::Link(_, _)
        | Message::Release(_, _, _)
        | Message::Bye(_, _)
        | Message::Idle(_, _, _)
        | Message::Nack(_)
        | Message::Retire(_) => {}
    }
}

/// Ends all messages.
fn end_letters(mail: &mut Mail, sizes: &Sizes, ended: &EndedBanks)
    requires some { 0 < sizes.now.banks }
    requires ended { AreEnded 0 sizes.now.banks ended.now.items }
    requires own { AreOfBanks sizes.now mail.old }
    ensures { message_count (mail_of mail.new) ≡ 0 }
{
    while let Some(name) = mail.at(0) {
        match mail.take(&name) {
            Some(message) => end_letter(message, sizes, ended),
            None => unreachable!(),
        }
    }
}

impl Units {
    /// Ends the machine. Banks end first, and then the messages, of which those with tokens are of a bank each.
    pub(crate) fn close(self)
        requires { IsFit self }
    {
        let Units {
            machine,
            code: _,
            space: _,
            main: _,
            gateway: _,
            stations,
            queue: _,
            workers: _,
            banks,
            buffers: _,
            mail,
            trap: _,
        } = self;
        stations.close();
        let sizes = &machine.sizes;
        let ended = end_banks(banks, sizes.banks);
        let mut mail = mail;
        end_letters(&mut mail, sizes, &ended);
        mail.close();
    }
}
