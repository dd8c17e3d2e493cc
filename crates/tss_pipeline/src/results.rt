// How far a run is, and what it comes to.
ghost use Rattle.std.specs.Prelude.{◌≡◌, ◌==◌, ◌||◌, is_none, is_some, length, not, option_map};
ghost use Rattle.std.specs.List.{list_all, list_any};
ghost use Rattle.std.specs.FinMap.{get, len};
ghost use Rattle.tss_model.specs.Access.{operands_of};
ghost use Rattle.tss_protocol.specs.MainEvent.{has_no_decode, has_no_object, has_no_task, is_arriving, is_drained, is_entry_of, is_operand_on};
ghost use Rattle.tss_protocol.specs.Counts.{counts_of, greatest};
ghost use Rattle.tss_protocol.specs.Result.{is_finished, printed_of, result_of, tasks_of};
ghost use Rattle.tss_pipeline.specs.Emptiness.{decode_at, fill_at, is_empty};
ghost use Rattle.tss_pipeline.specs.Fit.{IsFit};
ghost use Rattle.tss_pipeline.specs.State.{state_of};

use crate::bank::Bank;
use crate::units::Units;
use tss_base::{Counts, Ending, Operand, Range, Task};
use tss_events::Message;
use tss_mail::{Kind, Mail};

/// Whether nothing is in any of the banks.
fn are_empty(banks: &[Bank]) -> bool
    ensures { result ≡ list_all is_empty banks.now }
{
    banks.iter().all(|bank| bank.is_empty())
}

/// The operands of a task.
fn operands_of(task: &Task) -> &[Operand]
    ensures { result.now ≡ operands_of task.now }
{
    let operands: &[Operand] = &task.operands;
    &operands[..(task.count as usize).min(operands.len())]
}

/// Whether one of the operands is on an object.
fn some_on(operands: &[Operand], object: &Range) -> bool
    ensures { result ≡ list_any (is_operand_on object.now) operands.now }
{
    operands.iter().any(|operand| operand.object == *object)
}

/// The operand that is to be decoded at a place, from 0, by name.
fn decode_at(mail: &Mail, i: u32) -> Option<Operand>
    ensures { result ≡ decode_at mail.now.decodes i }
{
    let name = mail.at_kind(Kind::Decode, i)?;
    match mail.see(&name) {
        Some(Message::Decode(_, operand)) => Some(*operand),
        _ => None,
    }
}

/// Whether an operand on an object is to be decoded.
fn is_decoding(mail: &Mail, object: &Range) -> bool
    ensures { result ≡ not (has_no_decode object.now mail.now.decodes) }
{
    for i in 0..mail.count_of(Kind::Decode) {
        if let Some(operand) = decode_at(mail, i) {
            if operand.object == *object {
                return true;
            }
        }
    }
    false
}

impl Units {
    /// Whether the inbox is empty.
    pub(crate) fn has_no_arrival(&self) -> bool
        ensures { result ≡ is_none (state_of self.now).inbox }
    {
        self.gateway.inbox().is_none()
    }

    /// Whether no worker is busy.
    fn is_at_rest(&self) -> bool
        ensures { result ≡ (len (state_of self.now).workers == 0) }
    {
        self.workers.busy() == 0
    }

    /// Whether no task is anywhere in the machine.
    fn has_no_task(&self) -> bool
        ensures { result ≡ has_no_task (state_of self.now) }
    {
        self.has_no_arrival()
            && self.gateway.is_idle()
            && self.stations.count() == 0
            && self.queue.len() == 0
            && self.is_at_rest()
    }

    /// Whether nothing is in the tables, and nothing is copied.
    fn has_no_object(&self) -> bool
        requires { IsFit self.now }
        ensures { result ≡ has_no_object (state_of self.now) }
    {
        are_empty(&self.banks)
    }

    /// Whether nothing is left to do but for main.
    pub(crate) fn is_drained(&self) -> bool
        requires { IsFit self.now }
        ensures { result ≡ is_drained (state_of self.now) }
    {
        self.mail.count() == 0 && self.has_no_task() && self.has_no_object()
    }

    /// Whether an object has an entry.
    pub(crate) fn has_entry(&self, object: &Range) -> bool
        requires { IsFit self.now }
        ensures { result ≡ is_entry_of object.now (get (state_of self.now).entries object.now.base) }
    {
        let bank = self.bank_of(object);
        match self.banks[bank as usize].renaming.entry(object.base) {
            Some(entry) => entry.object == *object,
            None => false,
        }
    }

    /// Whether an operand of the inbox's task is on an object.
    pub(crate) fn is_arriving(&self, object: &Range) -> bool
        ensures { result ≡ is_arriving object.now (state_of self.now).inbox }
    {
        match self.gateway.inbox() {
            Some(task) => some_on(operands_of(task), object),
            None => false,
        }
    }

    /// Whether an operand on an object is to be decoded.
    pub(crate) fn is_decoding(&self, object: &Range) -> bool
        ensures { result ≡ not (has_no_decode object.now (state_of self.now).mail.decodes) }
    {
        is_decoding(&self.mail, object)
    }

    /// Whether main has ended or a trap is held.
    fn has_ending(&self) -> bool
        ensures { result ≡ (is_some (state_of self.now).main.ending || is_some (state_of self.now).trap) }
    {
        self.main.ending().is_some() || self.trap.is_some()
    }

    /// Whether the run is over: nothing is left to do, and main has ended or a trap is held.
    pub(crate) fn finished(&self) -> bool
        requires { IsFit self.now }
        ensures { result ≡ is_finished (state_of self.now) }
    {
        self.has_ending() && self.is_drained()
    }

    /// The ending of a run that is over.
    pub(crate) fn result(&self) -> Option<Ending>
        requires { IsFit self.now }
        ensures { result ≡ option_map (λ r. r.ending) (result_of (state_of self.now)) }
    {
        if !self.finished() {
            return None;
        }
        match self.trap {
            Some(held) => Some(Ending::TaskTrap(held.task, held.trap)),
            None => self.main.ending(),
        }
    }

    /// How many tasks count: all that main has spawned, or those up to the one whose trap is held.
    pub(crate) fn tasks(&self) -> u32
        ensures { result ≡ tasks_of (state_of self.now) }
    {
        match self.trap {
            Some(held) => held.task,
            None => self.main.spawned(),
        }
    }

    /// What counts of what main has printed: all, or what it printed before it had spawned the task whose trap is held.
    pub(crate) fn output(&self) -> &[u8]
        ensures { result.now ≡ printed_of (state_of self.now) }
    {
        match self.trap {
            Some(held) => self.main.output_before(held.task),
            None => self.main.output(),
        }
    }

    /// The most slots that are taken of one station.
    pub(crate) fn most_slots(&self) -> u32
        requires { self.now.stations.sizes ≡ self.now.machine.sizes }
        ensures { result ≡ (counts_of self.now.machine (state_of self.now)).slots }
    {
        let mut most = 0;
        for station in 0..self.machine.sizes.stations {
            most = most.max(self.stations.taken(station));
        }
        most
    }

    /// The most entries of one bank.
    pub(crate) fn most_entries(&self) -> u32
        requires { IsFit self.now }
        ensures { result ≡ (counts_of self.now.machine (state_of self.now)).entries }
    {
        most_entries(&self.banks)
    }

    /// The most places that are held of one bank.
    pub(crate) fn most_places(&self) -> u32
        requires { IsFit self.now }
        ensures { result ≡ (counts_of self.now.machine (state_of self.now)).versions }
    {
        most_places(&self.banks)
    }

    /// The most buffers that are held of one bank.
    pub(crate) fn most_buffers(&self) -> u32
        requires { IsFit self.now }
        ensures { result ≡ (counts_of self.now.machine (state_of self.now)).buffers }
    {
        most_buffers(&self.banks)
    }

    /// How full each table is.
    pub(crate) fn counts(&self) -> Counts
        requires { IsFit self.now }
        ensures { result ≡ counts_of self.now.machine (state_of self.now) }
    {
        Counts {
            messages: self.mail.count(),
            slots: self.most_slots(),
            ready: self.queue.len(),
            workers: self.workers.busy(),
            entries: self.most_entries(),
            versions: self.most_places(),
            buffers: self.most_buffers(),
        }
    }
}

/// The most entries of one of the banks.
fn most_entries(banks: &[Bank]) -> u32
    ensures { result ≡ greatest (λ b. (fill_at banks.now b).entries) (length banks.now) }
{
    let mut most = 0;
    for i in 0..banks.len() {
        most = most.max(banks[i].renaming.entries());
    }
    most
}

/// The most places that are held of one of them.
fn most_places(banks: &[Bank]) -> u32
    ensures { result ≡ greatest (λ b. (fill_at banks.now b).places) (length banks.now) }
{
    let mut most = 0;
    for i in 0..banks.len() {
        most = most.max(banks[i].renaming.places());
    }
    most
}

/// The most buffers that are held of one of them.
fn most_buffers(banks: &[Bank]) -> u32
    ensures { result ≡ greatest (λ b. (fill_at banks.now b).buffers) (length banks.now) }
{
    let mut most = 0;
    for i in 0..banks.len() {
        most = most.max(banks[i].renaming.buffers());
    }
    most
}
