// The events of the workers and of the copy engines: start, exec, finish and copy.
ghost use Rattle.std.specs.Prelude.{◌≡◌, ◌+◌, ◌&&◌, ◌<◌, ◌≤◌, ℕ, drop, is_none, length, nat_lt, option_map, slice_get, Some, take};
ghost use Rattle.std.specs.FinMap.{get};
ghost use Rattle.tss_base.specs.declared.bounds.TheConstants.{MAX_OPERANDS};
ghost use Rattle.tss_base.specs.declared.event.Event.TheVariants as event;
ghost use Rattle.tss_model.specs.Access.{writes};
ghost use Rattle.tss_model.specs.Memory.{put_bytes};
ghost use Rattle.tss_memory.specs.Ranges.{CanWrite};
ghost use Rattle.tss_protocol.specs.Mail.{posted_all};
ghost use Rattle.tss_protocol.specs.Stations.{flight_after_finish};
ghost use Rattle.tss_protocol.specs.UnitMachine.{is_enabled};
ghost use Rattle.tss_protocol.specs.Workers.{trap_after_finish};
ghost use Rattle.tss_stations.specs.Views.{flight_of};
ghost use Rattle.tss_mail.specs.Letters.{mail_of};
ghost use Rattle.tss_conditions.specs.Posting.{MayPostAll};
ghost use Rattle.tss_pipeline.specs.Does.{Does, May};
ghost use Rattle.tss_pipeline.specs.Fit.{AreBanks, IsFit, ground_of};
ghost use Rattle.tss_pipeline.specs.Beginning.{AreHeldFor, IsHeldFor, IsStored, IsStoredAt};
ghost use Rattle.tss_pipeline.specs.Ending.{release_by, HasFewOperands};
ghost use Rattle.tss_pipeline.specs.Pieces.{gone_messages, gones_with};
ghost use Rattle.tss_pipeline.specs.State.{state_of, held_trap};

use crate::bank::Piece;
use crate::units::{TaskTrap, Units};
use tss_base::bounds::MAX_OPERANDS;
use tss_base::{Event, Mode, OpName, Operand, Storage, Task, Trap};
use tss_events::{Gone, Message};
use tss_mail::Mail;
use tss_memory::Space;
use tss_stations::{OperandView, Stations};

/// Whether a task writes an object with this mode.
fn writes(mode: Mode) -> bool
    ensures { result ≡ writes mode }
{
    match mode {
        Mode::Input => false,
        Mode::Output | Mode::Inout => true,
    }
}

/// The release of an operand that was told its version.
fn release(mail: &mut Mail, o: OpName, view: &OperandView)
    requires { MayPostAll mail.old.size (mail_of mail.old) (release_by o view.now) }
    ensures posted { mail_of mail.new ≡ posted_all (mail_of mail.old) (release_by o view.now) }
    ensures rest { mail.new ≡ record mail.old { releases = mail.new.releases } }
{
    if let (Some(version), Some(_)) = (view.version, view.storage) {
        mail.post(Message::Release(o, version, writes(view.operand.mode)));
    }
}

/// A release for each operand of a task.
fn release_all(stations: &Stations, mail: &mut Mail, task: u32)
    requires few { HasFewOperands (flight_of stations.now.slots) task }
    requires may { MayPostAll mail.old.size (mail_of mail.old) (flight_after_finish (flight_of stations.now.slots) task).sent }
    ensures posted { mail_of mail.new
        ≡ posted_all (mail_of mail.old) (flight_after_finish (flight_of stations.now.slots) task).sent }
    ensures rest { mail.new ≡ record mail.old { releases = mail.new.releases } }
{
    let mut place = 0;
    while place < MAX_OPERANDS {
        let o = OpName { task, place };
        let Some(view) = stations.operand(o) else {
            return;
        };
        release(mail, o, &view);
        place += 1;
    }
}

/// Holds the trap of a task that has trapped, unless one of a lower task is held.
fn hold(held: &mut Option<TaskTrap>, task: u32, trap: Option<Trap>)
    ensures { option_map held_trap held.new ≡ trap_after_finish (option_map held_trap held.old) task trap }
{
    let Some(trap) = trap else {
        return;
    };
    match held {
        Some(other) if other.task <= task => {}
        _ => *held = Some(TaskTrap { task, trap }),
    }
}

/// The bytes of a buffer from a place on go to an address.
fn copy_part(space: &mut Space, bytes: &[u8], from: u32, to: u32, len: u32)
    requires there { from + len ≤ length bytes.now }
    requires within { CanWrite space.old.ranges to len }
    ensures { space.new ≡ put_bytes space.old to (take len (drop from bytes.now)) }
{
    space.copy_in(to, &bytes[from as usize..from as usize + len as usize]);
}

/// The message of a version that is gone.
fn post_gone(mail: &mut Mail, gone: Option<Gone>)
    requires { MayPostAll mail.old.size (mail_of mail.old) (gone_messages gone) }
    ensures posted { mail_of mail.new ≡ posted_all (mail_of mail.old) (gone_messages gone) }
    ensures rest { mail.new ≡ record mail.old { gones = gones_with mail.old.gones gone } }
{
    if let Some(gone) = gone {
        mail.post(Message::Gone(gone));
    }
}

impl Units {
    /// Whether a task may start on a worker.
    pub(crate) fn can_start(&self, w: u32) -> bool
        requires { IsFit self.now }
        ensures { result ≡ is_enabled self.now.machine (state_of self.now) (event.Start w) }
    {
        self.is_free(w) && self.queue.len() > 0
    }

    /// Whether there is a worker of this number that is idle.
    fn is_free(&self, w: u32) -> bool
        ensures { result ≡ (nat_lt w self.now.machine.sizes.workers && is_none (get self.now.workers.entries w)) }
    {
        w < self.machine.sizes.workers && self.workers.is_idle(w)
    }

    /// The storage that an operand was told, with the place that its buffer has now.
    fn storage_of(&self, operand: &Operand, told: Option<Storage>) -> Storage
        requires banks { AreBanks self.now.machine self.now.banks.items }
        requires some { 0 < self.now.machine.sizes.banks }
        requires held { IsHeldFor (ground_of self.now) operand.now told }
        ensures { IsStored (ground_of self.now) operand.now told (Some result) }
    {
        match told {
            Some(storage) => self.storage_now(operand, storage),
            None => Storage::Home,
        }
    }

    /// A storage with the place that its buffer has now.
    fn storage_now(&self, operand: &Operand, storage: Storage) -> Storage
        requires banks { AreBanks self.now.machine self.now.banks.items }
        requires some { 0 < self.now.machine.sizes.banks }
        requires held { IsHeldFor (ground_of self.now) operand.now (Some storage) }
        ensures { IsStored (ground_of self.now) operand.now (Some storage) (Some result) }
    {
        match storage {
            Storage::Buffer(_, name) => {
                let bank = self.bank_of(&operand.object);
                match self.banks[bank as usize].renaming.buffer(name) {
                    Some(place) => Storage::Buffer(place, name),
                    None => unreachable!(),
                }
            }
            Storage::Home => Storage::Home,
        }
    }

    /// The storage of the operand at a place of a task.
    fn storage_at(&self, task: &Task, place: u32) -> Storage
        requires banks { AreBanks self.now.machine self.now.banks.items }
        requires some { 0 < self.now.machine.sizes.banks }
        requires place { place < task.now.count }
        requires count { task.now.count ≤ MAX_OPERANDS }
        requires held { AreHeldFor (ground_of self.now) self.now.stations.slots task.now }
        ensures { IsStoredAt (ground_of self.now) self.now.stations.slots task.now place (Some result) }
    {
        let o = OpName {
            task: task.number,
            place,
        };
        match self.stations.operand(o) {
            Some(view) => self.storage_of(&task.operands[place as usize], view.storage),
            None => Storage::Home,
        }
    }

    /// The storages of a task's operands.
    fn storages_of(&self, task: &Task) -> [Storage; MAX_OPERANDS as usize]
        requires banks { AreBanks self.now.machine self.now.banks.items }
        requires some { 0 < self.now.machine.sizes.banks }
        requires count { task.now.count ≤ MAX_OPERANDS }
        requires held { AreHeldFor (ground_of self.now) self.now.stations.slots task.now }
        ensures { (k : ℕ) → k < task.now.count
            → IsStoredAt (ground_of self.now) self.now.stations.slots task.now k (slice_get result k) }
    {
        let mut storages = [Storage::Home; MAX_OPERANDS as usize];
        let mut place = 0;
        while place < task.count {
            storages[place as usize] = self.storage_at(task, place);
            place += 1;
        }
        storages
    }

    /// The front task of the queue runs on a worker.
    pub(crate) fn start(&mut self, w: u32)
        requires fit { IsFit self.old }
        requires may { May (event.Start w) self.old }
        ensures { Does (event.Start w) self.old self.new }
    {
        let Some(number) = self.queue.pop() else {
            unreachable!();
        };
        let Some((task, _)) = self.stations.find(number) else {
            unreachable!();
        };
        let task = *task;
        let storages = self.storages_of(&task);
        self.stations.begin(number);
        match self
            .workers
            .start(w, &task, &storages, &mut self.space, &mut self.buffers)
        {
            Ok(()) => {}
            Err(_) => unreachable!(),
        }
    }

    /// Whether a worker's task may go on.
    pub(crate) fn can_exec(&self, w: u32) -> bool
        requires { IsFit self.now }
        ensures { result ≡ is_enabled self.now.machine (state_of self.now) (event.Exec w) }
    {
        self.workers.can_exec(w)
    }

    /// Whether a worker's task is over.
    pub(crate) fn can_finish(&self, w: u32) -> bool
        requires { IsFit self.now }
        ensures { result ≡ is_enabled self.now.machine (state_of self.now) (event.Finish w) }
    {
        self.workers.can_finish(w)
    }

    /// Whether a bank copies.
    pub(crate) fn can_copy(&self, b: u32) -> bool
        requires { IsFit self.now }
        ensures { result ≡ is_enabled self.now.machine (state_of self.now) (event.Copy b) }
    {
        match self.banks.get(b as usize) {
            Some(bank) => bank.job.is_some(),
            None => false,
        }
    }

    /// The task of a worker goes a stretch further.
    pub(crate) fn exec(&mut self, w: u32)
        requires fit { IsFit self.old }
        requires may { May (event.Exec w) self.old }
        ensures { Does (event.Exec w) self.old self.new }
    {
        let budget = self.machine.limits.task_budget;
        let quantum = self.machine.sizes.quantum;
        match self.workers.exec(
            w,
            &self.code,
            &mut self.space,
            &mut self.buffers,
            budget,
            quantum,
        ) {
            Ok(()) => {}
            Err(_) => unreachable!(),
        }
    }

    /// The task of a worker is over: it lets its operands go, and its trap is held where it is the lowest.
    pub(crate) fn finish(&mut self, w: u32)
        requires fit { IsFit self.old }
        requires may { May (event.Finish w) self.old }
        ensures { Does (event.Finish w) self.old self.new }
    {
        let Ok(finished) = self.workers.finish(w) else {
            unreachable!();
        };
        release_all(&self.stations, &mut self.mail, finished.task);
        self.stations.finish(finished.task);
        hold(&mut self.trap, finished.task, finished.trap);
    }

    /// The next bytes of a bank's copy go home. After the last the version is gone, with its buffer.
    pub(crate) fn copy(&mut self, b: u32)
        requires fit { IsFit self.old }
        requires may { May (event.Copy b) self.old }
        ensures { Does (event.Copy b) self.old self.new }
    {
        let Piece {
            place,
            from,
            to,
            len,
            gone,
        } = self.banks[b as usize].next_piece();
        let bytes = self.buffers.bytes(b, place);
        copy_part(&mut self.space, bytes, from, to, len);
        post_gone(&mut self.mail, gone);
    }
}
