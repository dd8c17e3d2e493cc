// A worker with all that it works on.
ghost use Rattle.std.specs.Prelude.{◌≡◌, ◌<◌, ◌≤◌};
ghost use Rattle.tss_base.specs.declared.bounds.TheConstants.{MAX_OBJECT_BYTES};

use crate::tests::checking::can_work;
use crate::{Finished, Workers};
use std::alloc::Global;
use std::test::Fail;
use tss_base::bounds::MAX_OPERANDS;
use tss_base::{Range, Storage, Task};
use tss_buffers::Buffers;
use tss_elf::read_image;
use tss_memory::{Code, Space};
use tss_programs::M0;

/// The budget of a task.
const BUDGET: u64 = 1000;

/// Home with the code, two buffers in each of two banks, and three workers.
#[derive(Drop)]
pub(super) struct Unit {
    space: Space,
    code: Code,
    buffers: Buffers,
    workers: Workers,
    ghost each: { buffers.each ≡ 2 },
    ghost banks: { 0 < buffers.banks },
    ghost some: { 0 < workers.size },
}

impl Unit {
    /// All of it idle, with the memory of an image and buffers of so many bytes.
    pub(super) fn open(alloc: Global, program: &[u8], object_bytes: u32) -> Result<Unit, Fail>
        requires { object_bytes ≤ MAX_OBJECT_BYTES }
    {
        let image = read_image(alloc, program)?;
        let (space, code) = Space::load(alloc, &image)?;
        Ok(Unit {
            space,
            code,
            buffers: Buffers::open(alloc, 2, 2, object_bytes)?,
            workers: Workers::open(alloc, &M0.sizes)?,
        })
    }

    /// A buffer is set, to zeros.
    pub(super) fn set(&mut self, bank: u32, place: u32) -> bool {
        if bank >= self.buffers.banks() || place >= 2 {
            return false;
        }
        self.buffers.zero(bank, place);
        true
    }

    /// Puts a word in a buffer that is set.
    pub(super) fn put(&mut self, bank: u32, place: u32, at: u32, value: u32) -> bool {
        if bank >= self.buffers.banks() || place >= 2 || at > 0xFFFF {
            return false;
        }
        if !self.buffers.is_set(bank, place) || at + 4 > self.buffers.object_bytes() {
            return false;
        }
        self.buffers.put(bank, place, at, 4, value);
        true
    }

    /// Puts a byte at home.
    pub(super) fn put_home(&mut self, at: u32, value: u8) -> bool {
        if self.space.range_of(&Range { base: at, len: 1 }) != Some(true) {
            return false;
        }
        self.space.set(at, value);
        true
    }

    /// The first worker starts a task.
    pub(super) fn start(
        &mut self,
        task: &Task,
        storages: &[Storage; MAX_OPERANDS as usize],
    ) -> bool {
        if task.listed > MAX_OPERANDS {
            return false;
        }
        if !can_work(&self.space, &self.buffers, 2, task, storages) {
            return false;
        }
        self.workers
            .start(0, task, storages, &mut self.space, &mut self.buffers)
            .is_ok()
    }

    /// It goes on by a stretch.
    fn exec(&mut self, quantum: u32) -> bool {
        match self.workers.worker(0) {
            Some(worker) => {
                if !can_work(
                    &self.space,
                    &self.buffers,
                    2,
                    &worker.task,
                    &worker.storages,
                ) {
                    return false;
                }
            }
            None => return false,
        }
        self.workers
            .exec(
                0,
                &self.code,
                &mut self.space,
                &mut self.buffers,
                BUDGET,
                quantum,
            )
            .is_ok()
    }

    /// It goes on by stretches until its task is over. How many these were.
    pub(super) fn run(&mut self, quantum: u32) -> Option<u32> {
        for n in 0..1000 {
            if self.workers.can_finish(0) {
                return Some(n);
            }
            if !self.exec(quantum) {
                return None;
            }
        }
        None
    }

    /// Its task is done with.
    pub(super) fn finish(&mut self) -> Option<Finished> {
        self.workers.finish(0).ok()
    }

    /// Its pc, and how many instructions it has completed.
    pub(super) fn at(&self) -> Option<(u32, u64)> {
        match self.workers.worker(0) {
            Some(worker) => Some((worker.regs.pc(), worker.regs.done())),
            None => None,
        }
    }

    /// One of its registers.
    pub(super) fn register(&self, r: u8) -> Option<u32> {
        match self.workers.worker(0) {
            Some(worker) => {
                if r < 32 {
                    return Some(worker.regs.get(r));
                }
                None
            }
            None => None,
        }
    }

    /// Whether these are the bytes of its scratch.
    pub(super) fn scratch_is(&self, bytes: &[u8]) -> bool {
        match self.workers.worker(0) {
            Some(worker) => worker.scratch.bytes() == bytes,
            None => false,
        }
    }

    /// Whether these are the bytes at home from an address on.
    pub(super) fn home_is(&self, base: u32, bytes: &[u8]) -> bool {
        match u32::try_from(bytes.len()) {
            Ok(len) => {
                let r = Range { base, len };
                self.space.range_of(&r).is_some() && self.space.bytes(&r) == bytes
            }
            Err(_) => false,
        }
    }

    /// Whether these are the bytes of a buffer.
    pub(super) fn buffer_is(&self, bank: u32, place: u32, bytes: &[u8]) -> bool {
        bank < self.buffers.banks() && place < 2 && self.buffers.bytes(bank, place) == bytes
    }
}
