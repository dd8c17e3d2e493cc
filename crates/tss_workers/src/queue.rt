// The queue of the tasks whose operands are ready.
ghost use Rattle.std.specs.Prelude.{◌≡◌, ◌<◌, ◌++◌, ◌∷◌, [], IfOk, drop, length, slice_get};

use circular_buffer::HeapCircularBuffer;
use std::alloc::Global;
use std::marker::Model;
use tss_base::NoMemory;

/// Tasks in order, a ring of fixed size. A contract sees the size and the tasks.
#[derive(Drop)]
pub struct ReadyQueue {
    ring: HeapCircularBuffer<u32>,
}

impl Model for ReadyQueue {
    ghost use Rattle.std.specs.Prelude.{◌<◌, ◌^◌};
    ghost use Rattle.tss_workers.specs.Queue.{QueueState, queue_code};

    ghost Value = { QueueState };

    ghost coded = { queue_code };

    ghost view = { λ q. record { size = q.ring.capacity; tasks = q.ring.items } };

    ghost invariant = { λ q. q.ring.capacity < 2 ^ 32 };
}

impl ReadyQueue {
    /// An empty queue with room for `size` tasks.
    pub fn open(alloc: Global, size: u32) -> Result<ReadyQueue, NoMemory>
        ensures { IfOk result (λ q. q ≡ record { size = size; tasks = [] }) }
    {
        Ok(ReadyQueue {
            ring: HeapCircularBuffer::with_capacity(alloc, size as usize)?,
        })
    }

    /// Puts a task behind the others.
    pub fn push(&mut self, task: u32)
        requires room { length self.old.tasks < self.old.size }
        ensures { self.new ≡ record self.old { tasks = self.old.tasks ++ task ∷ [] } }
    {
        match self.ring.try_push_back(task) {
            Ok(()) => {}
            Err(_) => unreachable!(),
        }
    }

    /// Takes the front task out. None exactly where there is none.
    pub fn pop(&mut self) -> Option<u32>
        ensures exact { result ≡ slice_get self.old.tasks 0 }
        ensures rest { self.new ≡ record self.old { tasks = drop 1 self.old.tasks } }
    {
        self.ring.pop_front()
    }

    /// How many tasks there are.
    pub fn len(&self) -> u32
        ensures { result ≡ length self.now.tasks }
    {
        self.ring.len() as u32
    }

    /// The task at a place in order, from 0. None exactly where there are no more.
    pub fn at(&self, i: u32) -> Option<u32>
        ensures { result ≡ slice_get self.now.tasks i }
    {
        self.ring.get(i as usize).copied()
    }
}
