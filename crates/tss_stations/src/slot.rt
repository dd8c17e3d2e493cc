// Slots.
ghost use Rattle.std.specs.Prelude.{◌≡◌, length, map};
ghost use Rattle.std.specs.List.{list_all};
ghost use Rattle.tss_protocol.specs.Stations.{is_ready, has_left, is_complete, is_gone};
ghost use Rattle.tss_stations.specs.Views.{state_of, views_of, flying_of, view_at, new_view, new_slot};

use crate::operand_view::OperandView;
use tss_base::bounds::MAX_OPERANDS;
use tss_base::{Operand, Stage, Task};

/// A task in flight with its stage, and what is known of its operands: the first `count` of `operands`, `count` being the
/// task's.
#[derive(Clone, Copy, Debug, PartialEq, Eq)]
pub struct Slot {
    pub task: Task,
    pub stage: Stage,
    pub operands: [OperandView; MAX_OPERANDS as usize],
}

impl Slot {
    /// The slot of a task that enters. A task without operands needn't wait.
    pub fn new(task: &Task) -> Slot
        ensures { result ≡ new_slot task.now }
    {
        let waiting = Slot {
            task: *task,
            stage: Stage::Waiting,
            operands: new_views(task.operands),
        };
        if waiting.known().is_empty() {
            Slot {
                stage: Stage::Queued,
                ..waiting
            }
        } else {
            waiting
        }
    }

    /// What is known of its operands.
    fn known(&self) -> &[OperandView]
        ensures { result.now ≡ views_of self.now }
    {
        &self.operands[..self.task.count.min(MAX_OPERANDS) as usize]
    }

    /// How many operands its task has.
    pub fn count(&self) -> u32
        ensures { result ≡ length (views_of self.now) }
    {
        self.task.count.min(MAX_OPERANDS)
    }

    /// What is known of an operand.
    pub fn operand(&self, place: u32) -> Option<OperandView>
        ensures { result ≡ view_at place self.now }
    {
        if place < self.task.count {
            self.operands.get(place as usize).copied()
        } else {
            None
        }
    }

    /// Whether its operands are all ready.
    pub fn is_complete(&self) -> bool
        ensures { result ≡ is_complete (flying_of self.now) }
    {
        all_ready(self.known())
    }

    /// Whether its task has left: it has finished, and each operand's farewell is done.
    pub fn is_gone(&self) -> bool
        ensures { result ≡ is_gone (flying_of self.now) }
    {
        match self.stage {
            Stage::Finished => all_left(self.known()),
            Stage::Waiting | Stage::Queued | Stage::Running => false,
        }
    }
}

/// What is known of a task's operands at first.
fn new_views(operands: [Operand; MAX_OPERANDS as usize]) -> [OperandView; MAX_OPERANDS as usize]
    ensures { result ≡ map new_view operands }
{
    operands.map(|operand| OperandView::new(operand))
}

/// Whether each was told its version and storage.
fn all_ready(operands: &[OperandView]) -> bool
    ensures { result ≡ list_all (λ r. is_ready (state_of r)) operands.now }
{
    operands.iter().all(|operand| operand.is_ready())
}

/// Whether the farewell of each is done.
fn all_left(operands: &[OperandView]) -> bool
    ensures { result ≡ list_all (λ r. has_left r.farewell) operands.now }
{
    operands.iter().all(|operand| operand.has_left())
}
