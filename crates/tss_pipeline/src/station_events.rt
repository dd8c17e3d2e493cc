// The events of the stations: ready, link and bye.
ghost use Rattle.std.specs.Prelude.{◌≡◌, ◌<◌, true, length};
ghost use Rattle.tss_base.specs.declared.event.Event.TheVariants as event;
ghost use Rattle.tss_protocol.specs.UnitMachine.{queue_with};
ghost use Rattle.tss_pipeline.specs.Does.{Does, May};
ghost use Rattle.tss_pipeline.specs.Fit.{IsFit};

use crate::letters::{take_bye, take_link, take_ready};
use crate::posting::post_all;
use crate::units::Units;
use tss_base::OpName;
use tss_workers::ReadyQueue;

/// Queues a task, where it is complete.
pub(crate) fn queue_where(queue: &mut ReadyQueue, task: u32, complete: bool)
    requires { complete ≡ true → length queue.old.tasks < queue.old.size }
    ensures { queue.new ≡ record queue.old { tasks = queue_with queue.old.tasks task complete } }
{
    if complete {
        queue.push(task);
    }
}

impl Units {
    /// An operand is told its version and storage. Where its task's operands are all ready the task is queued.
    pub(crate) fn ready(&mut self, o: OpName)
        requires fit { IsFit self.old }
        requires may { May (event.Ready o) self.old }
        ensures { Does (event.Ready o) self.old self.new }
    {
        let (version, storage) = take_ready(&mut self.mail, o);
        let (sent, complete) = self.stations.ready(o, version, storage);
        queue_where(&mut self.queue, o.task, complete);
        post_all(&mut self.mail, sent);
    }

    /// An operand is told who comes next in its version's chain.
    pub(crate) fn link(&mut self, o: OpName)
        requires fit { IsFit self.old }
        requires may { May (event.Link o) self.old }
        ensures { Does (event.Link o) self.old self.new }
    {
        let next = take_link(&mut self.mail, o);
        let sent = self.stations.link(o, next);
        post_all(&mut self.mail, sent);
    }

    /// The farewell of an operand.
    pub(crate) fn bye(&mut self, o: OpName)
        requires fit { IsFit self.old }
        requires may { May (event.Bye o) self.old }
        ensures { Does (event.Bye o) self.old self.new }
    {
        let promised = take_bye(&mut self.mail, o);
        self.stations.bye(o, promised);
    }
}
