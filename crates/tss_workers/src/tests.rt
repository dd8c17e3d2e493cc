// The queue round the end of its ring, and each call that takes memory.
mod checking;
mod tasks;
mod unit;

use crate::{ReadyQueue, Workers};
use std::test::Fail;
use tss_base::Sizes;

#[test]
fn the_queue_goes_round_its_end(rt: HostRuntime) -> Result<(), Fail> {
    let mut queue = ReadyQueue::open(rt.alloc(), 3)?;
    assert_eq!(rt; (queue.pop(), queue.len()), (None, 0));
    queue.push(1);
    queue.push(2);
    assert_eq!(rt; queue.pop(), Some(1));
    queue.push(3);
    queue.push(4);
    assert_eq!(rt;
        (queue.len(), queue.at(0), queue.at(2), queue.at(3)),
        (3, Some(2), Some(4), None)
    );
    assert_eq!(rt; (queue.pop(), queue.pop()), (Some(2), Some(3)));
    queue.push(5);
    assert_eq!(rt;
        (queue.pop(), queue.pop(), queue.pop()),
        (Some(4), Some(5), None)
    );
    Ok(())
}

#[test]
fn workers_are_idle_at_first(rt: HostRuntime) -> Result<(), Fail> {
    let sizes = Sizes {
        stations: 1,
        slots: 8,
        workers: 3,
        banks: 1,
        entries: 16,
        versions: 16,
        buffers: 7,
        quantum: 100,
        window: 1,
    };
    let mut workers = Workers::open(rt.alloc(), &sizes)?;
    assert_eq!(rt; (workers.busy(), workers.is_idle(2)), (0, true));
    assert_eq!(rt;
        (workers.can_exec(0), workers.can_finish(0)),
        (false, false)
    );
    assert!(rt; workers.finish(1).is_err());
    assert!(rt; workers.task(3).is_none());
    Ok(())
}
