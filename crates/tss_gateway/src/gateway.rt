// The inbox and the gateway.
ghost use Rattle.std.specs.Prelude.{◌≡◌, ◌≢◌, ◌<◌, ◌≤◌, ◌↔◌, ◌⊎◌, None, Some, IsErr, OnOk, OnErr, IfOk, length, nat_lt, option_map, slice_get};
ghost use Rattle.std.specs.FinMap as map;
ghost use Rattle.tss_base.specs.declared.bounds.TheConstants.{MAX_OPERANDS, MAX_WINDOW};
ghost use Rattle.tss_base.specs.declared.operand.OpName.{OpName};
ghost use Rattle.tss_base.specs.declared.operand.Task.{Task as SpawnedTask};
ghost use Rattle.tss_protocol.specs.Gateway.{held_tasks, gateway_after_take, gateway_after_ack, is_idle};
ghost use Rattle.tss_gateway.specs.Seen.{told_at};

use crate::names::{Held, ROOM, place_of, run_length};
use arrayvec::ArrayVec;
use std::marker::Model;
use tss_base::{Blocked, OpName, Task};

/// The inbox, where a spawned task waits, and the gateway, which holds the operands of the tasks that decode, as far as
/// these are still to be acknowledged. A contract sees how many tasks the gateway may hold, the inbox, and the set of
/// the names of those operands.
#[derive(Drop)]
pub struct Gateway {
    window: u32,
    inbox: Option<Task>,
    held: ArrayVec<Held, ROOM>,
}

impl Model for Gateway {
    ghost use Rattle.tss_gateway.specs.Seen.{GatewayState, gateway_code, IsGateway};
    ghost use Rattle.tss_gateway.specs.Names.{names_in, set_of};

    ghost Value = { GatewayState };

    ghost coded = { gateway_code };

    ghost view = { λ g. record { window = g.window; inbox = g.inbox; gateway = set_of (names_in g.held.items) } };

    ghost invariant = { λ g. IsGateway g.window g.inbox (names_in g.held.items) };
}

impl Gateway {
    /// An empty inbox, and a gateway that holds no task. It may hold `window` of them, 1 to 8.
    pub fn idle(window: u32) -> Gateway
        requires { window ≤ MAX_WINDOW }
        ensures { result ≡ record { window = window; inbox = None; gateway = map.empty } }
    {
        Gateway {
            window,
            inbox: None,
            held: ArrayVec::new(),
        }
    }

    /// Puts a spawned task into the inbox, where that is empty.
    pub fn accept(&mut self, task: Task) -> Result<(), Blocked>
        requires { task.count ≤ MAX_OPERANDS }
        ensures blocked { IsErr result ↔ (self.old.inbox ≢ None) }
        ensures ok { OnOk result (self.new ≡ record self.old { inbox = Some task }) }
        ensures unchanged { OnErr result (self.new ≡ self.old) }
    {
        if self.inbox.is_some() {
            return Err(Blocked);
        }
        self.inbox = Some(task);
        Ok(())
    }

    /// How many tasks are held.
    pub fn tasks(&self) -> u32
        ensures { result ≡ length (held_tasks self.now.gateway) }
    {
        let held = self.held.as_slice();
        let mut start = 0;
        let mut tasks = 0;
        while start < held.len() {
            start += run_length(held, start);
            tasks += 1;
        }
        tasks
    }

    /// Takes the task out of the inbox, where the gateway holds fewer tasks than it may: it holds the task, after the
    /// others, with all its operands. Tasks come in rising order.
    pub fn take(&mut self) -> Result<Task, Blocked>
        requires later { (t : SpawnedTask) → self.old.inbox ≡ Some t → (o : OpName) → map.get self.old.gateway o ≡ Some tt → o.task < t.number }
        ensures blocked { IsErr result ↔ ((self.old.inbox ≡ None) ⊎ (self.old.window ≤ length (held_tasks self.old.gateway))) }
        ensures task { IfOk result (λ t. self.old.inbox ≡ Some t) }
        ensures ok { IfOk result (λ t. self.new ≡ record self.old { inbox = None; gateway = gateway_after_take self.old.gateway t }) }
        ensures unchanged { OnErr result (self.new ≡ self.old) }
    {
        if self.tasks() >= self.window {
            return Err(Blocked);
        }
        let Some(task) = self.inbox.take() else {
            return Err(Blocked);
        };
        let operands = &task.operands[..task.count as usize];
        for place in 0..operands.len() {
            let name = OpName {
                task: task.number,
                place: place as u32,
            };
            self.held.push(Held { name });
        }
        Ok(task)
    }

    /// An operand is acknowledged: the gateway no longer holds it, nor its task where it was the last.
    pub fn ack(&mut self, o: OpName) -> Result<(), Blocked>
        ensures blocked { IsErr result ↔ (map.get self.old.gateway o ≡ None) }
        ensures ok { OnOk result (self.new ≡ record self.old { gateway = gateway_after_ack self.old.gateway o }) }
        ensures unchanged { OnErr result (self.new ≡ self.old) }
    {
        match place_of(self.held.as_slice(), o) {
            Some(place) => {
                self.held.remove(place);
                Ok(())
            }
            None => Err(Blocked),
        }
    }

    /// Whether the gateway holds fewer tasks than it may.
    pub fn has_window(&self) -> bool
        ensures { result ≡ nat_lt (length (held_tasks self.now.gateway)) self.now.window }
    {
        self.tasks() < self.window
    }

    /// Whether the gateway holds no task.
    pub fn is_idle(&self) -> bool
        ensures { result ≡ is_idle self.now.gateway }
    {
        self.held.is_empty()
    }

    /// The task in the inbox.
    pub fn inbox(&self) -> Option<&Task>
        ensures { option_map (λ t. t.now) result ≡ self.now.inbox }
    {
        self.inbox.as_ref()
    }

    /// A task that is held, by its place from 0, in order, and how many of its operands are still to be acknowledged.
    pub fn held_at(&self, i: u32) -> Option<(u32, u32)>
        ensures { result ≡ told_at (slice_get (held_tasks self.now.gateway) i) }
    {
        let held = self.held.as_slice();
        let mut start = 0;
        for _ in 0..i {
            if start >= held.len() {
                return None;
            }
            start += run_length(held, start);
        }
        if start < held.len() {
            Some((held[start].name.task, run_length(held, start) as u32))
        } else {
            None
        }
    }
}
