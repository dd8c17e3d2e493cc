// One event of the machine.
ghost use Rattle.std.specs.Prelude.{◌≡◌};
ghost use Rattle.tss_base.specs.declared.event.Event.TheVariants as event;
ghost use Rattle.tss_protocol.specs.UnitMachine.{is_enabled};
ghost use Rattle.tss_pipeline.specs.Does.{Does, May};
ghost use Rattle.tss_pipeline.specs.Fit.{IsFit};
ghost use Rattle.tss_pipeline.specs.State.{state_of};

use crate::units::Units;
use tss_base::Event;

/// The event may not happen in this state.
#[derive(Clone, Copy, Debug, PartialEq, Eq)]
pub struct NotEnabled;

impl Units {
    /// Whether an event may happen.
    pub(crate) fn is_enabled(&self, e: Event) -> bool
        requires { IsFit self.now }
        ensures { result ≡ is_enabled self.now.machine (state_of self.now) e }
    {
        match e {
            Event::Main => self.can_main(),
            Event::Take => self.can_take(),
            Event::Decode(o) => self.can_decode(o),
            Event::Open(o) => self.can_open(o),
            Event::Use(o) => self.can_use(o),
            Event::Start(w) => self.can_start(w),
            Event::Exec(w) => self.can_exec(w),
            Event::Finish(w) => self.can_finish(w),
            Event::Retire(v) => self.can_retire(v),
            Event::Copy(b) => self.can_copy(b),
            Event::Ack(_)
            | Event::Ready(_)
            | Event::Link(_)
            | Event::Release(_)
            | Event::Bye(_)
            | Event::Idle(_)
            | Event::Nack(_)
            | Event::Gone(_) => self.mail.has(&e),
        }
    }

    /// Does an event that may happen.
    pub(crate) fn event(&mut self, e: Event)
        requires fit { IsFit self.old }
        requires may { May e self.old }
        ensures { Does e self.old self.new }
    {
        match e {
            Event::Main => self.main_event(),
            Event::Take => self.take(),
            Event::Decode(o) => self.decode(o),
            Event::Ack(o) => self.ack(o),
            Event::Open(o) => self.open_version(o),
            Event::Use(o) => self.use_version(o),
            Event::Ready(o) => self.ready(o),
            Event::Link(o) => self.link(o),
            Event::Start(w) => self.start(w),
            Event::Exec(w) => self.exec(w),
            Event::Finish(w) => self.finish(w),
            Event::Release(o) => self.release(o),
            Event::Bye(o) => self.bye(o),
            Event::Idle(v) => self.idle(v),
            Event::Nack(v) => self.nack(v),
            Event::Retire(v) => self.retire(v),
            Event::Copy(b) => self.copy(b),
            Event::Gone(v) => self.gone(v),
        }
    }
}
