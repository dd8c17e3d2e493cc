// The messages that one call sends.
ghost use Rattle.std.specs.Prelude.{◌≡◌, ◌<◌, ◌↔◌, ◌++◌, ◌∷◌, [], MatchOption, IsTrue, length};

use crate::message::Message;
use std::marker::Model;
use std::mem;

/// The messages that one call of a unit sends, at most four, in their order. A contract sees the list of them. It can't
/// be dropped: it is emptied and ended.
pub struct Sent {
    first: Option<Message>,
    second: Option<Message>,
    third: Option<Message>,
    fourth: Option<Message>,
}

impl Model for Sent {
    ghost use Rattle.std.specs.Prelude.{List, ◌++◌};
    ghost use Rattle.tss_events.specs.declared.message.Message.{Message};
    ghost use Rattle.tss_events.specs.Places.{listed, IsFilled};

    ghost Value = { List Message };

    ghost view = { λ s. listed s.first ++ (listed s.second ++ (listed s.third ++ listed s.fourth)) };

    ghost invariant = { λ s. IsFilled s.first s.second s.third s.fourth };
}

impl Sent {
    /// No message.
    pub fn new() -> Sent
        ensures { result ≡ [] }
    {
        Sent {
            first: None,
            second: None,
            third: None,
            fourth: None,
        }
    }

    /// Puts a message after the others.
    pub fn push(&mut self, m: Message)
        requires { length self.old < 4 }
        ensures { self.new ≡ self.old ++ m ∷ [] }
    {
        if self.first.is_none() {
            put(&mut self.first, m);
        } else if self.second.is_none() {
            put(&mut self.second, m);
        } else if self.third.is_none() {
            put(&mut self.third, m);
        } else {
            put(&mut self.fourth, m);
        }
    }

    /// Takes out the message that was put first.
    pub fn pop(&mut self) -> Option<Message>
        ensures { MatchOption result ((self.old ≡ []) × (self.new ≡ [])) (λ m. self.old ≡ m ∷ self.new) }
    {
        let last = self.fourth.take();
        let third = mem::replace(&mut self.third, last);
        let second = mem::replace(&mut self.second, third);
        mem::replace(&mut self.first, second)
    }

    /// Ends the list, once it is empty.
    pub fn end(self)
        requires { self ≡ [] }
    {
        let Sent {
            first,
            second,
            third,
            fourth,
        } = self;
        match (first, second, third, fourth) {
            (None, None, None, None) => {}
            _ => unreachable!(),
        }
    }
}

/// Puts a message into an empty place.
fn put(place: &mut Option<Message>, m: Message)
    requires { place.old ≡ None }
    ensures { place.new ≡ Some m }
{
    match mem::replace(place, Some(m)) {
        None => {}
        Some(_) => unreachable!(),
    }
}
