// What is known of a version beside its storage.
ghost use Rattle.std.specs.Prelude.{◌≡◌, ◌<◌, ◌^◌, ◌-◌, None, Some, suc, true};
ghost use Rattle.tss_protocol.specs.Versions.{may_die, may_ask, is_last, tail_without};
ghost use Rattle.tss_protocol.specs.Versions.{is_count};
ghost use Rattle.tss_versions.specs.Known.{version_by, follow_of, behind_status, first_status, followed_status};

use tss_base::{Follow, How, Mode, OpName, Range};

/// A version of the bank: its name, and the place at which it stands.
#[derive(Clone, Copy, Debug, PartialEq, Eq)]
pub struct Site {
    pub name: OpName,
    pub place: u32,
}

/// The version that follows another one, how it follows, and the other one's final number of uses.
#[derive(Clone, Copy, Debug, PartialEq, Eq)]
pub struct Next {
    pub site: Site,
    pub how: How,
    pub last: u32,
}

impl Next {
    /// The link by the version's name alone.
    pub fn follow(self) -> Follow
        ensures { result ≡ follow_of self }
    {
        Follow {
            version: self.site.name,
            how: self.how,
            last: self.last,
        }
    }
}

/// What is known of a version: its object, whether it is produced or still open, the readers that registered and those
/// that released it, the first reader of an open version, the last registered reader until that one has released, the
/// versions before and after it, and the number of readers for which it asked to retire, or was refused to.
#[derive(Clone, Copy, Debug, PartialEq, Eq)]
pub struct Status {
    pub object: Range,
    pub produced: bool,
    pub registered: u32,
    pub released: u32,
    pub head: Option<OpName>,
    pub tail: Option<OpName>,
    pub predecessor: Option<Site>,
    pub successor: Option<Next>,
    pub asked: Option<u32>,
    pub refused: Option<u32>,
}

impl Status {
    /// A version of which nothing is known but its object and the version before it.
    pub fn behind(object: Range, predecessor: Option<Site>) -> Status
        ensures { result ≡ behind_status object predecessor }
    {
        Status {
            object,
            produced: false,
            registered: 0,
            released: 0,
            head: None,
            tail: None,
            predecessor,
            successor: None,
            asked: None,
            refused: None,
        }
    }

    /// The first version of an object. An input opens it as its first reader, and it is produced.
    pub fn first(o: OpName, object: Range, mode: Mode) -> Status
        ensures { result ≡ first_status o object mode }
    {
        let open = Status::behind(object, None);
        match mode {
            Mode::Input => Status {
                produced: true,
                registered: 1,
                tail: Some(o),
                ..open
            },
            Mode::Output | Mode::Inout => open,
        }
    }

    /// Whether it may give way to the version that follows it, where `last` is its final number of uses.
    pub fn may_die(&self, last: u32) -> bool
        ensures { result ≡ may_die (version_by None self.now) last }
    {
        self.produced && self.released == last && self.asked.is_none()
    }

    /// Whether it may ask to retire, where no version follows it.
    pub fn may_ask(&self) -> bool
        ensures { result ≡ may_ask (version_by None self.now) }
    {
        self.produced
            && self.released == self.registered
            && self.predecessor.is_none()
            && self.asked.is_none()
            && !self.was_refused()
    }

    /// Whether it was refused with as many readers.
    fn was_refused(&self) -> bool
        ensures { result ≡ is_count self.now.refused self.now.registered }
    {
        match self.refused {
            None => false,
            Some(count) => count == self.registered,
        }
    }

    /// Whether an operand is the last of its chain.
    pub fn is_last(&self, o: OpName) -> bool
        ensures { result ≡ is_last o self.now.tail }
    {
        match self.tail {
            None => false,
            Some(last) => last == o,
        }
    }

    /// With another version in the place of the one that follows it.
    pub fn followed_by(self, next: Site) -> Status
        ensures { result ≡ followed_status next self }
    {
        Status {
            successor: match self.successor {
                None => None,
                Some(known) => Some(Next {
                    site: next,
                    ..known
                }),
            },
            ..self
        }
    }

    /// With one more reader, at the end of its chain.
    pub fn enlisted(self, o: OpName) -> Status
        requires { self.registered < 2 ^ 32 - 1 }
        ensures { result ≡ record self { registered = suc self.registered; tail = Some o } }
    {
        Status {
            registered: self.registered + 1,
            tail: Some(o),
            ..self
        }
    }

    /// After its producer has released it.
    pub fn produced_now(self) -> Status
        ensures { result ≡ record self { produced = true; head = None } }
    {
        Status {
            produced: true,
            head: None,
            ..self
        }
    }

    /// After one more reader has released it.
    pub fn released_once(self, o: OpName) -> Status
        requires { self.released < self.registered }
        ensures { result ≡ record self { released = suc self.released; tail = tail_without o self.tail } }
    {
        let tail = if self.is_last(o) { None } else { self.tail };
        Status {
            released: self.released + 1,
            tail,
            ..self
        }
    }

    /// After it was refused with the number for which it asked.
    pub fn refused_once(self) -> Status
        ensures { result ≡ record self { refused = self.asked; asked = None } }
    {
        Status {
            refused: self.asked,
            asked: None,
            ..self
        }
    }
}
