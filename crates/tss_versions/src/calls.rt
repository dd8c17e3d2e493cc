// The calls of a bank of versions, each for a message.
ghost use Rattle.std.specs.Prelude.{◌≡◌, ◌<◌, ◌^◌, ◌-◌, ◌↔◌, None, Some, true, false, IsErr, IsSome, IfOk, IfErr, OnOk, OnErr};
ghost use Rattle.std.specs.FinMap as map;
ghost use Rattle.tss_protocol.specs.Versions.{after_open, can_open, after_use, can_use, after_release, after_nack, after_retire};
ghost use Rattle.tss_base.specs.declared.marks.How.TheVariants.{Over};
ghost use Rattle.tss_events.specs.Events.{messages_of, opening_of};
ghost use Rattle.tss_versions.specs.Known.{IsAt, AreNumbered, versions_of};
ghost use Rattle.tss_versions.specs.Numbers.{OpensNumbered, GoneNumbered, AreSentNumbered};
ghost use Rattle.tss_versions.specs.Rows.{gone_by, first_kept, behind_kept, followed_kept, leaving_kept, produced_kept, read_kept};
ghost use Rattle.tss_versions.specs.Rows.{kept_after_open, kept_after_use, kept_after_release, kept_after_nack};
ghost use Rattle.tss_versions.specs.Conditions.{AreChained, MayOpen, OpensBare};

use crate::kept::{Kept, storage_in, store_by};
use crate::status::{Next, Site, Status};
use crate::versions::Versions;
use tss_base::{Blocked, How, OpName};
use tss_events::{Follow, Gone, Message, Opening, Sent};

impl Versions {
    /// Registers a version. It is blocked where the version that it follows isn't registered yet.
    pub fn open_version(&mut self, m: Opening) -> Result<Sent, (Blocked, Opening)>
        requires may_open { MayOpen self.old m }
        requires bare { OpensBare m }
        requires chained { AreChained (versions_of self.old.versions) }
        ensures blocked { IsErr result ↔ (can_open (versions_of self.old.versions) (opening_of m) ≡ false) }
        ensures exact { OnOk result (self.new ≡ record self.old {
          versions = (kept_after_open self.old.versions m).part;
        }) }
        ensures versions { OnOk result (versions_of self.new.versions
            ≡ (after_open (versions_of self.old.versions) m.o (opening_of m)).part) }
        ensures messages { IfOk result (λ s. s ≡ (kept_after_open self.old.versions m).sent) }
        ensures sent { IfOk result (λ s. messages_of s
            ≡ (after_open (versions_of self.old.versions) m.o (opening_of m)).sent) }
        ensures numbers { (p b : _) → AreNumbered p b self.old.versions → OpensNumbered p b m
            → AreNumbered p b self.new.versions × IfOk result (AreSentNumbered p b) }
        ensures handed_back { IfErr result (λ e. e.1 ≡ m) }
        ensures unchanged { OnErr result (self.new ≡ self.old) }
    {
        let Some(follow) = m.follows else {
            return Ok(self.open_first(m));
        };
        match self.find(follow.version) {
            Some(before) => Ok(self.open_behind(m, before, follow)),
            None => Err((Blocked, m)),
        }
    }

    /// Registers a version that follows nothing.
    fn open_first(&mut self, m: Opening) -> Sent
        requires may_open { MayOpen self.old m }
        requires chained { AreChained (versions_of self.old.versions) }
        ensures exact { self.new ≡ record self.old { versions = (first_kept self.old.versions m).part } }
        ensures messages { result ≡ (first_kept self.old.versions m).sent }
    {
        let Opening {
            o,
            operand,
            storage,
            follows: _,
            place,
            buffer,
        } = m;
        let status = Status::first(o, operand.object, operand.mode);
        self.add(
            o,
            Kept {
                status,
                store: store_by(storage, buffer),
                place,
            },
        );
        let mut sent = Sent::new();
        if let Some(storage) = storage {
            sent.push(Message::Ready(o, o, storage));
        }
        sent
    }

    /// Registers a version behind another one, which is settled then. Beside it the new one is ready at once, and over it
    /// only when the other one gives way.
    fn open_behind(&mut self, m: Opening, before: Site, follow: Follow) -> Sent
        requires may_open { MayOpen self.old m }
        requires chained { AreChained (versions_of self.old.versions) }
        requires bare { follow.how ≡ Over → m.storage ≡ None }
        requires at { IsAt self.old.versions before }
        requires name { before.name ≡ follow.version }
        ensures exact { self.new ≡ record self.old { versions = (followed_kept self.old.versions m follow before).part } }
        ensures messages { result ≡ (followed_kept self.old.versions m follow before).sent }
    {
        let mut sent = Sent::new();
        if let (How::Beside, Some(storage)) = (follow.how, m.storage) {
            sent.push(Message::Ready(m.o, m.o, storage));
        }
        self.link(m, before, follow);
        self.settle(before, &mut sent);
        sent
    }

    /// Puts a version behind another one, which knows it as its successor.
    fn link(&mut self, m: Opening, before: Site, follow: Follow)
        requires may_open { MayOpen self.old m }
        requires chained { AreChained (versions_of self.old.versions) }
        requires at { IsAt self.old.versions before }
        ensures exact { self.new ≡ record self.old { versions = behind_kept self.old.versions m follow before } }
        ensures at { IsAt self.new.versions before }
    {
        let Opening {
            o,
            operand,
            storage,
            follows: _,
            place,
            buffer,
        } = m;
        let next = Next {
            site: Site {
                name: o,
                place: place.place(),
            },
            how: follow.how,
            last: follow.last,
        };
        let status = Status::behind(operand.object, Some(before));
        let store = store_by(storage, buffer);
        self.add(
            o,
            Kept {
                status,
                store,
                place,
            },
        );
        let known = self.get(before).status;
        self.write(
            before,
            Status {
                successor: Some(next),
                ..known
            },
        );
    }

    /// Enlists a reader at the end of a version's chain. It is blocked where the version isn't registered yet.
    pub fn enlist(&mut self, o: OpName, v: OpName) -> Result<Sent, Blocked>
        requires { (x : _) → map.get self.old.versions v ≡ Some x → x.status.registered < 2 ^ 32 - 1 }
        ensures blocked { IsErr result ↔ (can_use (versions_of self.old.versions) v ≡ false) }
        ensures exact { OnOk result (self.new ≡ record self.old {
          versions = (kept_after_use self.old.versions o v).part;
        }) }
        ensures versions { OnOk result (versions_of self.new.versions
            ≡ (after_use (versions_of self.old.versions) o v).part) }
        ensures messages { IfOk result (λ s. s ≡ (kept_after_use self.old.versions o v).sent) }
        ensures sent { IfOk result (λ s. messages_of s ≡ (after_use (versions_of self.old.versions) o v).sent) }
        ensures numbers { (p b : _) → AreNumbered p b self.old.versions
            → AreNumbered p b self.new.versions × IfOk result (AreSentNumbered p b) }
        ensures unchanged { OnErr result (self.new ≡ self.old) }
    {
        let Some(at) = self.find(v) else {
            return Err(Blocked);
        };
        let kept = self.get(at);
        let status = kept.status;
        let storage = storage_in(&kept.store);
        let mut sent = Sent::new();
        match status.tail {
            Some(last) => {
                self.write(at, status.enlisted(o));
                sent.push(Message::Link(last, o));
            }
            None => {
                if status.produced {
                    self.write(at, status.enlisted(o));
                    if let Some(storage) = storage {
                        sent.push(Message::Ready(o, v, storage));
                    }
                } else {
                    self.write(
                        at,
                        Status {
                            head: Some(o),
                            ..status.enlisted(o)
                        },
                    );
                }
            }
        }
        Ok(sent)
    }

    /// A task has finished with a version, which it produced or read.
    pub fn release(&mut self, o: OpName, v: OpName, producer: bool) -> Sent
        requires registered { IsSome (map.get self.old.versions v) }
        requires readers { (x : _) → map.get self.old.versions v ≡ Some x → producer ≡ false
            → x.status.released < x.status.registered }
        requires chained { AreChained (versions_of self.old.versions) }
        ensures exact { self.new ≡ record self.old {
          versions = (kept_after_release self.old.versions o v producer).part;
        } }
        ensures versions { versions_of self.new.versions
            ≡ (after_release (versions_of self.old.versions) o (record { version = v; producer = producer })).part }
        ensures messages { result ≡ (kept_after_release self.old.versions o v producer).sent }
        ensures sent { messages_of result
            ≡ (after_release (versions_of self.old.versions) o (record { version = v; producer = producer })).sent }
        ensures numbers { (p b : _) → AreNumbered p b self.old.versions
            → AreNumbered p b self.new.versions × AreSentNumbered p b result }
    {
        let Some(at) = self.find(v) else {
            unreachable!();
        };
        let mut sent = self.leave(at, o, producer);
        self.settle(at, &mut sent);
        sent
    }

    /// A task leaves a version, which it produced or read.
    fn leave(&mut self, at: Site, o: OpName, producer: bool) -> Sent
        requires at { IsAt self.old.versions at }
        requires readers { (x : _) → map.get self.old.versions at.name ≡ Some x → producer ≡ false
            → x.status.released < x.status.registered }
        ensures exact { (x : _) → map.get self.old.versions at.name ≡ Some x →
            self.new ≡ record self.old { versions = (leaving_kept self.old.versions o at.name x producer).part } }
        ensures messages { (x : _) → map.get self.old.versions at.name ≡ Some x →
            result ≡ (leaving_kept self.old.versions o at.name x producer).sent }
    {
        if producer {
            self.produce(at, o)
        } else {
            self.part(at, o)
        }
    }

    /// A version is produced. Its head is told so, and its producer leaves.
    fn produce(&mut self, at: Site, o: OpName) -> Sent
        requires at { IsAt self.old.versions at }
        ensures exact { (x : _) → map.get self.old.versions at.name ≡ Some x →
            self.new ≡ record self.old { versions = (produced_kept self.old.versions o at.name x).part } }
        ensures messages { (x : _) → map.get self.old.versions at.name ≡ Some x →
            result ≡ (produced_kept self.old.versions o at.name x).sent }
    {
        let kept = self.get(at);
        let status = kept.status;
        let storage = storage_in(&kept.store);
        self.write(at, status.produced_now());
        let mut sent = Sent::new();
        if let (Some(head), Some(storage)) = (status.head, storage) {
            sent.push(Message::Ready(head, at.name, storage));
        }
        sent.push(Message::Bye(o, false));
        sent
    }

    /// A reader leaves a version. A link is promised, or has come, where it isn't the last of the chain.
    fn part(&mut self, at: Site, o: OpName) -> Sent
        requires at { IsAt self.old.versions at }
        requires readers { (x : _) → map.get self.old.versions at.name ≡ Some x → x.status.released < x.status.registered }
        ensures exact { (x : _) → map.get self.old.versions at.name ≡ Some x →
            self.new ≡ record self.old { versions = (read_kept self.old.versions o at.name x).part } }
        ensures messages { (x : _) → map.get self.old.versions at.name ≡ Some x →
            result ≡ (read_kept self.old.versions o at.name x).sent }
    {
        let status = self.get(at).status;
        self.write(at, status.released_once(o));
        let mut sent = Sent::new();
        sent.push(Message::Bye(o, !status.is_last(o)));
        sent
    }

    /// A version may not retire. It asks again as soon as it has more readers.
    pub fn nack(&mut self, v: OpName) -> Sent
        requires registered { IsSome (map.get self.old.versions v) }
        requires chained { AreChained (versions_of self.old.versions) }
        ensures exact { self.new ≡ record self.old { versions = (kept_after_nack self.old.versions v).part } }
        ensures versions { versions_of self.new.versions ≡ (after_nack (versions_of self.old.versions) v).part }
        ensures messages { result ≡ (kept_after_nack self.old.versions v).sent }
        ensures sent { messages_of result ≡ (after_nack (versions_of self.old.versions) v).sent }
        ensures numbers { (p b : _) → AreNumbered p b self.old.versions
            → AreNumbered p b self.new.versions × AreSentNumbered p b result }
    {
        let Some(at) = self.find(v) else {
            unreachable!();
        };
        let status = self.get(at).status;
        self.write(at, status.refused_once());
        let mut sent = Sent::new();
        self.settle(at, &mut sent);
        sent
    }

    /// A version retires, as the last of its object.
    pub fn retire(&mut self, v: OpName) -> Gone
        requires { IsSome (map.get self.old.versions v) }
        ensures exact { self.new ≡ record self.old { versions = map.remove self.old.versions v } }
        ensures versions { versions_of self.new.versions ≡ after_retire (versions_of self.old.versions) v }
        ensures gone { (x : _) → map.get self.old.versions v ≡ Some x → result ≡ gone_by v x true }
        ensures numbers { (p b : _) → AreNumbered p b self.old.versions
            → AreNumbered p b self.new.versions × GoneNumbered p b result }
    {
        match self.find(v) {
            Some(at) => self.remove(at).gone(v, true),
            None => unreachable!(),
        }
    }
}
