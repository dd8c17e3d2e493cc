// A version that is done gives way to its successor, or asks whether it may retire.
ghost use Rattle.std.specs.Prelude.{◌≡◌, ◌<◌, ◌≤◌, ◌++◌, None, Some, length};
ghost use Rattle.std.specs.FinMap as map;
ghost use Rattle.tss_versions.specs.Known.{IsAt, versions_of};
ghost use Rattle.tss_versions.specs.Rows.{change_site, bridged_kept, asking, unlinked_kept, passed_by, taken_over, settled_kept};
ghost use Rattle.tss_versions.specs.Conditions.{IsBetween, IsUnstored, MaySettle, Remain};

use crate::kept::{Kept, storage_in};
use crate::status::{Site, Status};
use crate::versions::Versions;
use tss_base::How;
use tss_events::{Gone, Message, Sent};

impl Versions {
    /// Settles a version: it gives way to the one that follows it, or asks, where it is done.
    pub(crate) fn settle(&mut self, v: Site, sent: &mut Sent)
        requires at { IsAt self.old.versions v }
        requires links { MaySettle (versions_of self.old.versions) v.name }
        requires room { length sent.old ≤ 2 }
        ensures exact { self.new ≡ record self.old { versions = (settled_kept self.old.versions v.name).part } }
        ensures sent { sent.new ≡ sent.old ++ (settled_kept self.old.versions v.name).sent }
    {
        let status = self.get(v).status;
        match status.successor {
            None => self.ask(v, sent),
            Some(next) => {
                if status.may_die(next.last) {
                    match next.how {
                        How::Beside => self.pass_by(v, next.site, sent),
                        How::Over => self.take_over(v, next.site, sent),
                    }
                }
            }
        }
    }

    /// A version that no other follows asks, where it may.
    fn ask(&mut self, v: Site, sent: &mut Sent)
        requires at { IsAt self.old.versions v }
        requires room { length sent.old < 4 }
        ensures exact { self.new ≡ record self.old { versions = (asking self.old.versions v.name).part } }
        ensures sent { sent.new ≡ sent.old ++ (asking self.old.versions v.name).sent }
    {
        let status = self.get(v).status;
        if status.successor.is_none() && status.may_ask() {
            self.write(
                v,
                Status {
                    asked: Some(status.registered),
                    ..status
                },
            );
            sent.push(Message::Idle(v.name, status.object.base, status.registered));
        }
    }

    /// A version gives way to one beside it, which may ask then.
    fn pass_by(&mut self, v: Site, next: Site, sent: &mut Sent)
        requires between { IsBetween self.old.versions v next }
        requires room { length sent.old ≤ 2 }
        ensures exact { (x : _) → map.get self.old.versions v.name ≡ Some x →
            self.new ≡ record self.old { versions = (passed_by self.old.versions v.name x next).part } }
        ensures sent { (x : _) → map.get self.old.versions v.name ≡ Some x →
            sent.new ≡ sent.old ++ (passed_by self.old.versions v.name x next).sent }
    {
        let kept = self.unlink(v, next);
        sent.push(Message::Gone(kept.gone(v.name, false)));
        self.ask(next, sent);
    }

    /// A version gives way to one that takes its storage, and is told so.
    fn take_over(&mut self, v: Site, next: Site, sent: &mut Sent)
        requires between { IsBetween self.old.versions v next }
        requires bare { IsUnstored self.old.versions next.name }
        requires room { length sent.old ≤ 2 }
        ensures exact { (x : _) → map.get self.old.versions v.name ≡ Some x →
            self.new ≡ record self.old { versions = (taken_over self.old.versions v.name x next).part } }
        ensures sent { (x : _) → map.get self.old.versions v.name ≡ Some x →
            sent.new ≡ sent.old ++ (taken_over self.old.versions v.name x next).sent }
    {
        let Kept {
            status,
            store,
            place,
        } = self.unlink(v, next);
        let storage = storage_in(&store);
        self.fill(next, store);
        sent.push(Message::Gone(Gone {
            version: v.name,
            object: status.object,
            place,
            buffer: None,
            retired: false,
        }));
        if let Some(storage) = storage {
            sent.push(Message::Ready(next.name, next.name, storage));
        }
    }

    /// Takes a version out from between the one before it and the one that follows it.
    fn unlink(&mut self, v: Site, next: Site) -> Kept
        requires { IsBetween self.old.versions v next }
        ensures exact { map.get self.old.versions v.name ≡ Some result }
        ensures others { self.new ≡ record self.old {
          versions = unlinked_kept self.old.versions v.name result next;
        } }
        ensures at { IsAt self.new.versions next }
        ensures store { (y : _) → map.get self.old.versions next.name ≡ Some y → (z : _)
            × (map.get self.new.versions next.name ≡ Some z) × (z.store ≡ y.store) }
    {
        let kept = self.remove(v);
        self.bridge(kept.status.predecessor, next);
        let status = self.get(next).status;
        self.write(
            next,
            Status {
                predecessor: kept.status.predecessor,
                ..status
            },
        );
        kept
    }

    /// The version before one that is taken out, if any, is followed by the next.
    fn bridge(&mut self, before: Option<Site>, next: Site)
        requires before { (s : _) → before ≡ Some s → IsAt self.old.versions s }
        requires next { IsAt self.old.versions next }
        ensures exact { self.new ≡ record self.old {
          versions = change_site self.old.versions before (bridged_kept next);
        } }
        ensures remain { Remain self.old.versions self.new.versions }
    {
        if let Some(before) = before {
            let status = self.get(before).status;
            self.write(before, status.followed_by(next));
        }
    }
}
