// Whether what the calls ask holds of a bank.
ghost use Rattle.std.specs.Prelude.{◌≡◌, ◌≢◌, Some, IsTrue, false};
ghost use Rattle.std.specs.FinMap as map;
ghost use Rattle.tss_protocol.specs.Settled.{IsSettled};
ghost use Rattle.tss_versions.specs.Known.{follow_of, version_by, versions_of};
ghost use Rattle.tss_versions.specs.Conditions.{AreChained, IsBefore, IsChainedAt, IsFree, IsNext};

use crate::status::{Next, Site, Status};
use crate::versions::Versions;
use tss_base::{How, OpName};

/// Whether a version may neither give way nor ask.
fn is_settled(status: &Status) -> bool
    ensures { IsTrue result → IsSettled (version_by None status.now) }
{
    match status.successor {
        Some(next) => !status.may_die(next.last),
        None => !status.may_ask(),
    }
}

/// Whether the version before another, if any, is registered and older.
fn has_older(bank: &Versions, v: OpName, before: Option<Site>) -> bool
    ensures { IsTrue result → (s : _) → before ≡ Some s → IsBefore (versions_of bank.now.versions) v s.name }
{
    match before {
        Some(site) => bank.has(site.name) && site.name.task < v.task,
        None => true,
    }
}

/// Whether the version that follows another, if any, is registered and younger, and has no storage where it is to take
/// that one's.
fn has_younger(bank: &Versions, v: OpName, next: Option<Next>) -> bool
    ensures { IsTrue result → (n : _) → next ≡ Some n → IsNext (versions_of bank.now.versions) v (follow_of n) }
{
    let Some(next) = next else {
        return true;
    };
    let Some(at) = bank.find(next.site.name) else {
        return false;
    };
    if next.site.name.task <= v.task {
        return false;
    }
    match next.how {
        How::Beside => true,
        How::Over => bank.get(at).store.is_none(),
    }
}

/// Whether a version, if it is registered, is settled between its neighbours.
fn is_chained_at(bank: &Versions, v: OpName) -> bool
    ensures { IsTrue result → IsChainedAt (versions_of bank.now.versions) v }
{
    let Some(at) = bank.find(v) else {
        return true;
    };
    let status = bank.get(at).status;
    if !is_settled(&status) {
        return false;
    }
    if !has_older(bank, v, status.predecessor) {
        return false;
    }
    has_younger(bank, v, status.successor)
}

/// Whether each version is settled between its neighbours.
pub fn is_chained(bank: &Versions) -> bool
    ensures { IsTrue result → AreChained (versions_of bank.now.versions) }
{
    for i in 0..bank.count() {
        if let Some(v) = bank.name_at(i) {
            if !is_chained_at(bank, v) {
                return false;
            }
        }
    }
    true
}

/// Whether a version stands at a place.
fn stands_at(bank: &Versions, v: OpName, place: u32) -> bool
    ensures { result ≡ false → (x : _) → map.get bank.now.versions v ≡ Some x → x.place.place ≢ place }
{
    match bank.find(v) {
        Some(at) => at.place == place,
        None => false,
    }
}

/// Whether no version stands at a place.
pub fn is_free(bank: &Versions, place: u32) -> bool
    ensures { IsTrue result → IsFree bank.now.versions place }
{
    for i in 0..bank.count() {
        if let Some(v) = bank.name_at(i) {
            if stands_at(bank, v, place) {
                return false;
            }
        }
    }
    true
}
