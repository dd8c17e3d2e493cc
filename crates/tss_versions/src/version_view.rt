// What is shown of a version.
ghost use Rattle.std.specs.Prelude.{◌≡◌, option_and_then, option_map};
ghost use Rattle.tss_maps.specs.Ordered.{key_at};
ghost use Rattle.tss_versions.specs.Known.{follow_of, view_in};

use crate::kept::storage_in;
use crate::status::{Next, Site};
use crate::versions::Versions;
use tss_base::{Follow, OpName, Range, Storage};

/// A version: its name, its object, the storage of its value where it has one, whether it is produced or still open, the
/// readers that registered and those that released it, the first reader of an open version, the last registered reader
/// until that one has released, the versions before and after it, and the number of readers for which it asked to
/// retire, or was refused to. In a successor's `Follow` the version is the successor.
#[derive(Clone, Copy, Debug, PartialEq, Eq)]
pub struct VersionView {
    pub name: OpName,
    pub object: Range,
    pub storage: Option<Storage>,
    pub produced: bool,
    pub registered: u32,
    pub released: u32,
    pub head: Option<OpName>,
    pub tail: Option<OpName>,
    pub predecessor: Option<OpName>,
    pub successor: Option<Follow>,
    pub asked: Option<u32>,
    pub refused: Option<u32>,
}

/// The name of a version, if any.
fn name_in(site: Option<Site>) -> Option<OpName>
    ensures { result ≡ option_map (λ s. s.name) site }
{
    match site {
        None => None,
        Some(site) => Some(site.name),
    }
}

/// The link to a version, if any, by its name alone.
fn follow_in(next: Option<Next>) -> Option<Follow>
    ensures { result ≡ option_map follow_of next }
{
    match next {
        None => None,
        Some(next) => Some(next.follow()),
    }
}

impl Versions {
    /// A registered version.
    pub fn version(&self, v: OpName) -> Option<VersionView>
        ensures { result ≡ view_in self.now.versions v }
    {
        let kept = self.get(self.find(v)?);
        let status = kept.status;
        Some(VersionView {
            name: v,
            object: status.object,
            storage: storage_in(&kept.store),
            produced: status.produced,
            registered: status.registered,
            released: status.released,
            head: status.head,
            tail: status.tail,
            predecessor: name_in(status.predecessor),
            successor: follow_in(status.successor),
            asked: status.asked,
            refused: status.refused,
        })
    }

    /// The version at a place, from 0, of the versions by name.
    pub fn version_at(&self, i: u32) -> Option<VersionView>
        ensures { result ≡ option_and_then (view_in self.now.versions) (key_at self.now.versions i) }
    {
        self.version(self.name_at(i)?)
    }
}
