// Versions with their tokens.
ghost use Rattle.std.specs.Prelude.{◌≡◌};
ghost use Rattle.tss_versions.specs.Known.{storage_in, buffer_in, store_by, IsHeld, HasNumbers};
ghost use Rattle.tss_versions.specs.Rows.{gone_by};

use crate::status::Status;
use tss_base::{OpName, Storage};
use tss_events::{Gone, HeldBuffer};
use tss_tokens::{Ended, Token};

/// Where a version's value lies: at the object's own place in memory, or in a buffer, whose token it holds.
pub enum Store {
    Home,
    Buffer(HeldBuffer),
}

/// A version: what is known of it, where its value lies, if anywhere yet, and the token of its place.
pub struct Kept {
    pub status: Status,
    pub store: Option<Store>,
    pub place: Token,
}

/// A version at its place, with its name.
pub struct Seat {
    pub name: OpName,
    pub kept: Kept,
}

/// The store of a storage, with the token of its buffer.
pub fn store_by(storage: Option<Storage>, buffer: Option<Token>) -> Option<Store>
    requires { IsHeld storage buffer }
    ensures { result ≡ store_by storage buffer }
{
    match (storage, buffer) {
        (Some(Storage::Buffer(_, name)), Some(token)) => {
            Some(Store::Buffer(HeldBuffer { name, token }))
        }
        (Some(Storage::Home), None) => Some(Store::Home),
        (None, None) => None,
        _ => unreachable!(),
    }
}

/// The storage of a store.
pub fn storage_in(store: &Option<Store>) -> Option<Storage>
    ensures { result ≡ storage_in store.now }
{
    match store {
        None => None,
        Some(Store::Home) => Some(Storage::Home),
        Some(Store::Buffer(held)) => Some(Storage::Buffer(held.token.place(), held.name)),
    }
}

/// The buffer of a store.
fn buffer_in(store: Option<Store>) -> Option<HeldBuffer>
    ensures { result ≡ buffer_in store }
{
    match store {
        None => None,
        Some(Store::Home) => None,
        Some(Store::Buffer(held)) => Some(held),
    }
}

impl Kept {
    /// What says that it is gone, with its tokens, and whether it was the last of its object.
    pub fn gone(self, name: OpName, retired: bool) -> Gone
        ensures { result ≡ gone_by name self retired }
    {
        let Kept {
            status,
            store,
            place,
        } = self;
        Gone {
            version: name,
            object: status.object,
            place,
            buffer: buffer_in(store),
            retired,
        }
    }

    /// Spends its tokens, whose pools have ended.
    pub fn end(self, places: &Ended, buffers: &Ended)
        requires { HasNumbers places.now buffers.now self }
    {
        let Kept {
            status: _,
            store,
            place,
        } = self;
        place.end(places);
        match buffer_in(store) {
            None => {}
            Some(held) => {
                let HeldBuffer { name: _, token } = held;
                token.end(buffers);
            }
        }
    }
}
