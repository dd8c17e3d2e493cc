// Lists of operands of one task.
ghost use Rattle.std.specs.Prelude.{◌≡◌, ◌<◌, ◌≤◌, [], ◌∷◌, ◌++◌, length, map};
ghost use Rattle.tss_base.specs.declared.bounds.TheConstants.{MAX_OPERANDS};
ghost use Rattle.tss_model.specs.Spawn.{no_operand, seven};

use std::marker::Model;
use tss_base::bounds::MAX_OPERANDS;
use tss_base::{Mode, Operand, Range};

/// How many operands a list has room for.
const ROOM: usize = MAX_OPERANDS as usize;

/// What stands where there is no operand.
const NO_OPERAND: Operand = Operand {
    object: Range { base: 0, len: 0 },
    mode: Mode::Input,
};

/// As many operands as a task may have at most, in order.
#[derive(Drop, Debug)]
pub(crate) struct Listing {
    count: u32,
    items: [Operand; ROOM],
}

impl Model for Listing {
    ghost use Rattle.std.specs.Prelude.{List, take};
    ghost use Rattle.tss_base.specs.declared.operand.Operand.{Operand};
    ghost use Rattle.tss_operands.specs.Listing.{IsListing};

    ghost Value = { List Operand };

    ghost view = { λ l. take l.count l.items };

    ghost invariant = { λ l. IsListing l.count l.items };
}

impl Listing {
    /// A list of none.
    pub(crate) fn new() -> Listing
        ensures { result ≡ [] }
    {
        Listing {
            count: 0,
            items: [NO_OPERAND; ROOM],
        }
    }

    /// Puts an operand at its end.
    pub(crate) fn push(&mut self, operand: Operand)
        requires { length self.old < MAX_OPERANDS }
        ensures { self.new ≡ self.old ++ operand ∷ [] }
    {
        self.items[self.count as usize] = operand;
        self.count += 1;
    }

    /// Its operands.
    pub(crate) fn as_slice(&self) -> &[Operand]
        ensures items { result.now ≡ self.now }
        ensures few { length result.now ≤ MAX_OPERANDS }
    {
        &self.items[..self.count as usize]
    }

    /// How many it has.
    pub(crate) fn len(&self) -> u32
        ensures len { result ≡ length self.now }
        ensures few { length self.now ≤ MAX_OPERANDS }
    {
        self.count
    }

    /// Its operands, filled up to the most.
    pub(crate) fn operands(&self) -> [Operand; ROOM]
        ensures { result ≡ seven no_operand self.now }
    {
        self.items
    }

    /// The bases of its operands, filled up to the most.
    pub(crate) fn bases(&self) -> [u32; ROOM]
        ensures { result ≡ seven 0 (map (λ o. o.object.base) self.now) }
    {
        self.items.map(|o| o.object.base)
    }
}
