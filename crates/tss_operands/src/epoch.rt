// Epochs: the objects that main has named.
ghost use Rattle.tss_base.specs.declared.bounds.TheConstants.{MAX_OPERANDS};
ghost use Rattle.std.specs.Prelude.{◌≡◌, ◌≤◌, ◌↔◌, [], IfOk, IsTrue, IsFalse, length, slice_get, is_some, option_copied};
ghost use Rattle.tss_model.specs.Access.{operands_of, touches};
ghost use Rattle.tss_model.specs.Spawn.{name_object, name_objects, named_at, objects_of, overlaps, unnamed};
ghost use Rattle.tss_operands.specs.Naming.{CanName, CanNameAll, is_named};
ghost use Rattle.tss_operands.specs.Placed.{IsNeighbour};

use crate::search::ended_by;
use std::alloc::Global;
use std::marker::Model;
use tss_base::{NoMemory, Range, Task};

/// The objects that main has named since the last barrier and hasn't awaited since, in order of naming, each once, and the
/// most that may be named at one time.
#[derive(Drop, Debug)]
pub struct Epoch {
    limit: u32,
    named: Vec<Range>,
    by_base: Vec<Range>,
}

impl Model for Epoch {
    ghost use Rattle.std.specs.Prelude.{vec_capacity};
    ghost use Rattle.tss_operands.specs.Naming.{EpochState};
    ghost use Rattle.tss_operands.specs.Placed.{AreKept};

    ghost Value = { EpochState };

    ghost view = { λ e. record { limit = e.limit; objects = e.named.items } };

    ghost invariant = { λ e. AreKept e.limit e.named.items e.by_base.items (vec_capacity e.named) (vec_capacity e.by_base) };
}

impl Epoch {
    /// An epoch in which nothing is named, with room for `limit` objects. No other call takes memory.
    pub fn open(alloc: Global, limit: u32) -> Result<Epoch, NoMemory>
        ensures { IfOk result (λ e. e ≡ record { limit = limit; objects = [] }) }
    {
        Ok(Epoch {
            limit,
            named: Vec::with_capacity(alloc, limit as usize)?,
            by_base: Vec::with_capacity(alloc, limit as usize)?,
        })
    }

    /// Names an object. One that is named already stays as it is.
    pub fn name(&mut self, object: Range)
        requires { CanName self.old object }
        ensures { self.new ≡ record self.old { objects = name_object self.old.objects object } }
    {
        if self.has(&object) {
            return;
        }
        let place = ended_by(self.by_base.as_slice(), object.base);
        match self.by_base.insert(place, object) {
            Ok(()) => {}
            Err(_) => unreachable!(),
        }
        self.named.push_reserved(object);
    }

    /// Ends the naming of the object with this base, and answers whether there is one. The others stay named, in their
    /// order.
    pub fn unname(&mut self, base: u32) -> bool
        ensures named { result ≡ is_some (named_at self.old.objects base) }
        ensures left { self.new ≡ record self.old { objects = unnamed self.old.objects base } }
        ensures unchanged { IsFalse result → self.new ≡ self.old }
    {
        let place = ended_by(self.by_base.as_slice(), base);
        match self.by_base.get(place) {
            Some(object) if object.base == base => {}
            _ => return false,
        }
        self.by_base.remove(place);
        self.named.retain(|object| object.base != base);
        true
    }

    /// Names the objects of a task, in the order of its operands.
    pub fn name_all(&mut self, task: &Task)
        requires few { task.now.count ≤ MAX_OPERANDS }
        requires apart { CanNameAll self.old.limit self.old.objects (objects_of (operands_of task.now)) }
        ensures { self.new ≡ record self.old { objects = name_objects self.old.objects (objects_of (operands_of task.now)) } }
    {
        for operand in &task.operands[..task.count as usize] {
            self.name(operand.object);
        }
    }

    /// Whether the object is named: a named object has its base and its length.
    pub fn has(&self, object: &Range) -> bool
        ensures { result ≡ is_named self.now.objects object.now }
    {
        match self.neighbour(object.base) {
            Some(named) => *object == *named,
            None => false,
        }
    }

    /// Whether a named object shares an address with the range.
    pub fn touches(&self, r: &Range) -> bool
        ensures { result ≡ touches self.now.objects r.now }
    {
        match self.neighbour(r.base) {
            Some(named) => named.meets(r),
            None => false,
        }
    }

    /// Whether a named object shares an address with the object and isn't that object.
    pub fn overlaps(&self, object: &Range) -> bool
        ensures { result ≡ overlaps self.now.objects object.now }
    {
        match self.neighbour(object.base) {
            Some(named) => named.meets(object) && *named != *object,
            None => false,
        }
    }

    /// The named object with this base. None exactly where no named object has it.
    pub fn find(&self, base: u32) -> Option<Range>
        ensures { result ≡ named_at self.now.objects base }
    {
        match self.neighbour(base) {
            Some(named) if named.base == base => Some(*named),
            _ => None,
        }
    }

    /// Ends the epoch: nothing is named then.
    pub fn clear(&mut self)
        ensures { self.new ≡ record self.old { objects = [] } }
    {
        self.named.clear();
        self.by_base.clear();
    }

    /// How many objects are named: at most the limit.
    pub fn count(&self) -> u32
        ensures count { result ≡ length self.now.objects }
        ensures few { length self.now.objects ≤ self.now.limit }
    {
        self.named.len() as u32
    }

    /// Whether as many objects are named as may be.
    pub fn is_full(&self) -> bool
        ensures full { IsTrue result ↔ (length self.now.objects ≡ self.now.limit) }
        ensures few { length self.now.objects ≤ self.now.limit }
    {
        self.count() == self.limit
    }

    /// The object that was named at a place in order of naming, from 0. None exactly where no more are named.
    pub fn at(&self, i: u32) -> Option<Range>
        ensures { result ≡ slice_get self.now.objects i }
    {
        self.named.get(i as usize).copied()
    }

    /// The first object in address order that ends after an address. A named object meets a range that begins there only
    /// where this one does.
    fn neighbour(&self, at: u32) -> Option<&Range>
        ensures { IsNeighbour self.now.objects at (option_copied result) }
    {
        let place = ended_by(self.by_base.as_slice(), at);
        self.by_base.get(place)
    }
}
