// Labels: the numbers that a program gives out, and their places.
ghost use Rattle.std.specs.Prelude.{◌≡◌, None, IfOk, OnErr};
ghost use Rattle.std.specs.FinMap as map;
ghost use Rattle.tss_asm.specs.Labels.{placed, place_of, label_place};

use slab::Slab;
use std::alloc::Global;
use std::marker::Model;
use tss_base::NoMemory;

/// A label: a number under which a program keeps a place of its text. A label of another program counts as the one
/// with its number.
#[derive(Clone, Copy, Debug)]
pub struct Label {
    number: usize,
}

impl Model for Label {
    ghost use Rattle.std.specs.Prelude.{ℕ};

    ghost Value = { ℕ };

    ghost view = { λ l. l.number };

    ghost inverse = { λ n. record { number = n } };
}

/// The labels that were given out, each with its place once it has one: how many words of the text stand before it.
#[derive(Drop)]
pub struct Labels {
    places: Slab<Option<usize>>,
}

impl Model for Labels {
    ghost use Rattle.std.specs.Prelude.{ℕ, Option};
    ghost use Rattle.std.specs.FinMap as map;
    ghost use Rattle.std.specs.Coded.{coded_ℕ, coded_option};
    ghost use Rattle.tss_base.specs.Names.{Numbered};
    ghost use Rattle.tss_asm.specs.Labels.{labels_of};

    ghost Value = { Numbered (Option ℕ) };

    ghost coded = { map.code coded_ℕ (coded_option coded_ℕ) };

    ghost view = { λ l. labels_of l.places };
}

impl Labels {
    /// No label.
    pub fn new(alloc: Global) -> Labels
        ensures { result ≡ map.empty }
    {
        Labels {
            places: Slab::new(alloc),
        }
    }

    /// A label that wasn't given before, without a place.
    pub fn give(&mut self) -> Result<Label, NoMemory>
        ensures fresh { IfOk result (λ label. map.get self.old label ≡ None) }
        ensures given { IfOk result (λ label. self.new ≡ map.insert self.old label None) }
        ensures unchanged { OnErr result (self.new ≡ self.old) }
    {
        let number = self.places.insert(None)?;
        Ok(Label { number })
    }

    /// Places a label that was given. It replaces the place that it had.
    pub fn place(&mut self, label: Label, at: usize)
        ensures { self.new ≡ placed self.old label at }
    {
        if let Some(place) = self.places.get_mut(label.number) {
            *place = Some(at);
        }
    }

    /// The place of a label, or 0 where it has none.
    pub fn place_or_start(&self, label: Label) -> usize
        ensures { result ≡ label_place self.now label }
    {
        self.place_of(label).unwrap_or(0)
    }

    /// The place of a label, where it has one.
    pub fn place_of(&self, label: Label) -> Option<usize>
        ensures { result ≡ place_of self.now label }
    {
        match self.places.get(label.number) {
            Some(place) => *place,
            None => None,
        }
    }
}
