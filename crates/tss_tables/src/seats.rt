// Tables over the places 0 to n - 1.
ghost use Rattle.std.specs.Prelude.{◌≡◌, ◌<◌, ◌≤◌, ◌↔◌, None, Some, IfOk, IsSome, IsTrue, is_some, option_map};
ghost use Rattle.std.specs.FinMap as map;
ghost use Rattle.std.specs.Borrow.{sem};
ghost use Rattle.std.specs.Option.{option_copied_mut};
ghost use Rattle.std.specs.Option.Follows.{option_follows_value};
ghost use Rattle.tss_tables.specs.SeatsLends.{lends_seat, lends_value};

use std::alloc::Global;
use std::marker::Model;
use std::mem;
use tss_base::NoMemory;

/// What stands at the places 0 to n - 1. A contract sees n as its size, and what stands at the places as a map.
#[derive(Drop)]
pub struct Seats<V> {
    seats: Vec<Option<V>>,
    taken: u32,
}

impl<V> Model for Seats<V> {
    ghost use Rattle.std.specs.Ordering.{nat_cmp};
    ghost use Rattle.std.specs.Coded.{coded_ℕ};
    ghost use Rattle.tss_tables.specs.Table.{TableState, table_code};
    ghost use Rattle.tss_tables.specs.Seats.{seats_of, AreSeats};

    ghost Value = { TableState nat_cmp V };

    ghost coded = { table_code coded_ℕ V.code };

    ghost view = { λ s. seats_of s.seats.items };

    ghost invariant = { λ s. AreSeats s.seats.items s.taken };
}

/// The value in a seat that is taken, for writing.
fn value_in<V>(seat: &mut Option<V>) -> &mut V
    requires { IsSome seat.old }
    ensures* writes_back { sem 𝓛 (option_follows_value V.row seat.entry result) }
    ensures value { seat.old ≡ Some result.now }
{
    match seat {
        Some(value) => value,
        None => unreachable!(),
    }
}

impl<V> Seats<V> {
    /// `size` places, all of them free.
    pub fn open(alloc: Global, size: u32) -> Result<Seats<V>, NoMemory>
        ensures { IfOk result (λ s. s ≡ record { size = size; entries = map.empty }) }
    {
        let Ok(mut seats) = Vec::with_capacity(alloc, size as usize) else {
            return Err(NoMemory);
        };
        for _ in 0..size {
            match seats.push(None) {
                Ok(()) => {}
                Err(_) => unreachable!(),
            }
        }
        Ok(Seats { seats, taken: 0 })
    }

    /// How many places there are.
    pub fn size(&self) -> u32
        ensures { result ≡ self.now.size }
    {
        self.seats.len() as u32
    }

    /// At how many places something stands.
    pub fn len(&self) -> u32
        ensures exact { result ≡ map.len self.now.entries }
        ensures within { map.len self.now.entries ≤ self.now.size }
    {
        self.taken
    }

    /// What stands at a place.
    pub fn get(&self, place: u32) -> Option<&V>
        ensures { option_map (λ x. x.now) result ≡ map.get self.now.entries place }
    {
        self.seats.get(place as usize)?.as_ref()
    }

    /// What stands at a place, for writing: the place ends with the value that is left there.
    pub fn get_mut(&mut self, place: u32) -> Option<&mut V>
        ensures* writes_back { sem 𝓛 (lends_seat V.row self.entry place result) }
        ensures value { option_copied_mut result ≡ map.get self.old.entries place }
    {
        if self.has(place) {
            Some(self.value_mut(place))
        } else {
            None
        }
    }

    /// The value at a place where one stands, for writing.
    fn value_mut(&mut self, place: u32) -> &mut V
        requires { IsSome (map.get self.old.entries place) }
        ensures* writes_back { sem 𝓛 (lends_value V.row self.entry place result) }
        ensures value { map.get self.old.entries place ≡ Some result.now }
    {
        value_in(&mut self.seats[place as usize])
    }

    /// Whether something stands at a place.
    pub fn has(&self, place: u32) -> bool
        ensures { result ≡ is_some (map.get self.now.entries place) }
    {
        self.get(place).is_some()
    }

    /// Puts a value at a free place.
    pub fn add(&mut self, place: u32, value: V)
        requires within { place < self.old.size }
        requires free { map.get self.old.entries place ≡ None }
        ensures { self.new ≡ record self.old { entries = map.insert self.old.entries place value } }
    {
        match mem::replace(&mut self.seats[place as usize], Some(value)) {
            None => {}
            Some(_) => unreachable!(),
        }
        self.taken += 1;
    }

    /// Puts a value in the place of the one that stands there, which it hands back.
    pub fn replace(&mut self, place: u32, value: V) -> V
        requires { IsSome (map.get self.old.entries place) }
        ensures handed_back { map.get self.old.entries place ≡ Some result }
        ensures written { self.new ≡ record self.old { entries = map.insert self.old.entries place value } }
    {
        match mem::replace(&mut self.seats[place as usize], Some(value)) {
            Some(old) => old,
            None => unreachable!(),
        }
    }

    /// Takes out what stands at a place.
    pub fn remove(&mut self, place: u32) -> Option<V>
        requires { place < self.old.size }
        ensures exact { result ≡ map.get self.old.entries place }
        ensures others { self.new ≡ record self.old { entries = map.remove self.old.entries place } }
    {
        match self.seats[place as usize].take() {
            Some(value) => {
                self.taken -= 1;
                Some(value)
            }
            None => None,
        }
    }

    /// Ends the places, where nothing stands at any.
    pub fn close(self)
        requires { map.len self.entries ≡ 0 }
    {
        let Seats {
            mut seats,
            taken: _,
        } = self;
        while let Some(seat) = seats.pop() {
            match seat {
                None => {}
                Some(_) => unreachable!(),
            }
        }
        seats.destroy_empty();
    }
}
