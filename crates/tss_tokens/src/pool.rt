// Pools, tokens, and pools that have ended.
ghost use Rattle.std.specs.Prelude.{◌≡◌, ◌+◌, ◌<◌, ◌↔◌, IfOk, IfSome, IfNone, IsNone, Some};
ghost use Rattle.std.specs.FinMap as map;
ghost use Rattle.tss_tokens.specs.Pool.{IsUsedUp, TakesPlace};

use std::alloc::Global;
use std::marker::Model;
use tss_base::NoMemory;

/// The right to a place of a pool. It can't be dropped: it is given back to its pool, or ended after the pool has ended.
pub struct Token {
    number: u32,
    place: u32,
}

impl Model for Token {
    ghost use Rattle.tss_tokens.specs.Pool.{TokenState};

    ghost Value = { TokenState };

    ghost view = { λ t. record { number = t.number; place = t.place } };
}

impl Token {
    /// The place.
    pub fn place(&self) -> u32
        ensures { result ≡ self.now.place }
    {
        self.place
    }

    /// Spends a token of a pool that has ended.
    pub fn end(self, ended: &Ended)
        requires { self.number ≡ ended.now }
    {
        let _ = ended;
        let Token {
            number: _,
            place: _,
        } = self;
    }
}

/// A pool that has ended.
#[derive(Drop)]
pub struct Ended {
    number: u32,
}

impl Model for Ended {
    ghost use Rattle.std.specs.Prelude.{ℕ};

    ghost Value = { ℕ };

    ghost view = { λ e. e.number };
}

/// Places with the numbers from 0 to below a size, each free or out. Each place out has one token.
#[derive(Drop)]
pub struct Pool {
    number: u32,
    size: u32,
    free: Vec<u32>,
}

impl Model for Pool {
    ghost use Rattle.std.specs.Prelude.{◌≡◌, ◌+◌, ◌≤◌, ◌^◌, ◌<◌, length};
    ghost use Rattle.tss_tokens.specs.Pool.{PoolState, pool_code, places_out, IsPool};

    ghost Value = { PoolState };

    ghost coded = { pool_code };

    ghost view = { λ p. record { number = p.number; size = p.size; out = places_out p.size p.free.items } };

    ghost invariant = { λ p. IsPool p.size p.free };
}

impl Pool {
    /// A pool with `size` places, all of them free. Its tokens have its number.
    pub fn open(alloc: Global, number: u32, size: u32) -> Result<Pool, NoMemory>
        ensures { IfOk result (λ p. p ≡ record { number = number; size = size; out = map.empty }) }
    {
        let mut free = Vec::with_capacity(alloc, size as usize)?;
        // The lowest place stands last, so that it is taken first.
        for place in (0..size).rev() {
            match free.push(place) {
                Ok(()) => {}
                Err(_) => unreachable!(),
            }
        }
        Ok(Pool { number, size, free })
    }

    /// Takes a free place, any of them.
    pub fn take(&mut self) -> Option<Token>
        ensures none { IsNone result ↔ IsUsedUp self.old }
        ensures count { IsNone result ↔ (map.len self.old.out ≡ self.old.size) }
        ensures taken { IfSome result (TakesPlace self.old self.new) }
        ensures unchanged { IfNone result (self.new ≡ self.old) }
    {
        let place = self.free.pop()?;
        Some(Token {
            number: self.number,
            place,
        })
    }

    /// Takes a token back: its place is free again.
    pub fn give(&mut self, token: Token)
        requires number { token.number ≡ self.old.number }
        requires out { map.get self.old.out token.place ≡ Some tt }
        ensures { self.new ≡ record self.old { out = map.remove self.old.out token.place } }
    {
        let Token { number: _, place } = token;
        match self.free.push(place) {
            Ok(()) => {}
            Err(_) => unreachable!(),
        }
    }

    /// How many places are free.
    pub fn free(&self) -> u32
        ensures { result + map.len self.now.out ≡ self.now.size }
    {
        self.free.len() as u32
    }

    /// Ends the pool, also where places are out: their tokens can then be ended.
    pub fn end(self) -> Ended
        ensures { result ≡ self.number }
    {
        let Pool {
            number,
            size: _,
            free: _,
        } = self;
        Ended { number }
    }
}

#[cfg(test)]
mod tests {
    use super::*;
    use std::test::Fail;

    #[test]
    fn one_place_is_out_once(rt: HostRuntime) -> Result<(), Fail> {
        let mut pool = Pool::open(rt.alloc(), 3, 1)?;
        for _ in 0..2 {
            assert_eq!(rt; pool.free(), 1);
            match pool.take() {
                Some(token) => {
                    assert_eq!(rt; token.place(), 0);
                    assert_eq!(rt; pool.free(), 0);
                    match pool.take() {
                        Some(second) => {
                            assert!(rt; false, "the place is out twice");
                            pool.give(second);
                        }
                        None => {}
                    }
                    pool.give(token);
                }
                None => assert!(rt; false, "no place is free"),
            }
        }
        let _ended = pool.end();
        Ok(())
    }

    #[test]
    fn tokens_know_their_pools(rt: HostRuntime) -> Result<(), Fail> {
        let mut ending = Pool::open(rt.alloc(), 4, 2)?;
        let mut lasting = Pool::open(rt.alloc(), 5, 2)?;
        let Some(first) = ending.take() else {
            assert!(rt; false, "no place is free");
            return Ok(());
        };
        match lasting.take() {
            Some(second) => {
                assert_eq!(rt; first.place(), second.place());
                lasting.give(second);
                assert_eq!(rt; lasting.free(), 2);
            }
            None => assert!(rt; false, "no place is free"),
        }
        let ended = ending.end();
        first.end(&ended);
        Ok(())
    }
}
