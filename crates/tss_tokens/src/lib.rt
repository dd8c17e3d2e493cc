//! Pools of numbered places, and the tokens of the places that are out. A contract sees a pool as its number, its size
//! and the set of the places out, a token as its pool's number and its place, and an ended pool as its number. A token
//! can't be dropped: `Pool::give` and `Token::end` spend it. Which unit holds which token is left to the units.
#![tactic(auto)]

mod pool;

pub use pool::{Ended, Pool, Token};
