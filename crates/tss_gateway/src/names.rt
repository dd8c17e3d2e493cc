// Names of operands in a list of fixed room, and the runs of names of one task.
ghost use Rattle.std.specs.Prelude.{◌≡◌, ◌<◌, ◌≤◌, ◌+◌, None, Some, MatchOption, drop, length, slice_get};
ghost use Rattle.std.specs.FinMap.Entries.{find};
ghost use Rattle.tss_base.specs.Names.{name_cmp};
ghost use Rattle.tss_gateway.specs.Names.{names_in, pairs_of, run_at};

use tss_base::OpName;

/// How many names there is room for: those of eight tasks with seven operands each.
pub const ROOM: usize = 56;

/// A name that is held.
#[derive(Clone, Copy, Debug, PartialEq, Eq)]
pub struct Held {
    pub name: OpName,
}

impl Default for Held {
    fn default() -> Self {
        Held {
            name: OpName { task: 0, place: 0 },
        }
    }
}

/// The place of a name.
pub fn place_of(held: &[Held], o: OpName) -> Option<usize>
    ensures { MatchOption result (find name_cmp o (pairs_of (names_in held.now)) ≡ None) (λ i. slice_get (names_in held.now) i ≡ Some o) }
{
    for place in 0..held.len() {
        if held[place].name == o {
            return Some(place);
        }
    }
    None
}

/// How many names of one task stand from a place on.
pub fn run_length(held: &[Held], start: usize) -> usize
    requires { start < length held.now }
    ensures exact { result ≡ run_at (names_in held.now) start }
    ensures within { start + result ≤ length held.now }
    ensures some { 1 ≤ result }
{
    let task = held[start].name.task;
    let mut more = 1;
    for place in start + 1..held.len() {
        if held[place].name.task != task {
            return more;
        }
        more += 1;
    }
    more
}
