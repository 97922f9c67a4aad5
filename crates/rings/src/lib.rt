// The rings of channels: a token written to one, and one taken from it.
#![tactic(auto)]

ghost use Rattle.std.specs.Prelude.{◌≡◌, ◌<◌, ◌≤◌, get_or};
ghost use Rattle.layout.specs.Views.{channels_of, shape_of, cells_of};
ghost use Rattle.rings.specs.Rings.{wrapped, Rings};
ghost use Rattle.rings.specs.Access.{put_in, full_by, taken_in, oldest_in};

use layout::{Plan, Ring, Sort, State};

#[tactic(auto, unfolding(crate::specs::Rings::wrapped))]
fn wrap(x: u32, capacity: u32) -> u32
    ensures { result ≡ wrapped capacity x }
{
    if x < capacity { x } else { x - capacity }
}

// Writes a token to channel `c`: a queue appends it, a register keeps it. Answers `full`, or `c` where that is lower and there was no room:
// a number of a channel or, for none, of all channels, as the clause `answer` has it.
#[tactic(auto, using(crate::proofs::AccessLaws::ring_seen), unfolding(crate::specs::Rings::wrapped, crate::specs::Access::put_in, crate::specs::Access::full_by))]
pub fn put(plan: &Plan, state: &mut State, c: usize, v: i32, full: usize) -> usize
    requires { Rings (shape_of plan.now) (cells_of state.old) × (c < channels_of plan.now) }
    ensures after { state.new ≡ put_in plan.now state.old c v }
    ensures answer { result ≡ full_by plan.now state.old c full }
{
    let base = plan.base[c];
    let len = state.ring[c].len;
    let capacity = plan.capacity[c];
    match plan.sort[c] {
        Sort::Register => {
            state.tokens[base as usize] = v;
            full
        }
        Sort::Queue if len < capacity => {
            let at = wrap(state.ring[c].head + len, capacity);
            state.tokens[(base + at) as usize] = v;
            state.ring[c].len = len + 1;
            full
        }
        Sort::Queue => full.min(c),
    }
}

// Takes the oldest token of a queue, or reads a register.
#[tactic(auto, using(crate::proofs::AccessLaws::ring_seen), unfolding(crate::specs::Rings::wrapped, crate::specs::Access::taken_in, crate::specs::Access::oldest_in))]
pub fn take(plan: &Plan, state: &mut State, c: usize) -> i32
    requires { Rings (shape_of plan.now) (cells_of state.old) × (c < channels_of plan.now) × (1 ≤ get_or (cells_of state.old).len c 0) }
    ensures after { state.new ≡ taken_in plan.now state.old c }
    ensures answer { result ≡ oldest_in plan.now state.old c }
{
    let ring = state.ring[c];
    let v = state.tokens[(plan.base[c] + ring.head) as usize];
    if plan.sort[c] == Sort::Queue {
        state.ring[c] = Ring {
            head: wrap(ring.head + 1, plan.capacity[c]),
            len: ring.len - 1,
        };
    }
    v
}
