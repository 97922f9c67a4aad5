// One instant of a run, in the steps of document 01's "One instant", a function for each, on the plan and the state that a run lends. The plan is
// lent beside the state: that it stays is then in its type, and would else be a clause of each function here. What is asked of the two (`AbleIn`,
// `Whole`, `Timely`) is no invariant of a type: `rings` asks `RingsIn` alone, an instant breaks `Timely` and mends it, and `setup` makes the plan
// before the state. So what is asked of an instant, a pair, a node or a channel stands with each function too.
#![tactic(auto)]

ghost use Rattle.std.specs.Prelude.{◌≡◌, ℕ, ◌↔◌, IsTrue, ◌+◌, ◌*◌, ◌^◌, ◌≤◌, ◌<◌, min, length, get_or};
ghost use Rattle.rules.specs.Kinds.{pattern};
ghost use Rattle.kinds.specs.Nodes.{seen};
ghost use Rattle.layout.specs.Views.{nodes_of, channels_of, shape_of, wires_of, ways_of, cells_of, pendings_of, soons_of, nodes_from};
ghost use Rattle.arrays.specs.Writes.{Climbs};
ghost use Rattle.arrays.specs.Taking.{port_of, Ported};
ghost use Rattle.arrays.specs.Nodes.{pending_at, pair_soon, Releasable, Released};
ghost use Rattle.arrays.specs.Instants.{AbleIn, RingsIn, Whole, Timely, OnChannels};
ghost use Rattle.arrays.specs.Turns.{WroteAlong, WroteOn, WroteAll, GatheredIn, TurnedIn, PairTurned, PairRead, ReadAll};
ghost use Rattle.steps.specs.Steps.{WroteStamped, holds_at, TookIn, RestSays, InstantSays};

use kinds::{NEVER, Pending};
use layout::{NONE, Plan, State};

// ---- Step 1: writes

// The lowest channel without room is a number, and the number of channels where there is none, as `rings::put` has it and `WroteAll` says it.

// Writes a token to each channel of a walk. Answers the lowest one without room, or `before` where that is lower. A walk ends at a number, since
// with an Option at its end an activation takes 93.4 instructions, where its bar is 93 (docs/DESIGN-PASS.md).
fn put_all(plan: &Plan, state: &mut State, first: u32, v: i32, before: usize) -> usize
    requires { RingsIn plan.now state.old × Climbs (channels_of plan.now) (ways_of plan.now).follow first × (before ≤ channels_of plan.now) }
    ensures { WroteAlong plan.now state.old first (pattern v) before state.new result }
{
    let mut full = before;
    let mut c = first;
    while c < NONE {
        full = rings::put(plan, state, c as usize, v, full);
        c = plan.follow[c as usize];
    }
    full
}

// Writes the results of a pair of nodes that are due. A loop, so that the writing stands once in the program.
fn write_pair(plan: &Plan, state: &mut State, t: u32, pair: usize, before: usize) -> usize
    requires { AbleIn plan.now × Whole plan.now state.old × (t < 2 ^ 24) × (2 * pair < nodes_of plan.now) × (before ≤ channels_of plan.now) }
    ensures { WroteOn plan.now state.old t (2 * pair) (min (2 * pair + 2) (nodes_of plan.now)) before state.new result }
{
    let mut full = before;
    for n in 2 * pair..2 * pair + 2 {
        if state.due[n] == t {
            let v = state.value[n];
            full = put_all(plan, state, plan.node[n].first, v, full);
        }
    }
    full
}

// Writes the results that are due, in a loop like that of `read_all`: see there. Answers the lowest channel without room, or the number of channels.
fn write_due(plan: &Plan, state: &mut State, t: u32) -> usize
    requires { AbleIn plan.now × Whole plan.now state.old × Timely plan.now state.old t }
    ensures { WroteAll plan.now state.old t state.new result }
{
    let mut full = plan.channels as usize;
    for pair in 0..(plan.nodes as usize).div_ceil(2) {
        if state.soon[pair] == t {
            full = write_pair(plan, state, t, pair, full);
        }
    }
    full
}

// Where the arrivals go on, the time of the one there, if there is one, and the lowest channel without room.
#[derive(Clone, Copy)]
struct Arrived {
    next: usize,
    time: Option<u32>,
    full: usize,
}

// Writes the arrivals from index `from` on that are stamped now.
fn write_arrivals(
    plan: &Plan,
    state: &mut State,
    arrivals: &[u64],
    from: usize,
    t: u32,
    before: usize,
) -> Arrived
    requires { RingsIn plan.now state.old × OnChannels (channels_of plan.now) arrivals.now × (from ≤ length arrivals.now) × (before ≤ channels_of plan.now) }
    ensures { WroteStamped plan.now state.old arrivals.now from t before state.new result }
{
    let mut full = before;
    for next in from..arrivals.len() {
        let w = arrivals[next];
        let time = words::time_in(w);
        if time != t {
            return Arrived {
                next,
                time: Some(time),
                full,
            };
        }
        full = rings::put(plan, state, words::channel_in(w), words::value_in(w), full);
    }
    Arrived {
        next: arrivals.len(),
        time: None,
        full,
    }
}

// ---- Step 3: words

// This instant's output words, by channel number, first in `words`; answers how many. A writer is the number of its record, and no node from 32 on, as
// `Wired` has it. `words` is lent, and filled from its front: made here it would be cleared at each instant.
fn gather(plan: &Plan, state: &State, t: u32, words: &mut [u64; 64]) -> usize
    requires { Climbs (channels_of plan.now) (ways_of plan.now).follow_out (ways_of plan.now).first_out × (t < 2 ^ 24) × (length words.old ≡ 64) }
    ensures { GatheredIn plan.now state.now t words.new result × (length words.new ≡ 64) }
{
    let mut count = 0;
    let mut c = plan.out;
    while c < NONE {
        let n = plan.writer[c as usize] as usize;
        if n < 32 && state.due[n] == t {
            words[count] = words::word(c as usize, t, state.value[n]);
            count += 1;
        }
        c = plan.outs[c as usize];
    }
    count
}

// Copies an instant's words into as many entries. Most instants have none, and then there is nothing to call for.
fn copy_out(words: &[u64], entries: &mut [u64])
    requires { length words.now ≡ length entries.old }
    ensures { entries.new ≡ words.now }
{
    if !words.is_empty() {
        entries.copy_from_slice(words);
    }
}

// ---- Step 4: reads

// The channel at port `p` of node `n`.
fn port(plan: &Plan, n: usize, p: usize) -> usize
    requires { (n < 32) × (p < 4) }
    ensures { result ≡ port_of (wires_of plan.now).input n p }
{
    plan.node[n].input[p] as usize
}

// Whether the channel at port `p` of node `n` holds a token.
fn holds(plan: &Plan, state: &State, n: usize, p: usize) -> bool
    requires { (n < 32) × (p < 4) × (port_of (wires_of plan.now).input n p < 64) }
    ensures { result ≡ holds_at plan.now state.now n p }
{
    state.ring[port(plan, n, p)].len != 0
}

// Whether each of the `N` ports of node `n` holds a token.
fn all_hold<const N: usize>(plan: &Plan, state: &State, n: usize) -> bool
    requires { RingsIn plan.now state.now × (n < 32) × Ported (channels_of plan.now) (wires_of plan.now).input n N }
    ensures { IsTrue result ↔ ((p : ℕ) → p < N → IsTrue (holds_at plan.now state.now n p)) }
{
    (0..N).all(|p| holds(plan, state, n, p))
}

// The tokens of a node with `N` inputs, taken, if every one of its ports holds one.
fn take_all<const N: usize>(plan: &Plan, state: &mut State, n: usize) -> Option<[i32; N]>
    requires { RingsIn plan.now state.old × (n < 32) × Ported (channels_of plan.now) (wires_of plan.now).input n N }
    ensures { TookIn plan.now state.old n N state.new result }
{
    if !all_hold::<N>(plan, state, n) {
        return None;
    }
    let mut tokens = [0; N];
    for p in 0..N {
        tokens[p] = rings::take(plan, state, port(plan, n, p));
    }
    Some(tokens)
}

// Those of a node by the number of its inputs, and 0 for the ports that it has not. A match, since with a loop over a number of ports that is not
// known before an activation takes 103 to 106 instructions, where its bar is 93 (docs/DESIGN-PASS.md).
fn take_inputs(plan: &Plan, state: &mut State, n: usize, count: u32) -> Option<[i32; 3]>
    requires { RingsIn plan.now state.old × (n < 32) × Ported (channels_of plan.now) (wires_of plan.now).input n count }
    ensures { TookIn plan.now state.old n count state.new result }
{
    match count {
        0 => Some([0, 0, 0]),
        1 => {
            let [a] = take_all::<1>(plan, state, n)?;
            Some([a, 0, 0])
        }
        2 => {
            let [a, b] = take_all::<2>(plan, state, n)?;
            Some([a, b, 0])
        }
        _ => take_all::<3>(plan, state, n),
    }
}

// A release of node `n`, whose next release and waiting result are `before`.
fn release(plan: &Plan, state: &mut State, before: Pending, n: usize) -> Pending
    requires { RingsIn plan.now state.old × Releasable (channels_of plan.now) (wires_of plan.now) n (seen before) }
    ensures released { Released (wires_of plan.now) (shape_of plan.now) (cells_of state.old) n (seen before) (cells_of state.new) (seen result) }
    ensures nodes { nodes_from state.new ≡ nodes_from state.old }
{
    let node = &plan.node[n];
    match take_inputs(plan, state, n, node.count) {
        Some(tokens) => {
            let [a, b, c] = tokens;
            let made = node.kind.result(node.constant, a, b, c);
            before.released(node.period, node.deadline, made)
        }
        None => before.skipped(node.period),
    }
}

// Node `n`'s turn to read at its next release, before which its next release and waiting result are `before`. Answers as `turn` does.
fn turn_released(plan: &Plan, state: &mut State, before: Pending, n: usize) -> u32
    requires { Whole plan.now state.old × Releasable (channels_of plan.now) (wires_of plan.now) n (seen before) × (seen before ≡ pending_at (pendings_of state.old) n) }
    ensures { TurnedIn plan.now state.old before.next n state.new result }
{
    let after = release(plan, state, before, n);
    state.next[n] = after.next;
    state.due[n] = after.due;
    state.value[n] = after.value;
    after.soon()
}

// Node `n`'s turn to read. Answers the earlier of its next release and its due instant.
fn turn(plan: &Plan, state: &mut State, t: u32, n: usize) -> u32
    requires { AbleIn plan.now × Whole plan.now state.old × (t < 2 ^ 24) × (n < 32) }
    ensures { TurnedIn plan.now state.old t n state.new result }
{
    let before = Pending {
        next: state.next[n],
        due: state.due[n],
        value: state.value[n],
    };
    if before.next == t {
        return turn_released(plan, state, before, n);
    }
    if before.due == t {
        let after = before.written();
        state.due[n] = after.due;
        return after.soon();
    }
    before.soon()
}

// The turns of a pair of nodes. Answers the earliest instant of the pair then. A loop, so that the turn stands once in the program.
fn turn_pair(plan: &Plan, state: &mut State, t: u32, pair: usize) -> u32
    requires { AbleIn plan.now × Whole plan.now state.old × (t < 2 ^ 24) × (2 * pair < nodes_of plan.now) }
    ensures turned { PairTurned plan.now state.old t pair state.new result }
    ensures soons { soons_of state.new ≡ soons_of state.old }
{
    let mut soon = NEVER;
    for n in 2 * pair..2 * pair + 2 {
        soon = soon.min(turn(plan, state, t, n));
    }
    soon
}

// The reads of a pair, which has its turn only where it is due. Answers the earliest instant of the pair then.
fn read_pair(plan: &Plan, state: &mut State, t: u32, pair: usize) -> u32
    requires whole { AbleIn plan.now × Whole plan.now state.old × (t < 2 ^ 24) × (2 * pair < nodes_of plan.now) }
    requires timely { (get_or (soons_of state.old) pair 0 ≡ pair_soon (pendings_of state.old) pair) × (t ≤ pair_soon (pendings_of state.old) pair) }
    ensures { PairRead plan.now state.old t pair state.new result }
{
    let soon = state.soon[pair];
    if soon == t {
        let then = turn_pair(plan, state, t, pair);
        state.soon[pair] = then;
        return then;
    }
    soon
}

// The reads: a loop like that of `write_due` with another step, which is no longer than a call with a closure. Answers the earliest instant at
// which a node is then released or due, or `from` if that is earlier.
fn read_all(plan: &Plan, state: &mut State, t: u32, from: u32) -> u32
    requires { AbleIn plan.now × Whole plan.now state.old × Timely plan.now state.old t }
    ensures { ReadAll plan.now state.old t from state.new result }
{
    let mut soon = from;
    for pair in 0..(plan.nodes as usize).div_ceil(2) {
        soon = soon.min(read_pair(plan, state, t, pair));
    }
    soon
}

// ---- One instant

// An instant that goes on: how many words it had, where the arrivals go on, and the next instant at which something happens.
#[derive(Clone, Copy, Debug, PartialEq, Eq)]
pub struct On {
    pub more: usize,
    pub next: usize,
    pub soon: u32,
}

// Why an instant stops the run: a full queue, or too many words.
#[derive(Clone, Copy, Debug, PartialEq, Eq)]
pub enum Stop {
    Full(usize),
    Short,
}

// The words and the reads, once no queue is overfull. The list and the count of its words stand apart here and in `instant`, whose clause `says` has
// them so, and so do the arrivals and where they go on; its clause `kept` is of the length that the type of `words` has.
fn words_and_reads(
    plan: &Plan,
    state: &mut State,
    arrived: Arrived,
    t: u32,
    words: &mut [u64; 64],
    list: &mut [u64],
    count: usize,
) -> Result<On, Stop>
    requires { AbleIn plan.now × Whole plan.now state.old × Timely plan.now state.old t × (count ≤ length list.old) × (length words.old ≡ 64) }
    ensures says { RestSays plan.now state.old arrived t list.old count result list.new state.new }
    ensures kept { length words.new ≡ 64 }
{
    let more = gather(plan, state, t, words);
    if list.len() - count < more {
        return Err(Stop::Short);
    }
    copy_out(&words[..more], &mut list[count..count + more]);
    let soon = read_all(plan, state, t, arrived.time.unwrap_or(NEVER));
    Ok(On {
        more,
        next: arrived.next,
        soon,
    })
}

// One instant: the writes, the overfull check, the words and the reads.
pub fn instant(
    plan: &Plan,
    state: &mut State,
    arrivals: &[u64],
    from: usize,
    t: u32,
    words: &mut [u64; 64],
    list: &mut [u64],
    count: usize,
) -> Result<On, Stop>
    requires arrays { AbleIn plan.now × Whole plan.now state.old × Timely plan.now state.old t × (length words.old ≡ 64) }
    requires lists { OnChannels (channels_of plan.now) arrivals.now × (from ≤ length arrivals.now) × (count ≤ length list.old) }
    ensures says { InstantSays arrivals.now plan.now state.old from t list.old count result list.new state.new }
    ensures kept { length words.new ≡ 64 }
{
    let due = write_due(plan, state, t);
    let arrived = write_arrivals(plan, state, arrivals, from, t, due);
    let full = arrived.full;
    if full < plan.channels as usize {
        return Err(Stop::Full(full));
    }
    words_and_reads(plan, state, arrived, t, words, list, count)
}
