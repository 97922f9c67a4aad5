// The second entry point: a run of a table from instant 0 to the horizon. From an instant the run goes straight to the next one at which
// something happens.
#![tactic(auto)]

ghost use Rattle.std.specs.Prelude.{◌≡◌, ◌-◌, ◌^◌, ◌≤◌, ◌<◌, ◌&&◌, ltb, length, get_or};
ghost use Rattle.rules.specs.Instant.{time_in};
ghost use Rattle.rules.specs.Refusals.{run};
ghost use Rattle.layout.specs.Views.{channels_of};
ghost use Rattle.setup.specs.Starts.{Lawful};
ghost use Rattle.engine.specs.Arrivals.{faulty_by, FirstFaulty};
ghost use Rattle.engine.specs.Runs.{end_at, RunOf, Startable, RunsThrough, RunsRead};

use layout::{Plan, State};
use rules::{End, OUTSIDE, Ran, Refusal};
use steps::Stop;
use table::Network;

// ---- The arrivals

// Whether arrival `i` is earlier than the one before it.
fn too_early(arrivals: &[u64], i: usize) -> bool
    requires { i < length arrivals.now }
    ensures { result ≡ ltb 0 i && ltb (time_in (get_or arrivals.now i 0)) (time_in (get_or arrivals.now (i - 1) 0)) }
{
    i > 0 && words::time_in(arrivals[i]) < words::time_in(arrivals[i - 1])
}

// Whether arrival `i` is faulty. A writer is the number of its record, as `faulty_by` has it.
#[tactic(auto, unfolding(crate::specs::Arrivals::faulty_by))]
fn arrival_faulty(plan: &Plan, arrivals: &[u64], i: usize) -> bool
    requires { (channels_of plan.now ≤ 64) × (i < length arrivals.now) }
    ensures { result ≡ faulty_by plan.now arrivals.now i }
{
    let c = words::channel_in(arrivals[i]);
    c >= plan.channels as usize || plan.writer[c] != OUTSIDE || too_early(arrivals, i)
}

// The lowest index of a faulty arrival, if there is one.
fn faulty_arrival(plan: &Plan, arrivals: &[u64]) -> Option<usize>
    requires { channels_of plan.now ≤ 64 }
    ensures { FirstFaulty plan.now arrivals.now result }
{
    (0..arrivals.len()).find(|i| arrival_faulty(plan, arrivals, *i))
}

// ---- The run

// How a run ends that an instant stops.
fn end_at(stop: Stop, instant: usize) -> End
    ensures { result ≡ end_at stop instant }
{
    match stop {
        Stop::Full(channel) => End::Overfull { instant, channel },
        Stop::Short => End::NoRoom { instant },
    }
}

// Runs a plan and a state over the instants up to the horizon at which something happens. The list and the count of its words stand apart, as
// `steps::instant` has them.
#[tactic(auto, using(crate::proofs::RunLaws::progress_start, crate::proofs::RunLaws::run_ends))]
fn run_prepared(
    plan: &Plan,
    state: &mut State,
    horizon: u32,
    arrivals: &[u64],
    list: &mut [u64],
) -> Ran
    requires { (horizon < 2 ^ 24) × Startable plan.now state.old arrivals.now }
    ensures { RunsThrough plan.now state.old horizon arrivals.now list.old list.new result }
{
    let mut words = [0u64; 64];
    let mut t = 0;
    let mut from = 0;
    let mut count = 0;
    while t <= horizon {
        match steps::instant(plan, state, arrivals, from, t, &mut words, list, count) {
            Ok(on) => {
                count += on.more;
                from = on.next;
                t = on.soon;
            }
            Err(stop) => {
                return Ran {
                    count,
                    end: end_at(stop, t as usize),
                };
            }
        }
    }
    Ran {
        count,
        end: End::Horizon,
    }
}

// Runs a network that was read: the horizon and the arrivals are checked first. The hint keeps the stack that a run takes within the header's
// figure.
#[inline(never)]
fn run_taken(
    network: &Network,
    horizon: usize,
    arrivals: &[u64],
    list: &mut [u64],
) -> Result<Ran, Refusal>
    requires { Lawful network.now }
    ensures { RunsRead network.now horizon arrivals.now list.old list.new result }
{
    let late = 16777215 < horizon;
    if late {
        return Err(Refusal::Horizon);
    }
    let mut plan = Plan::default();
    let mut state = State::default();
    setup::prepare(network, &mut plan, &mut state);
    if let Some(faulty) = faulty_arrival(&plan, arrivals) {
        return Err(Refusal::Arrival(faulty));
    }
    Ok(run_prepared(&plan, &mut state, horizon as u32, arrivals, list))
}

// The second entry point: a run of a table from instant 0 to the horizon, both included. The words go to the front of the list.
#[tactic(auto, unfolding(rules::specs::Refusals::run, rules::specs::Refusals::run_from), using(crate::proofs::EntryLaws::laid_lawful))]
pub fn run(table: &[u8], horizon: usize, arrivals: &[u64], list: &mut [u64]) -> Result<Ran, Refusal>
    ensures { RunOf (run table.now horizon arrivals.now (length list.old)) list.old list.new result }
{
    let network = table::unpack(table)?;
    run_taken(&network, horizon, arrivals, list)
}
