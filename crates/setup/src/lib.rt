// The plan and the state of a run before its first instant, from a table that was read.
#![tactic(auto)]

ghost use Rattle.std.specs.Prelude.{◌≡◌, ℕ, ◌≤◌, ◌<◌, length, map};
ghost use Rattle.rules.specs.Lists.{tab, total};
ghost use Rattle.rules.specs.Network.{Network as Rules, Obeys, node_among, channel_among};
ghost use Rattle.kinds.specs.Kind.{kind_number};
ghost use Rattle.layout.specs.Views.{sort_number};
ghost use Rattle.table.specs.Laid.{laid};
ghost use Rattle.setup.specs.Setup.{BasesOf, PortsOf, WalksOf, ReleasesOf};
ghost use Rattle.setup.specs.Fields.{Fits, StationOf, PlanFields, StateFields};
ghost use Rattle.setup.specs.Starts.{Lawful, Starts};

use kinds::Kind;
use layout::{NONE, Plan, Ring, Sort, State, Station};
use rules::{Channel, Node};
use std::array::from_fn;
use std::mem;
use table::Network;

// Nodes have numbers below this: any other, as a writer or a reader, is the outside. A number, as the record of a channel has it (`channel_at`).
const MOST_NODES: u32 = 32;

// ---- Of the channels and the nodes

// The channels are lent as a slice of those that are there, at most 64 as `Fits` has it: no type of a slice says so.

// What a channel does, by the one bit of its record: no number is refused, so this is no `TryFrom`.
fn sort_of(channel: &Channel) -> Sort
    requires { channel.now.sort < 2 }
    ensures { sort_number result ≡ channel.now.sort }
{
    match channel.sort {
        0 => Sort::Queue,
        _ => Sort::Register,
    }
}

// What each channel does with its tokens, by the number in its record.
fn sorts(channels: &[Channel; 64]) -> [Sort; 64]
    requires { (c : ℕ) → c < 64 → (channel_among channels.now c).sort < 2 }
    ensures { map sort_number result ≡ tab 64 (λ c. (channel_among channels.now c).sort) }
{
    from_fn(|c| sort_of(&channels[c]))
}

// The base of each ring: the capacities of the channels before it together.
#[tactic(auto, unfolding(rules::specs::Lists::total))]
fn bases(channels: &[Channel]) -> [u32; 64]
    requires { (length channels.now ≤ 64) × (total (length channels.now) (λ c. (channel_among channels.now c).capacity) ≤ 1024) }
    ensures { BasesOf (length channels.now) channels.now result }
{
    let mut base = [0; 64];
    let mut sum = 0;
    for (c, channel) in channels.iter().enumerate() {
        base[c] = sum;
        sum += channel.capacity;
    }
    base
}

// The channel at each port of each node: the last one that serves it. A reader is a number, from MOST_NODES on the outside.
fn inputs(channels: &[Channel]) -> [[u32; 4]; 32]
    requires { (length channels.now ≤ 64) × ((c : ℕ) → c < length channels.now → (channel_among channels.now c).port < 4) }
    ensures { PortsOf (length channels.now) channels.now result }
{
    let mut input = [[0; 4]; 32];
    for (c, channel) in channels.iter().enumerate() {
        if channel.reader < MOST_NODES {
            input[channel.reader as usize][channel.port as usize] = c as u32;
        }
    }
    input
}

// Walks over the channels in order. Those that a node writes and a node reads: the first one of each node, and the one behind each. Those that
// the outside reads: the first one, and the one behind each.
struct Ways {
    first: [u32; 32],
    follow: [u32; 64],
    out: u32,
    outs: [u32; 64],
}

// They are made from the last channel to the first, so that each one leads to what was the first. Writers are numbers as in `inputs`.
fn walks(channels: &[Channel]) -> Ways
    requires { length channels.now ≤ 64 }
    ensures { WalksOf channels.now result.first result.follow result.out result.outs }
{
    let mut first = [NONE; 32];
    let mut follow = [NONE; 64];
    let mut out = NONE;
    let mut outs = [NONE; 64];
    for (c, channel) in channels.iter().enumerate().rev() {
        if MOST_NODES <= channel.reader {
            outs[c] = mem::replace(&mut out, c as u32);
        } else if channel.writer < MOST_NODES {
            follow[c] = mem::replace(&mut first[channel.writer as usize], c as u32);
        }
    }
    Ways {
        first,
        follow,
        out,
        outs,
    }
}

// Each node's next release: 0, and NEVER, a number as there, for nodes that are not there.
fn releases(nodes: usize) -> [u32; 32]
    requires { nodes ≤ 32 }
    ensures { ReleasesOf nodes 32 result }
{
    let mut next = [0; 32];
    next[nodes..].fill(kinds::NEVER);
    next
}

// A node's part of the plan.
fn station(node: Node, first: u32, input: [u32; 4]) -> Station
    requires { node.kind < 12 }
    ensures { StationOf node first input result }
{
    let kind = Kind::try_from(node.kind).unwrap();
    Station {
        kind,
        constant: node.constant,
        period: node.period,
        deadline: node.deadline,
        count: kind.inputs(),
        first,
        input,
    }
}

// ---- The set-up

// The channels' and the nodes' records as the network has them, and what is made of them. The hint, and that of
// `write_state`, keeps the stack that a run takes within the header's figure.
#[inline(never)]
fn write_plan(network: &Network, plan: &mut Plan)
    requires { Fits network.now }
    ensures { PlanFields network.now plan.new }
{
    let channels = &network.channel[..network.channels];
    let Ways {
        first,
        follow,
        out,
        outs,
    } = walks(channels);
    let input = inputs(channels);
    *plan = Plan {
        nodes: network.nodes as u32,
        channels: network.channels as u32,
        out,
        node: from_fn(|n| station(network.node[n], first[n], input[n])),
        sort: sorts(&network.channel),
        base: bases(channels),
        capacity: from_fn(|c| network.channel[c].capacity),
        writer: from_fn(|c| network.channel[c].writer),
        follow,
        outs,
    };
}

// Every ring begins at its base with its initial tokens, every node is released at 0, nothing waits, and each pair's earliest instant is 0.
#[inline(never)]
fn write_state(network: &Network, state: &mut State)
    requires { Fits network.now }
    ensures { StateFields network.now state.new }
{
    *state = State {
        ring: from_fn(|c| Ring {
            head: 0,
            len: network.channel[c].initial,
        }),
        tokens: network.tokens,
        next: releases(network.nodes),
        due: [kinds::NEVER; 32],
        value: [0; 32],
        soon: [0; 16],
    };
}

// The plan and the state of a network before its first instant. They are written where a run keeps them: answered by value they are copied, and a
// run takes more stack than the header's figure (docs/DESIGN-PASS.md).
pub fn prepare(network: &Network, plan: &mut Plan, state: &mut State)
    requires { Lawful network.now }
    ensures { (net : Rules) → Obeys net → network.now ≡ laid net → Starts net plan.new state.new }
{
    write_plan(network, plan);
    write_state(network, state);
}
