// What a run keeps: the plan, which stays over all of it, and the state, which changes. A channel's fields of the plan and a node's of the state are
// arrays of their own: with a struct for each channel, or for what a node has waiting, an activation takes more instructions than its bar allows
// (docs/DESIGN-PASS.md).
#![tactic(auto)]

use kinds::Kind;

// Behind the last channel: the end of a walk. A number, since with an Option there an activation takes more than its bar (`steps::put_all`).
pub const NONE: u32 = 64;

// What a channel does with its tokens.
#[derive(Clone, Copy, Debug, Default, PartialEq, Eq)]
pub enum Sort {
    #[default]
    Queue,
    Register,
}

// What stays of a node: its record, how many inputs it has, the first channel of its walk, and the channels at its four ports.
#[derive(Clone, Copy, Debug, Default, PartialEq, Eq)]
pub struct Station {
    pub kind: Kind,
    pub constant: i32,
    pub period: u32,
    pub deadline: u32,
    pub count: u32,
    pub first: u32,
    pub input: [u32; 4],
}

// What stays over a run, in arrays with their counts beside them, since the engine has no heap. A walk is a chain of channel numbers, so that an
// instant costs what happens in it. A writer is the number of its record, that of the outside too, as `Wired` has it.
#[derive(Clone, Copy, Default)]
pub struct Plan {
    // How many nodes and channels there are, and the first channel to the outside.
    pub nodes: u32,
    pub channels: u32,
    pub out: u32,
    pub node: [Station; 32],
    // Of each channel: its sort, the first place and the number of places of its ring, its writer, the channel behind it in its writer's walk,
    // and the channel behind it in the walk of those to the outside.
    pub sort: [Sort; 64],
    pub base: [u32; 64],
    pub capacity: [u32; 64],
    pub writer: [u32; 64],
    pub follow: [u32; 64],
    pub outs: [u32; 64],
}

// Of a channel's ring, the place of its oldest token, counted from the ring's first, and how many it holds.
#[derive(Clone, Copy, Debug, Default, PartialEq, Eq)]
pub struct Ring {
    pub head: u32,
    pub len: u32,
}

// What changes over a run.
#[derive(Clone, Copy, Default)]
pub struct State {
    pub ring: [Ring; 64],
    // The tokens of all rings, one ring after another: no heap, and all capacities together are at most 1,024.
    pub tokens: [i32; 1024],
    // Of each node: its next release, when its waiting result is due, and the result; and of each pair of nodes the earliest of these instants.
    pub next: [u32; 32],
    pub due: [u32; 32],
    pub value: [i32; 32],
    pub soon: [u32; 16],
}
