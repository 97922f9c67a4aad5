// The types that code and definitions share. The rules themselves are in specs/, a file for each section of document 01.
#![tactic(auto)]

ghost use Rattle.std.specs.Prelude.{◌≡◌, Some};
ghost use Rattle.rules.specs.Refusals.{number_of, place_of, end_number, end_instant, end_channel};
ghost use Rattle.rules.specs.Shown.{refusal_text, counts_text, ran_text};

use std::error::Error;
use std::fmt;

// The number that stands for the outside, as a writer or a reader: a channel's record has it where its bits have it.
pub const OUTSIDE: u32 = 63;

// A node, as its 69 bits have it, with numbers for kinds that are not there too: the definition `node_at` is of this record.
#[derive(Clone, Copy, Debug, Default, PartialEq, Eq)]
pub struct Node {
    pub kind: u32,
    pub period: u32,
    pub deadline: u32,
    pub constant: i32,
}

// A channel, as its 29 bits have it: the definition `channel_at` is of this record. Its tokens stand beside it.
#[derive(Clone, Copy, Debug, Default, PartialEq, Eq)]
pub struct Channel {
    pub sort: u32,
    pub writer: u32,
    pub reader: u32,
    pub port: u32,
    pub capacity: u32,
    pub initial: u32,
}

// Why an input is refused, with its place: refusals 1 to 10, in the order of their numbers.
#[derive(Clone, Copy, Debug, PartialEq, Eq)]
pub enum Refusal {
    BitsEnd(usize),
    Version,
    Counts,
    NodeField(usize),
    ChannelField(usize),
    Capacities(usize),
    Leftover,
    Ports(usize),
    Horizon,
    Arrival(usize),
}

impl Refusal {
    // Its number in the rules.
    pub fn number(self) -> usize
        ensures { result ≡ number_of self }
    {
        match self {
            Refusal::BitsEnd(_) => 1,
            Refusal::Version => 2,
            Refusal::Counts => 3,
            Refusal::NodeField(_) => 4,
            Refusal::ChannelField(_) => 5,
            Refusal::Capacities(_) => 6,
            Refusal::Leftover => 7,
            Refusal::Ports(_) => 8,
            Refusal::Horizon => 9,
            Refusal::Arrival(_) => 10,
        }
    }

    // Its place, 0 where there is none: C's answer and the listing's last line have it so.
    pub fn place(self) -> usize
        ensures { result ≡ place_of self }
    {
        match self {
            Refusal::Version | Refusal::Counts | Refusal::Leftover | Refusal::Horizon => 0,
            Refusal::BitsEnd(place)
            | Refusal::NodeField(place)
            | Refusal::ChannelField(place)
            | Refusal::Capacities(place)
            | Refusal::Ports(place)
            | Refusal::Arrival(place) => place,
        }
    }
}

impl fmt::Display for Refusal {
    ghost output = { λ why. Some (refusal_text why) };

    fn fmt<W: fmt::Write>(&self, f: &mut fmt::Formatter<W>) -> fmt::Result {
        let number = self.number();
        let place = self.place();
        write!(f, "refused {number} {place}")
    }
}

impl Error for Refusal {}

// What the check answers of a table that it takes: its node and channel counts.
#[derive(Clone, Copy, Debug, PartialEq, Eq)]
pub struct Counts {
    pub nodes: usize,
    pub channels: usize,
}

impl fmt::Display for Counts {
    ghost output = { λ counts. Some (counts_text counts) };

    fn fmt<W: fmt::Write>(&self, f: &mut fmt::Formatter<W>) -> fmt::Result {
        let nodes = self.nodes;
        let channels = self.channels;
        write!(f, "taken {nodes} {channels}")
    }
}

// What an end says in numbers is 0 where there is nothing to say, as C's answer and the listing's last line have it.
// How a run ends: at its horizon, or stopped at an instant, with a full channel or because its words do not fit.
#[derive(Clone, Copy, Debug, PartialEq, Eq)]
pub enum End {
    Horizon,
    Overfull { instant: usize, channel: usize },
    NoRoom { instant: usize },
}

impl End {
    // Its number in the rules, 0 at the horizon.
    pub fn number(self) -> usize
        ensures { result ≡ end_number self }
    {
        match self {
            End::Horizon => 0,
            End::Overfull { .. } => 11,
            End::NoRoom { .. } => 12,
        }
    }

    // The instant of a stop, 0 at the horizon.
    pub fn instant(self) -> usize
        ensures { result ≡ end_instant self }
    {
        match self {
            End::Horizon => 0,
            End::Overfull { instant, .. } | End::NoRoom { instant } => instant,
        }
    }

    // The full channel, 0 where there is none.
    pub fn channel(self) -> usize
        ensures { result ≡ end_channel self }
    {
        match self {
            End::Overfull { channel, .. } => channel,
            End::Horizon | End::NoRoom { .. } => 0,
        }
    }
}

// What a run answers: the count of its words, and how it ends.
#[derive(Clone, Copy, Debug, PartialEq, Eq)]
pub struct Ran {
    pub count: usize,
    pub end: End,
}

impl fmt::Display for Ran {
    ghost output = { λ ran. Some (ran_text ran) };

    fn fmt<W: fmt::Write>(&self, f: &mut fmt::Formatter<W>) -> fmt::Result {
        let count = self.count;
        let number = self.end.number();
        let instant = self.end.instant();
        let channel = self.end.channel();
        match self.end {
            End::Horizon => write!(f, "end {count}"),
            _ => write!(f, "stop {number} {instant} {channel} {count}"),
        }
    }
}
