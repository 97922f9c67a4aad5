// The header, a node and a channel's 29 bits: each piece is read whole and then checked.
#![tactic(auto)]

ghost use Rattle.std.specs.Prelude.{◌≡◌, ◌+◌, ◌*◌, ◌≤◌, ◌<◌, length};
ghost use Rattle.rules.specs.Network.{counts_ok, node_ok, end_ok, channel_ok};
ghost use Rattle.rules.specs.Table.{header_at, node_at, node_piece, channel_at, channel_piece};
ghost use Rattle.pieces.specs.Says.{says, says_by, header_of};

use fields::Reader;
use kinds::Kind;
use rules::{Channel, Counts, Node, OUTSIDE, Refusal};

// ---- The header

// Two numbers, as the definition `counts_ok` has them.
#[tactic(auto, unfolding(rules::specs::Network::counts_ok))]
fn counts_ok(nodes: usize, channels: usize) -> bool
    ensures { result ≡ counts_ok nodes channels }
{
    (1 <= nodes) & (nodes <= 32) & (channels <= 64)
}

#[tactic(auto, unfolding(rules::specs::Table::header_at))]
pub fn read_header(s: &[u8]) -> Result<Counts, Refusal>
    ensures { says_by header_of result ≡ header_at s.now }
{
    let bits = Reader::new(s);
    if !bits.holds(24) {
        return Err(Refusal::BitsEnd(0));
    }
    if bits.field(0, 4) != 1 {
        return Err(Refusal::Version);
    }
    let nodes = bits.field(4, 6) as usize;
    let channels = bits.field(10, 7) as usize;
    let spare = bits.field(17, 7);
    if counts_ok(nodes, channels) & (spare == 0) {
        return Ok(Counts { nodes, channels });
    }
    Err(Refusal::Counts)
}

// ---- Nodes

#[tactic(auto, unfolding(rules::specs::Network::node_ok))]
fn node_ok(n: Node) -> bool
    ensures { result ≡ node_ok n }
{
    let period = (1 <= n.period) & (n.period <= 65535);
    let deadline = (1 <= n.deadline) & (n.deadline <= n.period);
    match Kind::try_from(n.kind) {
        Ok(kind) => period & deadline & kind.takes(n.constant),
        Err(_) => false,
    }
}

#[tactic(auto, unfolding(rules::specs::Table::node_at))]
fn node_at(bits: Reader<'_>) -> Node
    requires { (bits.at + 69 ≤ 8 * length bits.bytes.now) × (bits.at < 65536) }
    ensures { result ≡ node_at bits.entry.bytes.now bits.entry.at }
{
    Node {
        kind: bits.field(0, 5),
        period: bits.field(5, 16),
        deadline: bits.field(21, 16),
        constant: fields::signed(bits.field(37, 32)),
    }
}

#[tactic(auto, unfolding(rules::specs::Table::node_piece))]
pub fn node_piece(s: &[u8], n: usize) -> Result<Node, Refusal>
    requires { n < 32 }
    ensures { says result ≡ node_piece s.now n }
{
    let bits = Reader::new(s).moved(24 + 69 * n);
    if !bits.holds(69) {
        return Err(Refusal::BitsEnd(bits.at));
    }
    let node = node_at(bits);
    if node_ok(node) {
        return Ok(node);
    }
    Err(Refusal::NodeField(n))
}

// ---- Channels

// Whether a channel's end is a node or the outside, which is a number: the definition `end_ok` has it so.
fn end_ok(nodes: usize, n: u32) -> bool
    ensures { result ≡ end_ok nodes n }
{
    ((n as usize) < nodes) | (n == OUTSIDE)
}

// The tests of a channel's record, whose sort is a number: the definition `channel_ok` has them so.
#[tactic(auto, unfolding(rules::specs::Network::channel_ok))]
fn channel_ok(nodes: usize, ch: Channel) -> bool
    ensures { result ≡ channel_ok nodes ch }
{
    let ends = end_ok(nodes, ch.writer) & end_ok(nodes, ch.reader);
    let capacity = (1 <= ch.capacity) & (ch.capacity <= 64);
    let register = (ch.sort != 1) | ((ch.capacity == 1) & (ch.initial == 1));
    let held = (ch.sort != 1) & (ch.port == 0) & (ch.capacity == 1) & (ch.initial == 0);
    let out = (ch.reader != OUTSIDE) | held;
    let through = (ch.writer == OUTSIDE) & (ch.reader == OUTSIDE);
    ends & capacity & (ch.initial <= ch.capacity) & register & out & !through
}

#[tactic(auto, unfolding(rules::specs::Table::channel_at))]
fn channel_at(bits: Reader<'_>) -> Channel
    requires { (bits.at + 29 ≤ 8 * length bits.bytes.now) × (bits.at < 65536) }
    ensures { result ≡ channel_at bits.entry.bytes.now bits.entry.at }
{
    Channel {
        sort: bits.field(0, 1),
        writer: bits.field(1, 6),
        reader: bits.field(7, 6),
        port: bits.field(13, 2),
        capacity: bits.field(15, 7),
        initial: bits.field(22, 7),
    }
}

// Channel `c`, where the reader stands, behind channels whose capacities together are `together`.
#[tactic(auto, unfolding(rules::specs::Table::channel_piece))]
pub fn channel_piece(
    bits: Reader<'_>,
    nodes: usize,
    c: usize,
    together: usize,
) -> Result<Channel, Refusal>
    requires { (bits.at < 65536) × (together ≤ 1024) }
    ensures { says result ≡ channel_piece bits.entry.bytes.now nodes c bits.entry.at together }
{
    if !bits.holds(29) {
        return Err(Refusal::BitsEnd(bits.at));
    }
    let ch = channel_at(bits);
    if !channel_ok(nodes, ch) {
        return Err(Refusal::ChannelField(c));
    }
    let most = together + ch.capacity as usize;
    if most <= 1024 {
        return Ok(ch);
    }
    Err(Refusal::Capacities(c))
}
