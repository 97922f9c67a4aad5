// Reading a table: from lent bytes to a network, or the first rule that they break and where. The pieces are taken in the paper's order,
// each read whole and then checked.
#![tactic(auto)]

ghost use Rattle.std.specs.Prelude.{◌≡◌, ◌+◌, ◌*◌, ◌≤◌, ◌<◌, List, [], ℤ, pos, length, replicate, count_by, MatchOption};
ghost use Rattle.rules.specs.Kinds.{inputs};
ghost use Rattle.rules.specs.Table.{nodes_up_to, tokens_up_to, ends_at, faulty_node, network};
ghost use Rattle.rules.specs.Refusals.{check, checked_says};
ghost use Rattle.pieces.specs.Says.{says_by};
ghost use Rattle.table.specs.Laid.{TableOf};
ghost use Rattle.table.specs.Reads.{ChannelWithTokens, ChannelsRead, end_read, pieces_read, PiecesRead, serves, served_right, all_right, net_of};

use fields::Reader;
use kinds::Kind;
use rules::{Channel, Counts, Node, Refusal};

// A network, in arrays with their counts beside them, since the check has no heap: its nodes and channels, zero behind the last. Each channel has
// as many places among the tokens as its capacity, one channel after another: its initial tokens, then zeros; and zeros behind the last channel.
#[derive(Clone, Copy)]
pub struct Network {
    pub nodes: usize,
    pub channels: usize,
    pub node: [Node; 32],
    pub channel: [Channel; 64],
    pub tokens: [i32; 1024],
}

// ---- Nodes

// The nodes, as many as there are places for them.
#[tactic(auto, unfolding(rules::specs::Table::nodes_up_to), using(std::proofs::lemmas::List::take_more_set, crate::proofs::Refused::node_refused))]
fn read_nodes(s: &[u8], nodes: &mut [Node]) -> Result<(), Refusal>
    requires { length nodes.old ≤ 32 }
    ensures { says_by (λ done. nodes.new) result ≡ nodes_up_to s.now (length nodes.old) }
{
    for (n, node) in nodes.iter_mut().enumerate() {
        *node = pieces::node_piece(s, n)?;
    }
    Ok(())
}

// ---- Channels

// The tokens that stand where the reader does, as many as there are places for them.
#[tactic(auto, unfolding(rules::specs::Table::tokens_up_to, rules::specs::Table::token_piece), using(std::proofs::lemmas::List::take_more_set, crate::proofs::Refused::token_missing))]
fn read_tokens(bits: Reader<'_>, tokens: &mut [i32]) -> Result<(), Refusal>
    requires { (bits.at < 65536) × (length tokens.old ≤ 1024) }
    ensures { says_by (λ done. tokens.new) result ≡ tokens_up_to bits.entry.bytes.now bits.entry.at (length tokens.old) }
{
    for (i, token) in tokens.iter_mut().enumerate() {
        let place = bits.at + 32 * i;
        let word = bits.moved(place).take(32).ok_or(Refusal::BitsEnd(place))?;
        *token = fields::signed(word);
    }
    Ok(())
}

// Channel `c`, where the reader stands, behind channels whose capacities together are `together`, with its tokens, stored from place
// `together` on.
#[tactic(auto, using(crate::proofs::Piece::channel_room, crate::proofs::Piece::part_long))]
fn read_channel(
    bits: Reader<'_>,
    nodes: usize,
    c: usize,
    together: usize,
    tokens: &mut [i32; 1024],
) -> Result<Channel, Refusal>
    requires { (bits.at < 65000) × (together ≤ 1024) }
    ensures { ChannelWithTokens bits.entry.bytes.now nodes c bits.entry.at together tokens.old result tokens.new }
{
    let ch = pieces::channel_piece(bits, nodes, c, together)?;
    let behind = together + ch.initial as usize;
    read_tokens(bits.moved(bits.at + 29), &mut tokens[together..behind])?;
    Ok(ch)
}

// The channels, behind `nodes` nodes, as many as there are places for them, with their tokens, which stood at zero; answers the bit behind
// them. They are lent as a slice of those that are there, at most 64: no type of a slice says so.
#[tactic(auto, using(crate::proofs::ChannelTurn::channel_turns, crate::proofs::Piece::channel_room))]
fn read_channels(
    s: &[u8],
    nodes: usize,
    channels: &mut [Channel],
    tokens: &mut [i32; 1024],
) -> Result<usize, Refusal>
    requires { (nodes ≤ 32) × (length channels.old ≤ 64) × (tokens.old ≡ replicate 1024 (pos 0)) }
    ensures { ChannelsRead s.now nodes (length channels.old) result channels.new tokens.new }
{
    let mut at = 24 + 69 * nodes;
    let mut together = 0;
    for (c, channel) in channels.iter_mut().enumerate() {
        let bits = Reader { bytes: s, at };
        let ch = read_channel(bits, nodes, c, together, tokens)?;
        at += 29 + 32 * ch.initial as usize;
        together += ch.capacity as usize;
        *channel = ch;
    }
    Ok(at)
}

// ---- The end, and the ports

// Zero bits to the end of the byte, then nothing.
#[tactic(auto, unfolding(rules::specs::Table::ends_at))]
fn ends(bits: Reader<'_>) -> bool
    requires { bits.at < 65536 }
    ensures { result ≡ ends_at bits.entry.bytes.now bits.entry.at }
{
    let bytes = (bits.at + 7) / 8;
    bits.bytes.len() == bytes && bits.field(0, 8 * bytes - bits.at) == 0
}

// How many channels serve port `p` of node `n`.
fn served(channels: &[Channel], n: usize, p: u32) -> usize
    ensures { result ≡ count_by (serves n p) channels.now }
{
    channels
        .iter()
        .filter(|ch| ch.reader as usize == n && ch.port == p)
        .count()
}

// Whether port `p` of node `n`, which has so many inputs, is served as it should be.
#[tactic(auto, using(crate::proofs::Ports::counted), unfolding(rules::specs::Lists::count, rules::specs::Lists::total))]
fn port_ok(channels: &[Channel], n: usize, p: u32, inputs: u32) -> bool
    ensures { result ≡ served_right channels.now n inputs p }
{
    let found = served(channels, n, p);
    let input = p < inputs;
    if input {
        return found == 1;
    }
    found == 0
}

// Whether every port of node `n` is served as it should be.
#[tactic(auto, unfolding(crate::specs::Reads::all_right))]
fn ports_ok(channels: &[Channel], n: usize, inputs: u32) -> bool
    ensures { result ≡ all_right channels.now n inputs }
{
    (0..4).all(|p| port_ok(channels, n, p, inputs))
}

// How many inputs a node's kind has: none, where its number is of no kind.
#[tactic(auto, unfolding(rules::specs::Kinds::inputs))]
fn inputs_of(node: Node) -> u32
    ensures { result ≡ inputs node.kind }
{
    Kind::try_from(node.kind).map_or(0, Kind::inputs)
}

// The lowest node with a port that is not served as it should be. Nodes and channels are lent apart, since no network is there yet.
#[tactic(auto, using(rules::proofs::ListLaws::lowest_none, crate::proofs::Ports::ports_by_all, crate::proofs::Ports::first_faulty), unfolding(rules::specs::Table::faulty_node))]
fn faulty_node(nodes: &[Node], channels: &[Channel]) -> Option<usize>
    ensures { let low = faulty_node (net_of nodes.now channels.now []) in MatchOption result (low ≡ length nodes.now) (λ n. (n < length nodes.now) × (low ≡ n)) }
{
    for (n, node) in nodes.iter().enumerate() {
        if !ports_ok(channels, n, inputs_of(*node)) {
            return Some(n);
        }
    }
    None
}

// The end of the table, where the reader stands, and the ports, of nodes and channels that are lent apart as for `faulty_node`.
#[tactic(auto, unfolding(rules::specs::Table::faulty_node, rules::specs::Network::ports_ok))]
fn read_end(bits: Reader<'_>, nodes: &[Node], channels: &[Channel]) -> Result<(), Refusal>
    requires { bits.at < 65536 }
    ensures { (tokens : List (List ℤ)) → says_by (λ done. net_of nodes.now channels.now tokens) result ≡ end_read bits.entry.bytes.now bits.entry.at (net_of nodes.now channels.now tokens) }
{
    if !ends(bits) {
        return Err(Refusal::Leftover);
    }
    match faulty_node(nodes, channels) {
        Some(n) => Err(Refusal::Ports(n)),
        None => Ok(()),
    }
}

// ---- The whole table

// All that follows the header: as many nodes and channels as there are places for them, and the channels' tokens, whose places stood at
// zero.
fn read_pieces(
    s: &[u8],
    nodes: &mut [Node],
    channels: &mut [Channel],
    tokens: &mut [i32; 1024],
) -> Result<(), Refusal>
    requires { (length nodes.old ≤ 32) × (length channels.old ≤ 64) × (tokens.old ≡ replicate 1024 (pos 0)) }
    ensures { PiecesRead (pieces_read s.now (length nodes.old) (length channels.old)) nodes.new channels.new tokens.new result }
{
    read_nodes(s, nodes)?;
    let at = read_channels(s, nodes.len(), channels, tokens)?;
    read_end(Reader { bytes: s, at }, nodes, channels)
}

// The hints on inlining from here on keep the stack that a call takes within the header's figures, which `tools/c-example` measures.

// The network that follows a header with these counts, zero behind its pieces. They are read into locals, and put into the struct at the end: read
// into its fields they took several times the instructions (docs/DECISIONS.md).
#[inline(always)]
fn read_rest(s: &[u8], counts: Counts) -> Result<Network, Refusal>
    requires { (counts.nodes ≤ 32) × (counts.channels ≤ 64) }
    ensures { TableOf (pieces_read s.now counts.nodes counts.channels) result }
{
    let mut node = [Node::default(); 32];
    let mut channel = [Channel::default(); 64];
    let mut tokens = [0; 1024];
    let nodes = &mut node[..counts.nodes];
    let channels = &mut channel[..counts.channels];
    read_pieces(s, nodes, channels, &mut tokens)?;
    Ok(Network {
        nodes: counts.nodes,
        channels: counts.channels,
        node,
        channel,
        tokens,
    })
}

// The network that a table's bytes say, or the first refusal.
#[tactic(auto, using(crate::proofs::Whole::nodes_within, crate::proofs::Whole::channels_within), unfolding(rules::specs::Table::network))]
#[inline(always)]
pub fn unpack(s: &[u8]) -> Result<Network, Refusal>
    ensures { TableOf (network s.now) result }
{
    let counts = pieces::read_header(s)?;
    read_rest(s, counts)
}

// The first entry point: the check of a table.
#[tactic(auto, unfolding(rules::specs::Refusals::check, crate::specs::Laid::laid))]
pub fn check(s: &[u8]) -> Result<Counts, Refusal>
    ensures { checked_says result ≡ check s.now }
{
    let network = unpack(s)?;
    Ok(Counts {
        nodes: network.nodes,
        channels: network.channels,
    })
}
