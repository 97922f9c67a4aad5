// The pole's listing program: writes the listing of standard input to standard output. The input is the table's length in 2 bytes, the
// table, the horizon in 3 and arrivals of 8 bytes each, most significant byte first. Where a read fails it writes nothing there, and says so
// on standard error; where a write fails it says so there too. In both cases its status is 1.
#![tactic(auto)]

use anyhow::{Context, Result};
use std::io;
use std::io::Write;

// One byte more than the longest input that is well framed has, 2 + 8,191 + 3 + 8 * 2,048. So an input that fills the buffer is badly framed,
// whatever follows, and is read no further: `listing_of_front` of proofs/Cut.antt.
const FULL: usize = 24581;

// Writes the listing of these bytes.
fn list(out: &mut impl Write, s: &[u8]) -> io::Result<()> {
    let mut text = [0u8; listing::SIZE];
    let n = listing::listing(s, &mut text);
    match text.get(..n) {
        Some(listing) => out.write_all(listing),
        None => Err(io::Error::other("the listing is longer than its text")),
    }
}

fn main(rt: HostRuntime) -> Result<()> {
    let mut buf = [0u8; FULL];
    let n = blocks::read_full(&mut rt.stdin(), &mut buf).context("standard input")?;
    list(&mut rt.stdout(), &buf[..n]).context("standard output")
}
