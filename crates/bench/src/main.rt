// Runs the cases on standard input, at most 65,536 bytes of them, each behind its length in 4 bytes. A case is the room for words in 2
// bytes, the horizon in 4, the table's length in 2, the table, and arrivals of 8 bytes each; all numbers stand most significant byte first.
// For each case it lends the run a list of so many entries, each 7, and writes a line for the answer, `end COUNT`,
// `stop NUMBER INSTANT CHANNEL COUNT` or `refused NUMBER PLACE`, and then a line for each entry of the list. A case that does not hold its
// fields, or with a room above 256 or more than 64 arrivals, is `badly framed`. Where a length runs past the end of the input it writes
// `short` and ends. Where a read or a write fails it says so on standard error, and its status is 1.
#![tactic(auto)]

ghost use Rattle.std.specs.Prelude.{◌≤◌, length};
ghost use Rattle.bench.specs.declared.TheConstants.{MOST_WORDS, MOST_ARRIVALS};

use blocks::{Blocks, Short};
use std::io;
use std::io::Write;

// ---- A case

// The most entries that a case lends, and the most arrivals that it has.
const MOST_WORDS: usize = 256;

const MOST_ARRIVALS: usize = 64;

// A case, as its bytes have it.
#[derive(Clone, Copy)]
struct Case<'a> {
    room: usize,
    horizon: usize,
    table: &'a [u8],
    arrivals: &'a [[u8; 8]],
    ghost fits: { (room ≤ MOST_WORDS) × (length arrivals.now ≤ MOST_ARRIVALS) },
}

impl<'a> Case<'a> {
    // The case of these bytes, where they hold its fields and it is no larger than a case may be.
    fn framed(s: &'a [u8]) -> Option<Self> {
        let (room, s) = s.split_first_chunk::<2>()?;
        let (horizon, s) = s.split_first_chunk::<4>()?;
        let (bytes, s) = s.split_first_chunk::<2>()?;
        let (table, s) = s.split_at_checked(usize::from(u16::from_be_bytes(*bytes)))?;
        let (arrivals, odd) = s.as_chunks::<8>();
        let room = usize::from(u16::from_be_bytes(*room));
        if room > MOST_WORDS || arrivals.len() > MOST_ARRIVALS || !odd.is_empty() {
            return None;
        }
        Some(Case {
            room,
            horizon: u32::from_be_bytes(*horizon) as usize,
            table,
            arrivals,
        })
    }

    // Runs the case, and says what comes of it and what the list then holds. `listing` has a loop over arrivals of its own: see there.
    fn run(&self, out: &mut impl Write) -> io::Result<()> {
        let mut arrivals = [0u64; MOST_ARRIVALS];
        for (arrival, bytes) in arrivals.iter_mut().zip(self.arrivals) {
            *arrival = u64::from_be_bytes(*bytes);
        }
        let arrivals = &arrivals[..self.arrivals.len()];
        let mut list = [7u64; MOST_WORDS];
        let list = &mut list[..self.room];
        match engine::run(self.table, self.horizon, arrivals, list) {
            Ok(ran) => writeln!(out, "{ran}")?,
            Err(why) => writeln!(out, "{why}")?,
        }
        for entry in list.iter() {
            writeln!(out, "{entry}")?;
        }
        Ok(())
    }
}

// ---- The row of cases

fn run_all(out: &mut impl Write, cases: Blocks<'_>) -> io::Result<()> {
    for case in cases {
        match case.map(Case::framed) {
            Ok(Some(case)) => case.run(out)?,
            Ok(None) => writeln!(out, "badly framed")?,
            // in one write, so that a line is there whole or not at all
            Err(Short) => out.write_all(b"short\n")?,
        }
    }
    Ok(())
}

// `tables` has the same three lines over a buffer of its own size: a function over the size and over what is done with a row would be longer.
fn main(rt: HostRuntime) -> io::Result<()> {
    let mut input = [0u8; 65536];
    let n = blocks::read_full(&mut rt.stdin(), &mut input)?;
    run_all(&mut rt.stdout(), Blocks::new(&input[..n]))
}
