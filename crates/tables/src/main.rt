// Checks the tables on standard input, at most 262,144 bytes of them, each behind its length in 4 bytes, most significant first. Writes a
// line for each: `taken NODES CHANNELS`, or `refused NUMBER PLACE`. Where a length runs past the end of the input it writes `short` and
// ends. Where a read or a write fails it says so on standard error, and its status is 1.
#![tactic(auto)]

use blocks::{Blocks, Short};
use std::io;
use std::io::Write;

// The line of a table's check.
fn check(out: &mut impl Write, table: &[u8]) -> io::Result<()> {
    match table::check(table) {
        Ok(counts) => writeln!(out, "{counts}"),
        Err(why) => writeln!(out, "{why}"),
    }
}

fn check_all(out: &mut impl Write, tables: Blocks<'_>) -> io::Result<()> {
    for table in tables {
        match table {
            Ok(table) => check(out, table)?,
            // in one write, so that a line is there whole or not at all
            Err(Short) => out.write_all(b"short\n")?,
        }
    }
    Ok(())
}

// `bench` has the same three lines over a buffer of its own size: see there.
fn main(rt: HostRuntime) -> io::Result<()> {
    let mut input = [0u8; 262144];
    let n = blocks::read_full(&mut rt.stdin(), &mut input)?;
    check_all(&mut rt.stdout(), Blocks::new(&input[..n]))
}
