// Writes the listings of the inputs on standard input, one after another and nothing between. Each input, of at most 131,072 bytes, stands
// behind its length in 4 bytes, most significant first. Where an input is longer it writes `too long` and ends, and where the inputs end
// inside one, or inside its length, `short`. Where a read or a write fails it says so on standard error, and its status is 1.
#![tactic(auto)]

use blocks::read_full;
use std::io;
use std::io::{Read, Write};
use thiserror::Error;

// Why the inputs are read no further.
#[derive(Debug, Drop, Error)]
enum Stop {
    #[error("short")]
    Short,
    #[error("too long")]
    TooLong,
    #[error(transparent)]
    Failed(#[from] io::Error),
}

// Reads the next input into the front of this room, and answers it. At the end of the inputs there is none.
fn next_input<'a>(source: &mut impl Read, room: &'a mut [u8]) -> Result<Option<&'a [u8]>, Stop> {
    let mut head = [0u8; 4];
    let n = read_full(source, &mut head)?;
    if n == 0 {
        return Ok(None);
    }
    if n < head.len() {
        return Err(Stop::Short);
    }
    let bytes = u32::from_be_bytes(head) as usize;
    let input = room.get_mut(..bytes).ok_or(Stop::TooLong)?;
    if read_full(source, input)? < bytes {
        return Err(Stop::Short);
    }
    Ok(Some(input))
}

// Writes the listing of these bytes, which is put into a text that is lent, with its length as the answer (`Listed`). No law says that it fits, so one
// that does not is left out here; `pole` says so.
fn list(out: &mut impl Write, s: &[u8], text: &mut [u8]) -> io::Result<()> {
    let n = listing::listing(s, text);
    if let Some(listing) = text.get(..n) {
        out.write_all(listing)?;
    }
    Ok(())
}

// A proved loop has to end, and nothing says that the inputs do. So the loop has a last turn, which no run comes to.
fn list_all(
    source: &mut impl Read,
    out: &mut impl Write,
    room: &mut [u8],
    text: &mut [u8],
) -> Result<(), Stop> {
    for _ in 0..u64::MAX {
        let Some(input) = next_input(source, room)? else {
            break;
        };
        list(out, input, text)?;
    }
    Ok(())
}

fn main(rt: HostRuntime) -> io::Result<()> {
    let mut room = [0u8; 131072];
    let mut text = [0u8; listing::SIZE];
    let mut out = rt.stdout();
    match list_all(&mut rt.stdin(), &mut out, &mut room, &mut text) {
        Ok(()) => Ok(()),
        Err(Stop::Failed(why)) => Err(why),
        // each in one write, so that a line is there whole or not at all
        Err(Stop::Short) => out.write_all(b"short\n"),
        Err(Stop::TooLong) => out.write_all(b"too long\n"),
    }
}
