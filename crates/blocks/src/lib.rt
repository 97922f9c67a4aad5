// What the programs read: an input whole, and rows of blocks, each behind its length in 4 bytes, most significant first.
#![tactic(auto)]

ghost use Rattle.std.specs.Prelude.{◌≡◌, ◌<◌, length, take, IfOk, IfSome, MatchOption, OnErr};
ghost use Rattle.std.specs.Io.{ReadsAtMost};
ghost use Rattle.std.specs.Io.KnownBytes.{Consumes, IsAtEnd};
ghost use Rattle.std.specs.Iterator.{at_most};
ghost use Rattle.blocks.specs.Filled.{FilledInPart};
ghost use Rattle.blocks.specs.Row.{HasBlock, Begins, Next};

use std::io;
use std::io::Read;
use thiserror::Error;

// Reads until the buffer is full or the input ends, and answers how many bytes it put at the buffer's start.
#[tactic(auto, using(crate::proofs::Filled::consumed_both, crate::proofs::Filled::kept_front))]
pub fn read_full<R: Read>(source: &mut R, buf: &mut [u8]) -> io::Result<usize>
    ensures within { ReadsAtMost result buf.new }
    ensures front { IfOk result (λ n. Consumes (R.remaining source.old) (R.remaining source.new) (take n buf.new)) }
    ensures end { IfOk result (λ n. n < length buf.new → IsAtEnd (R.remaining source.new)) }
    ensures failed { OnErr result (FilledInPart (R.remaining source.old) (R.remaining source.new) buf.new) }
{
    let mut done = 0;
    while done < buf.len() {
        let n = source.read(&mut buf[done..])?;
        if n == 0 {
            break;
        }
        done += n;
    }
    Ok(done)
}

// A row that ends inside a block, or inside its length.
#[derive(Clone, Copy, Debug, PartialEq, Eq, Error)]
#[error("short")]
pub struct Short;

// The blocks of a row, in order. Where the row ends inside one it is `Short`, and nothing comes after.
#[derive(Clone, Debug, Drop)]
pub struct Blocks<'a> {
    rest: &'a [u8],
}

impl<'a> Blocks<'a> {
    pub fn new(row: &'a [u8]) -> Self
        ensures { result.rest ≡ row.entry }
    {
        Blocks { rest: row }
    }
}

impl<'a> Iterator for Blocks<'a> {
    type Item = Result<&'a [u8], Short>;

    ghost next_gives = { λ s r t. Next s.rest.now r t.rest.now };

    ghost remaining = { λ s. at_most (length s.rest.now) };

    fn next(&mut self) -> Option<Result<&'a [u8], Short>> {
        if self.rest.is_empty() {
            return None;
        }
        let Some((block, rest)) = first_block(self.rest) else {
            self.rest = &[];
            return Some(Err(Short));
        };
        self.rest = rest;
        Some(Ok(block))
    }
}

// The block in front of a row and what follows it, where the row has all of it.
#[tactic(auto, unfolding(crate::specs::Row::HasBlock, crate::specs::Row::Begins))]
fn first_block(row: &[u8]) -> Option<(&[u8], &[u8])>
    ensures block { MatchOption result (¬ (HasBlock row.now)) (λ p. Begins row.now p.0.now p.1.now) }
    ensures shorter { IfSome result (λ p. length p.1.now < length row.now) }
{
    let (bytes, rest) = row.split_first_chunk::<4>()?;
    rest.split_at_checked(u32::from_be_bytes(*bytes) as usize)
}
