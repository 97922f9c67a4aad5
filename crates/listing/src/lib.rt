// The pole's listing: from the bytes of standard input to the bytes of the listing, in a lent buffer.
#![tactic(auto)]

ghost use Rattle.std.specs.Prelude.{◌≡◌, false, [], ◌∷◌, ◌++◌, ◌+◌, ◌*◌, ◌/◌, ◌≤◌, ◌<◌, length, take, drop, map, MatchOption};
ghost use Rattle.std.specs.Fmt.{signed_decimal};
ghost use Rattle.rules.specs.Lists.{tab, joined};
ghost use Rattle.rules.specs.Refusals.{run, ran_says};
ghost use Rattle.rules.specs.Listing.{bytes_at, framed, decimal, line, word_line, listing};
ghost use Rattle.engine.specs.Runs.{RunOf};
ghost use Rattle.listing.specs.Text.{Puts, HasRoom, Parts, end_by, last_by, size, Listed};

use fields::Reader;
use itoa::Integer;
use rules::{End, Ran, Refusal};

// The longest listing: 2,048 lines of at most 25 bytes, and a last line of at most 64.
pub const SIZE: usize = 51264;

// The longest table that is well framed.
const LONGEST_TABLE: usize = 8191;

// The most arrivals that are well framed.
const MOST_ARRIVALS: usize = 2048;

// The words that an output list has room for.
const WORDS: usize = 2048;

// ---- A word's line, from its end

// The longest line of a word: a time of 8 digits, a channel of 3, a token of 10 and its sign, two blanks and a line feed.
const LINE: usize = 25;

// Writes a byte before what stands from `at` on; answers where it stands.
fn byte_before(line: &mut [u8; LINE], at: usize, b: u8) -> usize
    requires { (1 ≤ at) × (at ≤ 25) }
    ensures { (result + 1 ≡ at) × (drop result line.new ≡ b ∷ drop at line.old) }
{
    line[at - 1] = b;
    at - 1
}

// Writes a token in decimal before what stands from `at` on; answers where it begins.
#[tactic(auto, using(crate::proofs::LineLaws::magnitude_digits))]
fn token_before(line: &mut [u8; LINE], at: usize, v: i32) -> usize
    requires { (11 ≤ at) × (at ≤ 25) }
    ensures { (result + length (signed_decimal v) ≡ at) × (drop result line.new ≡ signed_decimal v ++ drop at line.old) }
{
    let digits = itoa::write_digits(u64::from(v.unsigned_abs()), line, at);
    if v < 0 {
        return byte_before(line, digits, b'-');
    }
    digits
}

// ---- Text

// Lent bytes, of which the first `len` are put, by hand: `write!` says what it wrote only where it succeeds, and `listing` promises the whole text
// (`Listed`). No heap, so no `String`.
#[derive(Drop)]
struct Text<'a> {
    bytes: &'a mut [u8],
    len: usize,
}

impl Text<'_> {
    // Puts bytes behind those that are put.
    fn put(&mut self, bytes: &[u8])
        requires { HasRoom self.old (length bytes.now) }
        ensures { Puts self.old bytes.now self.new }
    {
        let end = self.len + bytes.len();
        self.bytes[self.len..end].copy_from_slice(bytes);
        self.len = end;
    }

    // Puts a number in decimal.
    fn put_number<I: Integer>(&mut self, n: I)
        requires { HasRoom self.old (length (I.text n)) }
        ensures { Puts self.old (I.text n) self.new }
    {
        let mut digits = itoa::Buffer::new();
        self.put(digits.format(n).as_bytes());
    }

    // Puts a word's line: time, channel and value. The line is made from its end, as the digits of a number are, and then put at once: numbers put one by
    // one took half as much time again where they are short (docs/LOOK-BACK.md).
    #[tactic(auto, using(crate::proofs::LineLaws::word_digits))]
    fn put_word(&mut self, w: u64)
        requires { HasRoom self.old 25 }
        ensures line { Puts self.old (word_line w) self.new }
        ensures short { self.new.len ≤ self.old.len + 25 }
    {
        let mut line = [0; LINE];
        let end = byte_before(&mut line, LINE, b'\n');
        let value = token_before(&mut line, end, words::value_in(w));
        let behind = byte_before(&mut line, value, b' ');
        let channel = itoa::write_digits(words::channel_in(w) as u64, &mut line, behind);
        let behind = byte_before(&mut line, channel, b' ');
        let time = itoa::write_digits(u64::from(words::time_in(w)), &mut line, behind);
        self.put(&line[time..]);
    }

    // Puts the lines of words.
    #[tactic(auto, unfolding(rules::specs::Lists::joined))]
    fn put_words(&mut self, words: &[u64])
        requires { HasRoom self.old (25 * length words.now) }
        ensures lines { Puts self.old (joined (map word_line words.now)) self.new }
        ensures short { self.new.len ≤ self.old.len + 25 * length words.now }
    {
        for &w in words {
            self.put_word(w);
        }
    }

    // Puts a line of a first word and numbers.
    #[tactic(auto, using(crate::proofs::LineLaws::line_room), unfolding(rules::specs::Lists::joined))]
    fn put_line(&mut self, first: &[u8], numbers: &[usize])
        requires { HasRoom self.old (length (line (first.now ∷ map decimal numbers.now))) }
        ensures { Puts self.old (line (first.now ∷ map decimal numbers.now)) self.new }
    {
        self.put(first);
        for &n in numbers {
            self.put(b" ");
            self.put_number(n);
        }
        self.put(b"\n");
    }

    // Puts the last line of a run that was not refused.
    #[tactic(auto, using(crate::proofs::LineLaws::last_lines), unfolding(crate::specs::Text::end_by, rules::specs::Listing::last_line))]
    fn put_end(&mut self, horizon: usize, end: End)
        requires { HasRoom self.old 64 }
        ensures { Puts self.old (end_by horizon end) self.new }
    {
        match end {
            End::Horizon => self.put_line(b"end", &[horizon]),
            _ => self.put_line(b"stop", &[end.number(), end.instant(), end.channel()]),
        }
    }

    // Puts the lines of a run: those of its words, and the last one.
    #[tactic(auto, using(crate::proofs::LineLaws::last_lines), unfolding(crate::specs::Text::last_by, rules::specs::Listing::last_line, rules::specs::Lists::joined))]
    fn put_run(&mut self, horizon: usize, words: &[u64], answer: Result<Ran, Refusal>)
        requires counted { (ran_says answer).count ≤ length words.now }
        requires room { HasRoom self.old (25 * (ran_says answer).count + 64) }
        ensures { Puts self.old (joined (map word_line (take (ran_says answer).count words.now)) ++ last_by horizon answer) self.new }
    {
        match answer {
            Ok(ran) => {
                self.put_words(&words[..ran.count]);
                self.put_end(horizon, ran.end);
            }
            Err(why) => self.put_line(b"refused", &[why.number(), why.place()]),
        }
    }
}

// ---- The input

// The parts of an input that is well framed: the table, the horizon and the bytes of the arrivals.
#[derive(Clone, Copy)]
struct Input<'a> {
    table: &'a [u8],
    horizon: usize,
    arrivals: &'a [u8],
}

// The parts of an input, where it is well framed.
#[tactic(auto, unfolding(rules::specs::Listing::framed))]
fn parts(s: &[u8]) -> Option<Input<'_>>
    ensures { MatchOption result (framed s.now ≡ false) (Parts s.now) }
{
    let reader = Reader::new(s);
    let long = reader.take(16)? as usize;
    if LONGEST_TABLE < long {
        return None;
    }
    let end = 2 + long;
    let horizon = reader.moved(8 * end).take(24)? as usize;
    let arrivals = &s[end + 3..];
    if arrivals.len() % 8 != 0 || MOST_ARRIVALS < arrivals.len() / 8 {
        return None;
    }
    Some(Input {
        table: &s[2..end],
        horizon,
        arrivals,
    })
}

// Reads the arrivals, of eight bytes each, into the front of a list; answers how many there are. `bench` has a loop of its own, over chunks that are
// taken apart already. The list is lent with the room for the most there can be, since there is no heap.
#[tactic(auto, unfolding(rules::specs::Lists::tab, rules::specs::Lists::tab_from))]
fn read_arrivals(bytes: &[u8], arrivals: &mut [u64]) -> usize
    requires { length bytes.now / 8 ≤ length arrivals.old }
    ensures count { result ≡ length bytes.now / 8 }
    ensures read { take result arrivals.new ≡ tab result (λ i. bytes_at bytes.now (8 * i) 8) }
{
    let (chunks, _) = bytes.as_chunks::<8>();
    for (i, &chunk) in chunks.iter().enumerate() {
        arrivals[i] = u64::from_be_bytes(chunk);
    }
    chunks.len()
}

// ---- The listing

impl Text<'_> {
    // Puts the listing of an input.
    #[tactic(auto, using(crate::proofs::LineLaws::last_lines))]
    fn put_listing(&mut self, s: &[u8])
        requires { HasRoom self.old size }
        ensures { Puts self.old (listing s.now) self.new }
    {
        match parts(s) {
            Some(input) => {
                let mut arrivals = [0; MOST_ARRIVALS];
                let count = read_arrivals(input.arrivals, &mut arrivals);
                let mut words = [0; WORDS];
                let answer = engine::run(
                    input.table,
                    input.horizon,
                    &arrivals[..count],
                    &mut words,
                );
                self.put_run(input.horizon, &words, answer);
            }
            // 13 is of the listing alone, and no `Refusal`: the rules' `listing` has the number.
            None => self.put_line(b"refused", &[13, 0]),
        }
    }
}

// The listing of the bytes of standard input, in front of the text; answers its length. A text shorter than SIZE is not touched, and the
// answer is then 0, as `Listed` has it.
pub fn listing(s: &[u8], text: &mut [u8]) -> usize
    ensures { Listed s.now text.old text.new result }
{
    if text.len() < SIZE {
        return 0;
    }
    let mut out = Text {
        bytes: text,
        len: 0,
    };
    out.put_listing(s);
    out.len
}
