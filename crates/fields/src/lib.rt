// Fields of 1 to 32 bits at any bit of lent bytes, most significant bit first.
#![tactic(auto)]

ghost use Rattle.std.specs.Prelude.{◌≡◌, ◌+◌, ◌-◌, ◌*◌, ◌/◌, ◌%◌, ◌^◌, ◌≤◌, ◌<◌, leb, length, get_or};
ghost use Rattle.std.specs.Int.{w32};
ghost use Rattle.std.proofs.Common.{to_z, of_z};
ghost use Rattle.rules.specs.Table.{field_at};
ghost use Rattle.fields.specs.Bits.{field_or_end};

// Bit `k` of byte `i`, the most significant first.
fn bit(s: &[u8], i: usize, k: usize) -> u32
    requires { (i < length s.now) × (k < 8) }
    ensures { result ≡ get_or s.now i 0 / 2 ^ (7 - k) % 2 }
{
    (u32::from(s[i]) >> (7 - k)) % 2
}

// The number that the `width` bits from bit `at` on make.
fn value_at(s: &[u8], at: usize, width: usize) -> u32
    requires { (width ≤ 32) × (at + width ≤ 8 * length s.now) }
    ensures { result ≡ field_at s.now at width }
{
    let mut value: u32 = 0;
    for i in 0..width {
        value = value * 2 + bit(s, at / 8 + (at % 8 + i) / 8, (at % 8 + i) % 8);
    }
    value
}

// A reader of lent bytes: the bytes, and the bit that it stands at, whatever it is. That it is low enough is asked by those who add to it.
#[derive(Clone, Copy, Debug, PartialEq, Eq)]
pub struct Reader<'a> {
    pub bytes: &'a [u8],
    pub at: usize,
}

impl<'a> Reader<'a> {
    // A reader at the first bit.
    pub fn new(bytes: &'a [u8]) -> Self
        ensures { (result.bytes ≡ bytes.entry) × (result.at ≡ 0) }
    {
        Reader { bytes, at: 0 }
    }

    // The reader at another bit.
    pub fn moved(self, at: usize) -> Self
        ensures { (result.bytes ≡ self.entry.bytes) × (result.at ≡ at) }
    {
        Reader {
            bytes: self.bytes,
            at,
        }
    }

    // Whether the `width` bits from where the reader stands are all there.
    pub fn holds(self, width: usize) -> bool
        ensures { result ≡ leb (self.entry.at + width) (8 * length self.entry.bytes.now) }
    {
        self.at / 8 + width / 8 + (self.at % 8 + width % 8 + 7) / 8 <= self.bytes.len()
    }

    // The field of `width` bits where the reader stands, where the bits do not end before. A field of more than 32 bits is never there.
    pub fn take(self, width: usize) -> Option<u32>
        ensures { result ≡ field_or_end self.entry.bytes.now self.entry.at width }
    {
        if 32 < width {
            return None;
        }
        if self.holds(width) {
            return Some(value_at(self.bytes, self.at, width));
        }
        None
    }

    // The field of `width` bits that starts so many bits ahead, which has to be there.
    pub fn field(self, ahead: usize, width: usize) -> u32
        requires { (width ≤ 32) × (self.at + ahead + width ≤ 8 * length self.bytes.now) × (self.at + ahead < 2 ^ 64) }
        ensures { result ≡ field_at self.entry.bytes.now (self.entry.at + ahead) width }
    {
        self.moved(self.at + ahead).take(width).unwrap()
    }
}

// The token that 32 bits stand for, in two's complement.
pub fn signed(x: u32) -> i32
    ensures { result ≡ to_z w32 x }
{
    x.cast_signed()
}

// The 32 bits of a token.
pub fn pattern(x: i32) -> u32
    ensures { result ≡ of_z w32 x }
{
    x.cast_unsigned()
}
