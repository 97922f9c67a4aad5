// What a node computes and how its state moves on, by value.
#![tactic(auto)]

ghost use Rattle.std.specs.Prelude.{◌≡◌, ◌+◌, ◌^◌, ◌<◌, min, false, pos, Some};
ghost use Rattle.std.specs.Option.{ok_or};
ghost use Rattle.rules.specs.Kinds.{is_zero, constant_ok, result as kind_result, inputs};
ghost use Rattle.kinds.specs.declared.Kind.{Kind};
ghost use Rattle.kinds.specs.Kind.{kind_number, Decodes, unknown_text};
ghost use Rattle.kinds.specs.Nodes.{never, said, ahead_of};

use std::error::Error;
use std::fmt;

// Later than any instant: a node with nothing waiting is due then, one that is not there is released then (`Unused`), and so is an instant after which
// nothing comes (`arrival_at`). A number, since with an Option for the due instant, or for the result that waits, an activation takes 103 to 113
// instructions, where its bar is 93 (docs/DESIGN-PASS.md).
pub const NEVER: u32 = 4294967295;

// ---- Kinds

// What a node computes, in the order of the kinds' numbers.
#[derive(Clone, Copy, Debug, Default, PartialEq, Eq)]
pub enum Kind {
    #[default]
    Constant,
    Copy,
    AddConstant,
    Sum,
    Difference,
    Smaller,
    Larger,
    Quotient,
    Choice,
    Gate,
    Ones,
    FirstBeam,
}

// A number that stands for no kind.
#[derive(Clone, Copy, Debug, PartialEq, Eq)]
pub struct UnknownKind(pub u32);

impl fmt::Display for UnknownKind {
    ghost output = { λ unknown. Some (unknown_text unknown) };

    fn fmt<W: fmt::Write>(&self, f: &mut fmt::Formatter<W>) -> fmt::Result {
        write!(f, "{} is no kind", self.0)
    }
}

impl Error for UnknownKind {}

impl TryFrom<u32> for Kind {
    type Error = UnknownKind;

    ghost try_from_gives = { Decodes };

    fn try_from(number: u32) -> Result<Self, UnknownKind> {
        match number {
            0 => Ok(Kind::Constant),
            1 => Ok(Kind::Copy),
            2 => Ok(Kind::AddConstant),
            3 => Ok(Kind::Sum),
            4 => Ok(Kind::Difference),
            5 => Ok(Kind::Smaller),
            6 => Ok(Kind::Larger),
            7 => Ok(Kind::Quotient),
            8 => Ok(Kind::Choice),
            9 => Ok(Kind::Gate),
            10 => Ok(Kind::Ones),
            11 => Ok(Kind::FirstBeam),
            _ => Err(UnknownKind(number)),
        }
    }
}

impl Kind {
    // How many inputs it has.
    #[tactic(auto, unfolding(rules::specs::Kinds::inputs))]
    pub fn inputs(self) -> u32
        ensures { result ≡ inputs (kind_number self) }
    {
        match self {
            Kind::Constant => 0,
            Kind::Copy | Kind::AddConstant | Kind::Quotient | Kind::Ones | Kind::FirstBeam => 1,
            Kind::Sum | Kind::Difference | Kind::Smaller | Kind::Larger | Kind::Gate => 2,
            Kind::Choice => 3,
        }
    }

    // Whether a node of this kind may have this constant.
    #[tactic(auto, using(rules::proofs::KindLaws::zero_of_bits), unfolding(rules::specs::Kinds::constant_ok))]
    pub fn takes(self, constant: i32) -> bool
        ensures { result ≡ constant_ok (kind_number self) constant }
    {
        match self {
            Kind::Constant | Kind::AddConstant => true,
            Kind::Quotient => constant != 0,
            _ => constant == 0,
        }
    }

    // The result with constant `k` on the inputs `a`, `b` and `c`, or that it is absent. The quotient goes toward zero; the one that 32 bits do not
    // hold is the least number again. The inputs stand apart, as the definition `result` has them.
    #[tactic(auto, using(rules::proofs::KindLaws::zero_of_bits, crate::proofs::Results::ones_within), unfolding(rules::specs::Kinds::result, rules::specs::Kinds::sum, rules::specs::Kinds::difference, rules::specs::Kinds::smaller, rules::specs::Kinds::larger, rules::specs::Kinds::quotient, rules::specs::Kinds::ones, rules::specs::Kinds::first_beam))]
    pub fn result(self, k: i32, a: i32, b: i32, c: i32) -> Option<i32>
        requires { self ≡ Kind.Quotient → is_zero k ≡ false }
        ensures { said result ≡ kind_result (kind_number self) k a b c }
    {
        match self {
            Kind::Constant => Some(k),
            Kind::Copy => Some(a),
            Kind::AddConstant => Some(a.wrapping_add(k)),
            Kind::Sum => Some(a.wrapping_add(b)),
            Kind::Difference => Some(a.wrapping_sub(b)),
            Kind::Smaller => Some(a.min(b)),
            Kind::Larger => Some(a.max(b)),
            Kind::Quotient => Some(a.wrapping_div(k)),
            Kind::Choice => Some(if a == 0 { c } else { b }),
            Kind::Gate => if a == 0 { None } else { Some(b) },
            Kind::Ones => Some(a.count_ones().cast_signed()),
            Kind::FirstBeam => Some(a.leading_zeros().cast_signed()),
        }
    }
}

// ---- A node's state

// A node's next release and its waiting result, which move on together. With nothing waiting, `due` is NEVER, and no Option: see there.
#[derive(Clone, Copy, Debug, PartialEq, Eq)]
pub struct Pending {
    pub next: u32,
    pub due: u32,
    pub value: i32,
}

impl Pending {
    // After its result is written: nothing waits.
    pub fn written(self) -> Self
        ensures { result ≡ record self { due = never } }
    {
        Pending { due: NEVER, ..self }
    }

    // After a release that goes ahead: its result waits. Where that is absent nothing does, and the value is kept that is given in its place.
    pub fn ahead(self, period: u32, deadline: u32, made: Result<i32, i32>) -> Self
        requires { (self.next < 2 ^ 24) × (period < 65536) × (deadline < 65536) }
        ensures { result ≡ ahead_of self period deadline made }
    {
        let next = self.next + period;
        match made {
            Ok(value) => Pending {
                next,
                due: self.next + deadline,
                value,
            },
            Err(kept) => Pending {
                next,
                due: NEVER,
                value: kept,
            },
        }
    }

    // After a release that goes ahead, by what the node made: where that is absent, 0 is kept.
    pub fn released(self, period: u32, deadline: u32, made: Option<i32>) -> Self
        requires { (self.next < 2 ^ 24) × (period < 65536) × (deadline < 65536) }
        ensures { result ≡ ahead_of self period deadline (ok_or made (pos 0)) }
    {
        self.ahead(period, deadline, made.ok_or(0))
    }

    // After a release that skips: nothing waits.
    pub fn skipped(self, period: u32) -> Self
        requires { (self.next < 2 ^ 24) × (period < 65536) }
        ensures { result ≡ record self { next = self.next + period; due = never } }
    {
        Pending {
            next: self.next + period,
            due: NEVER,
            ..self
        }
    }

    // The earlier of the next release and the due instant.
    pub fn soon(self) -> u32
        ensures { result ≡ min self.next self.due }
    {
        self.next.min(self.due)
    }
}
