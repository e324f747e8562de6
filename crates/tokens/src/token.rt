// One token of a condition.
ghost use Rattle.std.specs.Prelude.{ℕ, ◌≡◌, ◌+◌, ◌<◌, ◌^◌};
ghost use Rattle.page_questions.specs.Reader as reader;
ghost use Rattle.page_questions.specs.Reader.{byte, constant_at, comparison_at, counted, after};
ghost use Rattle.question.specs.Held.{op_of, side_of, kind_of};
ghost use Rattle.fields.specs.Steps.{Steps, read_of};
ghost use Rattle.tokens.specs.Tokens.{side_at, needs_at, token_with};

use fields::cursor::Cursor;
use limits::COMPARISONS;
use question::types::{Kind, Op, Side};
use refusal::{Fault, Refusal};

// FORMAT 2.2: how far a constant may lie from 0.
const LARGEST: i32 = 2000000000;

// FORMAT 3.3: the byte that stands for no column.
pub const NO_COLUMN: u8 = 255;

// FORMAT 3.3: the operators by number. A byte of the format becomes an operator here, and comes from nowhere else.
fn op_of(number: u8) -> Op
    ensures { op_of result ≡ reader.op_of number }
{
    match number {
        1 => Op::Less,
        2 => Op::AtMost,
        3 => Op::Equal,
        4 => Op::AtLeast,
        5 => Op::More,
        _ => Op::Unequal,
    }
}

// The constant of a comparison or a mode.
pub fn constant(from: &mut Cursor) -> Result<i32, Refusal>
    ensures { Steps (λ k. k) constant_at from.old result from.new }
{
    from.number(Fault::Range, -LARGEST, LARGEST)
}

// The columns that may be named: from `low` on and below `high`.
#[derive(Clone, Copy)]
pub struct Names {
    pub low: usize,
    pub high: usize,
}

impl Names {
    // A column's number.
    pub fn column(self, from: &mut Cursor) -> Result<u8, Refusal>
        ensures { Steps (λ i. i) (λ s p. byte s 7 self.low self.high p) from.old result from.new }
    {
        from.byte(Fault::Column, self.low, self.high)
    }

    // A comparison's right side.
    fn side(self, from: &mut Cursor) -> Result<Side, Refusal>
        ensures { Steps side_of (λ s p. side_at s self.low self.high p) from.old result from.new }
    {
        match from.bytes.get(from.at) {
            Some(&NO_COLUMN) => {
                from.at += 1;
                Ok(Side::Constant(constant(from)?))
            }
            _ => {
                let column = self.column(from)?;
                Ok(Side::Column(column, constant(from)?))
            }
        }
    }

    // A comparison after its token byte.
    fn comparison(self, from: &mut Cursor) -> Result<Kind, Refusal>
        ensures { Steps kind_of (λ s p. comparison_at s self.low self.high p) from.old result from.new }
    {
        let op = op_of(from.byte(Fault::Token, 1, 7)?);
        let left = self.column(from)?;
        let right = self.side(from)?;
        Ok(Kind::Compare(op, left, right))
    }
}

// What the tokens so far come to: how many comparisons there were, and how many truths stand.
#[derive(Clone, Copy)]
pub struct SoFar {
    pub compared: usize,
    pub height: usize,
}

impl SoFar {
    // With one token more.
    pub fn with(self, kind: Kind) -> SoFar
        requires compared_fits { self.compared + 1 < 2 ^ 64 }
        requires height_fits { self.height + 1 < 2 ^ 64 }
        ensures compared { result.compared ≡ counted self.compared (kind_of kind) }
        ensures height { result.height ≡ after self.height (kind_of kind) }
    {
        match kind {
            Kind::Compare(..) => SoFar {
                compared: self.compared + 1,
                height: self.height + 1,
            },
            Kind::Both | Kind::Either => SoFar {
                height: self.height.saturating_sub(1),
                ..self
            },
            Kind::Negate => self,
        }
    }

    // A token that takes so many truths, if they stand.
    fn takes(self, wants: usize, kind: Kind, place: usize) -> Result<Kind, Refusal>
        ensures { (q : ℕ) → read_of kind_of result q ≡ needs_at (kind_of kind) wants self.height place q }
    {
        if self.height < wants {
            return Err(Fault::Token.at(place));
        }
        Ok(kind)
    }
}

// A token. Its first byte says which kind it is; nothing else does.
pub fn token(from: &mut Cursor, names: Names, so_far: SoFar) -> Result<Kind, Refusal>
    ensures { Steps kind_of (λ s p. token_with s names.low names.high so_far.compared so_far.height p) from.old result from.new }
{
    let place = from.at;
    match from.byte(Fault::Token, 1, 5)? {
        1 if so_far.compared < COMPARISONS => names.comparison(from),
        1 => Err(Fault::Code.at(place)),
        2 => so_far.takes(2, Kind::Both, place),
        3 => so_far.takes(2, Kind::Either, place),
        _ => so_far.takes(1, Kind::Negate, place),
    }
}
