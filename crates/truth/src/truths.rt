// The three values, and what is known of a formula.
ghost use Rattle.std.specs.Prelude.{◌≡◌, ◌≤◌, map, length};
ghost use Rattle.page_formulas.specs.Costs.{most_instructions};
ghost use Rattle.page_formulas.specs.Kinds.{known_kinds};
ghost use Rattle.page_formulas.specs.Knowledge.{and3, or3, not3};
ghost use Rattle.program.specs.Meanings.{number_of};
ghost use Rattle.truth.specs.Bytes.{bit};
ghost use Rattle.truth.specs.Values.{three_of, decided_of, constant_of};

use crate::stack::Stack;
use crate::steps::{Decision, Step};
use program::types::Instruction;

// In this order and is the lesser, or the greater.
#[derive(Clone, Copy, Debug, PartialEq, Eq, PartialOrd, Ord)]
pub enum Truth {
    Fails,
    Open,
    Passes,
}

impl Truth {
    pub fn and(self, other: Truth) -> Truth
        ensures { three_of result ≡ and3 (three_of self) (three_of other) }
    {
        self.min(other)
    }

    pub fn or(self, other: Truth) -> Truth
        ensures { three_of result ≡ or3 (three_of self) (three_of other) }
    {
        self.max(other)
    }

    pub fn not(self) -> Truth
        ensures { three_of result ≡ not3 (three_of self) }
    {
        match self {
            Truth::Fails => Truth::Passes,
            Truth::Open => Truth::Open,
            Truth::Passes => Truth::Fails,
        }
    }
}

// A place that isn't decided yet is open.
fn decided<T: Decision>(truths: &[T], place: usize) -> Truth
    ensures { three_of result ≡ decided_of (map T.passes truths.now) place }
{
    match truths.get(place) {
        Some(truth) if truth.passes() => Truth::Passes,
        Some(_) => Truth::Fails,
        None => Truth::Open,
    }
}

// What a number from 4 on pushes: 4 true, the rest false.
fn constant(kind: u8) -> Truth
    ensures { three_of result ≡ constant_of kind }
{
    if kind == 4 {
        Truth::Passes
    } else {
        Truth::Fails
    }
}

// Of what stands for instructions, under what stands for the truths of the first places. Their numbers are compared, since a match on six
// instructions becomes a jump through a table, which the processor guesses wrongly more often.
fn run<I: Step, T: Decision>(instructions: &[I], truths: &[T]) -> Truth
    requires { length instructions.now ≤ most_instructions }
    ensures { three_of result ≡ known_kinds (map I.number instructions.now) (map T.passes truths.now) }
{
    let mut stack = Stack::new();
    let mut place: usize = 0;
    for i in instructions {
        let kind = i.kind();
        if kind == 0 {
            stack.push(decided(truths, place));
            place += 1;
        } else if 4 <= kind {
            stack.push(constant(kind));
        } else if kind == 3 {
            stack.not();
        } else if kind == 1 {
            stack.and();
        } else {
            stack.or();
        }
    }
    stack.top()
}

// Of a program under the truths of its first places.
pub fn known(instructions: &[Instruction], truths: &[bool]) -> Truth
    requires { length instructions.now ≤ most_instructions }
    ensures { three_of result ≡ known_kinds (map number_of instructions.now) truths.now }
{
    run(instructions, truths)
}

// The same of the numbers of a program's instructions (from 5 on false), under bytes (0 false, else true).
pub fn known_bytes(kinds: &[u8], truths: &[u8]) -> Truth
    requires { length kinds.now ≤ most_instructions }
    ensures { three_of result ≡ known_kinds kinds.now (map bit truths.now) }
{
    run(kinds, truths)
}
