// Conditions: token count, tokens.
ghost use Rattle.std.specs.Prelude.{◌≡◌, ◌≤◌, []};
ghost use Rattle.page_meaning.specs.Limits.{most_tokens};
ghost use Rattle.page_questions.specs.Reader.{condition_at, token_at, many, finish, and_then};
ghost use Rattle.question.specs.Held.{condition_of};
ghost use Rattle.refusal.specs.Outcomes.{IfValue};
ghost use Rattle.fields.specs.Steps.{Steps};

use crate::token::{Names, SoFar, token};
use fields::cursor::Cursor;
use limits::{PAST_TOKENS, TOKENS};
use question::types::{Condition, Kind, Token};
use refusal::{Fault, Refusal};

// The empty condition.
pub fn always() -> Condition
    ensures { result.count ≡ 0 }
{
    Condition {
        tokens: [Token { kind: Kind::Both }; TOKENS],
        count: 0,
    }
}

// So many tokens; where there are some, one truth is left in the end.
fn tokens(from: &mut Cursor, names: Names, count: usize) -> Result<Condition, Refusal>
    requires { count ≤ most_tokens }
    ensures meaning { Steps condition_of (λ s p. and_then (many (token_at s names.low names.high) count [] p) finish) from.old result from.new }
    ensures few_tokens { IfValue result (λ c. c.count ≤ most_tokens) }
{
    let mut tokens = always().tokens;
    let mut so_far = SoFar {
        compared: 0,
        height: 0,
    };
    // by an index: what is kept beside the tokens is said of the first i
    for i in 0..count {
        let kind = token(from, names, so_far)?;
        tokens[i] = Token { kind };
        so_far = so_far.with(kind);
    }
    if count != 0 && so_far.height != 1 {
        return Err(Fault::Token.at(from.at));
    }
    Ok(Condition { tokens, count })
}

// A condition, whose columns are numbered from `low` on and below `high`.
pub fn condition(from: &mut Cursor, low: usize, high: usize) -> Result<Condition, Refusal>
    ensures meaning { Steps condition_of (λ s p. condition_at s low high p) from.old result from.new }
    ensures few_tokens { IfValue result (λ c. c.count ≤ most_tokens) }
{
    let count = from.byte(Fault::Code, 0, PAST_TOKENS)? as usize;
    tokens(from, Names { low, high }, count)
}
