// Questions: the reader that gives every byte string its answer, a question or a refusal.
#![tactic(auto)]

ghost use Rattle.std.specs.Prelude.{◌≡◌};
ghost use Rattle.page_meaning.specs.Limits.{limits};
ghost use Rattle.page_questions.specs.Reader.{read_of, from_version};
ghost use Rattle.question.specs.Held.{Reads, version_of, verb_number};
ghost use Rattle.page_questions.specs.Reader.{byte};
ghost use Rattle.refusal.specs.Outcomes.{outcome_of};
ghost use Rattle.fields.specs.Steps.{Steps};
ghost use Rattle.reader.specs.Head.{version_at};

use changes::change::change;
use fields::cursor::Cursor;
use limits::PAST_TABLES;
use question::types::{Question, Verb, Version};
use refusal::{Fault, Refusal};
use tables::columns::{columns, some_visible};
use tables::widths::{shape, widths};
use tokens::condition::condition;

// The version: by which rule the question is meant. Its number becomes a rule here: nothing else says which it is.
fn version(s: &[u8]) -> Result<Version, Refusal>
    ensures { outcome_of version_of result ≡ version_at s.now }
{
    if s.len() < 5 {
        return Err(Fault::Short.at(3));
    }
    match u16::from_le_bytes([s[3], s[4]]) {
        1 => Ok(Version::One),
        2 => Ok(Version::Two),
        _ => Err(Fault::Version.at(3)),
    }
}

// The kind of change, from its byte: nothing else says which it is.
fn verb(from: &mut Cursor) -> Result<Verb, Refusal>
    ensures { Steps verb_number (λ s p. byte s 4 1 4 p) from.old result from.new }
{
    Ok(match from.byte(Fault::Code, 1, 4)? {
        1 => Verb::Insert,
        2 => Verb::Delete,
        _ => Verb::Modify,
    })
}

// The answer from the version on, whatever stands in the place of the mark. It stays a call: put into its caller it had the question
// copied once more, and a string without a mark wait for its locals.
#[inline(never)]
pub fn from_version(s: &[u8]) -> Result<Question, Refusal>
    ensures { Reads result (from_version limits s.now) }
{
    let version = version(s)?;
    let mut from = Cursor { bytes: s, at: 5 };
    let tables = from.byte(Fault::Code, 1, PAST_TABLES)? as usize;
    let verb = verb(&mut from)?;
    let changed = from.byte(Fault::Code, 0, tables)? as usize;
    let shape = shape(widths(&mut from, tables)?, tables, changed);
    let columns = columns(&mut from, shape.total)?;
    if !some_visible(&columns[..shape.total]) {
        return Err(Fault::Hidden.at(from.at));
    }
    let condition = condition(&mut from, 0, shape.total)?;
    let table = &columns[shape.first..shape.first + shape.width];
    let change = change(&mut from, verb, table, shape.first)?;
    if from.at < from.bytes.len() {
        return Err(Fault::Long.at(from.at));
    }
    Ok(Question {
        shape,
        columns,
        condition,
        change,
        version,
    })
}

// The answer to any byte string.
pub fn read(s: &[u8]) -> Result<Question, Refusal>
    ensures { Reads result (read_of s.now) }
{
    if s.len() < 3 {
        return Err(Fault::Short.at(0));
    }
    if !s.starts_with(b"VUQ") {
        return Err(Fault::Mark.at(0));
    }
    from_version(s)
}
