// A formula of a question by its number.
ghost use Rattle.std.specs.Prelude.{◌≡◌, ◌≤◌, ◌<◌, List, length};
ghost use Rattle.page_meaning.specs.Limits.{most_rows};
ghost use Rattle.question.specs.Held.{question_of, question_with, asked_of, ShapeHeld};
ghost use Rattle.page_formulas.specs.Formulas.{formulas};
ghost use Rattle.program.specs.Built.{Long};
ghost use Rattle.program.specs.Compiled.{Compiled};
ghost use Rattle.formula.specs.Formulas.{formula_at};

use formula_claims::claims::line;
use formula_contexts::contexts::Context;
use formula_lines::lines::line_at;
use program::types::Formula;
use question::types::{Asked, Change, Column, Condition, Question, Shape, Verb, Version};
use sights::terms::whole;
use vertices::vertices;

// Formula i of an accepted question, in the place of what stood there: a question's formulas are made in one place, one after another.
pub fn outline(into: &mut Formula, q: &Question, asked: Asked, i: usize)
    requires { i < length (formulas (question_of q.now) (asked_of asked)) }
    ensures { Compiled into.new (formula_at (formulas (question_of q.now) (asked_of asked)) i) × Long into.new.program }
{
    whole(q);
    let entry = line_at(q.version, q.change.verb, asked, i);
    let pairs = entry.pairs;
    into.pairs = pairs;
    into.vertices = vertices(&q.columns[..q.shape.total], pairs);
    into.program.clear();
    line(&mut into.program, &Context::of(q, i, pairs), &entry);
}

// FORMAT 5.3: asked 2, an insert into the only table has none. Of a question it reads the tables and the change. Any byte may be asked, here
// and below: the pages have formulas for each.
pub fn insert_count(shape: &Shape, change: &Change, asked: u8) -> usize
    requires { ShapeHeld shape.now × (change.now.count ≤ most_rows) × (change.now.verb ≡ Verb.Insert) }
    ensures { (v : Version) (cs : List Column) (d : Condition) → result ≡ length (formulas (question_with v shape.now cs d change.now) asked) }
{
    let rows = &change.rows[..change.count];
    let tables = &shape.widths[..shape.tables];
    match Asked::from(asked) {
        Asked::Irrelevant => rows.len(),
        Asked::Computable => {
            if tables.len() == 1 {
                return 0;
            }
            rows.len()
        }
    }
}

// FORMAT 5.3: asked 1, version 2 has one more.
pub fn modify_count(version: Version, asked: u8) -> usize
    ensures { (h : Shape) (cs : List Column) (d : Condition) (ch : Change) → ch.verb ≡ Verb.Modify → result ≡ length (formulas (question_with version h cs d ch) asked) }
{
    match (Asked::from(asked), version) {
        (Asked::Irrelevant, Version::One) => 3,
        (Asked::Irrelevant, Version::Two) => 4,
        (Asked::Computable, _) => 4,
    }
}

// How many formulas an accepted question has.
pub fn formula_count(q: &Question, asked: Asked) -> usize
    ensures { result ≡ length (formulas (question_of q.now) (asked_of asked)) }
{
    match q.change.verb {
        Verb::Insert => insert_count(&q.shape, &q.change, asked.number()),
        Verb::Delete => 1,
        Verb::Modify => modify_count(q.version, asked.number()),
    }
}
