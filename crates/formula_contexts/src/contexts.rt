// What a question's formulas are read under.
ghost use Rattle.std.specs.Prelude.{◌≤◌, ◌<◌, ◌≡◌, ◌&&◌, map, length, take};
ghost use Rattle.page_meaning.specs.Limits.{most_tokens};
ghost use Rattle.page_meaning.specs.Contents.{become};
ghost use Rattle.page_meaning.specs.WellFormed.{Reads};
ghost use Rattle.question.specs.Held.{setting_of, question_with, ShapeHeld};
ghost use Rattle.sights.specs.Sights.{modes_by};
ghost use Rattle.pieces.specs.Pieces.{tokens_of, Compilable};
ghost use Rattle.formula_contexts.specs.Contexts.{Of, Becomes, Buildable, condition_for, modes_for, view_of, Made, Done};

use limits::COLUMNS;
use question::types::{
    Change, Column, Condition, Mode, Question, Row, Setting, Shape, Token, Verb, Version,
};
use sights::types::{Modes, Sight};

// What claims are read under: the sight of a row after the change, the list's condition and the change's.
#[derive(Clone, Copy)]
pub struct Context<'a> {
    pub sight: Sight<'a>,
    pub listed: &'a [Token],
    pub chosen: &'a [Token],
    pub pairs: bool,
}

// A column becomes the value k.
fn put(k: i32) -> Setting
    ensures { setting_of result ≡ become k }
{
    Setting {
        mode: Mode::Become(k),
    }
}

// Each column becomes the row's value. A sight is lent the values themselves, so nothing here calls this, nor `flags`: each stands for
// its contract.
pub fn becoming(row: Row) -> [Setting; COLUMNS]
    ensures { Becomes row.values result }
{
    row.values.map(put)
}

// Which columns are visible.
pub fn flags(columns: [Column; COLUMNS]) -> [bool; COLUMNS]
    ensures { result ≡ map (λ c. c.visible) columns }
{
    columns.map(|c| c.visible)
}

impl<'a> Context<'a> {
    // A condition and modes, under a question with these tables and this list, whatever else is in it: it takes the parts, since it asks
    // no more of them than that the list can be worked out.
    pub fn under(
        shape: &Shape,
        columns: &'a [Column; COLUMNS],
        listed: &'a Condition,
        modes: Modes<'a>,
        chosen: &'a [Token],
        pairs: bool,
    ) -> Context<'a>
        requires list { ShapeHeld shape.now × (listed.now.count ≤ most_tokens) × Compilable (Of shape.now) (take listed.now.count listed.now.tokens) }
        requires change { (length (modes_by modes) ≤ shape.now.width) × Compilable (Of shape.now) chosen.now × Reads (Of shape.now) (modes_by modes) }
        ensures { (v : Version) (ch : Change) → Made (question_with v shape.now columns.now listed.now ch) (tokens_of chosen.now) (modes_by modes.entry) pairs result }
    {
        Context {
            sight: Sight {
                columns: &columns[..shape.total],
                modes,
                first: shape.first,
                second: false,
                moved: true,
            },
            listed: &listed.tokens[..listed.count],
            chosen,
            pairs,
        }
    }

    // That of formula i: a row put in, a delete's condition, a modify.
    pub fn of(q: &'a Question, i: usize, pairs: bool) -> Context<'a>
        requires { Buildable q.now.change.verb q.now × (q.now.change.verb ≡ Verb.Insert → i < q.now.change.count) }
        ensures { Done q.now (condition_for q.now.change.verb q.now) (modes_for q.now.change.verb q.now i) pairs result }
    {
        let change = &q.change;
        let shape = &q.shape;
        let width = shape.width;
        let chosen = &change.condition.tokens;
        match change.verb {
            Verb::Insert => {
                let row = Modes::Row(&change.rows[i].values[..width]);
                Context::under(shape, &q.columns, &q.condition, row, &chosen[..0], pairs)
            }
            Verb::Delete => {
                let kept = Modes::Settings(&change.settings[..0]);
                Context::under(
                    shape,
                    &q.columns,
                    &q.condition,
                    kept,
                    &chosen[..change.condition.count],
                    pairs,
                )
            }
            Verb::Modify => {
                let settings = Modes::Settings(&change.settings[..width]);
                Context::under(
                    shape,
                    &q.columns,
                    &q.condition,
                    settings,
                    &chosen[..change.condition.count],
                    pairs,
                )
            }
        }
    }

    // A row's sight, as it is or moved; the first row's where there are no two.
    pub fn view(&self, second: bool, moved: bool) -> Sight<'a>
        ensures { result ≡ view_of self.now.sight (self.now.pairs && second) moved }
    {
        Sight {
            second: self.pairs && second,
            moved,
            ..self.sight
        }
    }
}
