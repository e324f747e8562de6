// Which term stands for a column, on either row and after the change.
ghost use Rattle.std.specs.Prelude.{◌≡◌, ◌<◌, ◌≤◌, length, get_or};
ghost use Rattle.page_meaning.specs.Contents.{keep};
ghost use Rattle.page_meaning.specs.Limits.{most_columns};
ghost use Rattle.page_meaning.specs.WellFormed.{SideUses};
ghost use Rattle.question.specs.Held.{mode_of, side_of, question_of};
ghost use Rattle.page_formulas.specs.Compilation.{constant_term, side_term};
ghost use Rattle.program.specs.Meanings.{term_of};
ghost use Rattle.sights.specs.Sights.{row_sight, vertex_of, row_of, mode_in, modes_by, sight_of, There, Whole, Has, Usable, Stands, ModeReads};

use crate::types::{Modes, Sight};
use ints::weights::{sum, wide};
use program::types::Term;
use question::types::{Mode, Question, Side};

// FORMAT 5.4: column i of the first row is vertex 1 + i; of the second too where it is visible, and else 1 + n + i of n columns.
pub fn vertex_of(second: bool, visible: bool, n: usize, i: u8) -> u8
    requires { (n ≤ most_columns) × (i < n) }
    ensures { result ≡ vertex_of second visible n i }
{
    if second && !visible {
        // n is 12 at most
        return n as u8 + i + 1;
    }
    i + 1
}

// A question's array of columns is as long as declared: a reference alone does not tell the proof so, a read does.
pub fn whole(q: &Question)
    ensures { Whole q.now }
{
    let _ = q.columns[0].visible;
}

// The vertex of a question's column. `Sight::vertex` stands beside it: each is one line over `vertex_of`, of another value.
pub fn vertex_at(q: &Question, second: bool, i: u8) -> u8
    requires { There q.now i }
    ensures { result ≡ (row_sight (question_of q.now) second i).vertex }
{
    let at = i as usize;
    vertex_of(second, q.columns[at].visible, q.shape.total, i)
}

// A constant stands at vertex 0.
pub fn constant(k: i32) -> Term
    ensures { Stands result (constant_term k) }
{
    Term {
        vertex: 0,
        offset: wide(k),
    }
}

impl Modes<'_> {
    // How many columns they are of.
    pub fn count(&self) -> usize
        ensures { result ≡ length (modes_by self.now) }
    {
        match *self {
            Modes::Row(values) => values.len(),
            Modes::Settings(settings) => settings.len(),
        }
    }

    // What becomes of the changed table's column j.
    fn at(&self, j: usize) -> Mode
        ensures { mode_of result ≡ get_or (modes_by self.now) j keep }
    {
        match *self {
            Modes::Row(values) => match values.get(j) {
                Some(k) => Mode::Become(*k),
                None => Mode::Keep,
            },
            Modes::Settings(settings) => match settings.get(j) {
                Some(s) => s.mode,
                None => Mode::Keep,
            },
        }
    }
}

impl Sight<'_> {
    // The vertex of a column as it is. `Usable` stays a clause, here and below: only the context that a sight is seen from knows it.
    pub fn vertex(&self, i: u8) -> u8
        requires { Usable self.now × Has self.now i }
        ensures { result ≡ (row_of self.now i).vertex }
    {
        let at = i as usize;
        vertex_of(self.second, self.columns[at].visible, self.columns.len(), i)
    }

    // What becomes of a column; a sight that does not move keeps them all.
    pub fn mode(&self, i: u8) -> Mode
        requires { Usable self.now }
        ensures { (mode_of result ≡ mode_in self.now i) × ModeReads (Has self.now) (mode_of result) }
    {
        let at = i as usize;
        if !self.moved || at < self.first {
            return Mode::Keep;
        }
        self.modes.at(at - self.first)
    }

    pub fn term(&self, i: u8) -> Term
        requires { Usable self.now × Has self.now i }
        ensures { Stands result (sight_of self.now i) }
    {
        match self.mode(i) {
            Mode::Keep => Term {
                vertex: self.vertex(i),
                offset: 0,
            },
            Mode::Become(k) => constant(k),
            Mode::Shift(j, k) => Term {
                vertex: self.vertex(j),
                offset: wide(k),
            },
        }
    }

    // A comparison's right side.
    pub fn side(&self, side: Side) -> Term
        requires { Usable self.now × SideUses (Has self.now) (side_of side) }
        ensures { term_of result ≡ side_term (sight_of self.now) (side_of side) }
    {
        match side {
            Side::Constant(k) => constant(k),
            Side::Column(i, k) => {
                let t = self.term(i);
                Term {
                    vertex: t.vertex,
                    offset: sum(t.offset, wide(k)),
                }
            }
        }
    }
}
