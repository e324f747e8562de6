// The range tests of a row's new values.
ghost use Rattle.std.specs.Prelude.{◌≡◌, true, ◌*◌, ◌<◌, length};
ghost use Rattle.page_meaning.specs.Limits.{most_columns};
ghost use Rattle.page_meaning.specs.Claims as said;
ghost use Rattle.question.specs.Held.{mode_of, column_of};
ghost use Rattle.page_formulas.specs.Formulas.{bounded_all};
ghost use Rattle.page_formulas.specs.Formulas as trouble;
ghost use Rattle.program.specs.Meanings.{term_of};
ghost use Rattle.program.specs.Built.{Room, Builds};
ghost use Rattle.sights.specs.Sights.{row_of, modes_of, Usable};
ghost use Rattle.pieces.specs.Pieces.{table_from, bounded_at};

use program::types::{Instruction, Program, Term};
use question::types::{Column, Mode};
use sights::terms::constant;
use sights::types::Sight;

// Is it kept?
pub fn kept(m: Mode) -> bool
    ensures { result ≡ said.kept (mode_of m) }
{
    match m {
        Mode::Keep => true,
        Mode::Become(_) | Mode::Shift(_, _) => false,
    }
}

// At most the upper end and at least the lower one, each joined to what stands before it.
pub fn bounded(into: &mut Program, t: Term, g: Column)
    requires { Room into.old 4 2 }
    ensures { Builds into.old into.new 4 2 (trouble.bounded (term_of t) (column_of g).range) }
{
    into.at_most(t, constant(g.hi));
    into.emit(Instruction::And);
    into.at_most(constant(g.lo), t);
    into.emit(Instruction::And);
}

// The test of the changed table's column j, which ranges over g; none where it is kept.
pub fn bounded_at(into: &mut Program, s: &Sight, j: usize, g: Column)
    requires { Room into.old 4 2 × Usable s.now × (s.now.moved ≡ true) × (j < length (modes_of s.now)) }
    ensures { Builds into.old into.new 4 2 (bounded_at s.now j (column_of g).range) }
{
    // a sight has 12 columns at most
    let i = (s.first + j) as u8;
    if !kept(s.mode(i)) {
        bounded(into, s.term(i), g);
    }
}

// Those of all its columns that are not kept, in order.
pub fn bounded_all(into: &mut Program, s: &Sight)
    requires { Room into.old (4 * most_columns) (2 * most_columns) × Usable s.now × (s.now.moved ≡ true) }
    ensures { Builds into.old into.new (4 * most_columns) (2 * most_columns) (bounded_all (row_of s.now) (table_from s.now.first s.now.columns.now) (modes_of s.now)) }
{
    // by an index: the column's number follows from the mode's
    for j in 0..s.modes.count() {
        bounded_at(into, s, j, s.columns[s.first + j]);
    }
}
