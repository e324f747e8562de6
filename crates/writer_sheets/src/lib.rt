// Both kinds of sheet, as far as they fit.
#![tactic(auto)]

ghost use Rattle.std.specs.Prelude.{◌≡◌, ◌<◌, List, [], ◌∷◌, length};
ghost use Rattle.question.specs.Held.{question_of, asked_of};
ghost use Rattle.page_formulas.specs.Formulas.{formulas};
ghost use Rattle.formula.specs.Formulas.{formula_at};
ghost use Rattle.outcome.specs.Answers.{verdict_of};
ghost use Rattle.page_sheets.specs.Growth.{grow_tree};
ghost use Rattle.page_sheets.specs.Sheet.{last_vertex, header, finding_of, sheet_of};
ghost use Rattle.page_sheets.specs.Tree.{Tree};
ghost use Rattle.page_sheets.specs.Trees.{all_shut, bytes_all};
ghost use Rattle.room.specs.Room.{begun, filling, puts};
ghost use Rattle.writer_trees.specs.Trees.{Grows};
ghost use Rattle.writer_sheets.specs.Starts.{AllShut, OpenFirst};

use formula::formulas::{formula_count, outline};
use outcome::Verdict;
use program::types::Formula;
use question::types::{Asked, Question};
use room::{Full, Sink};
use writer_leaves::first_leaf;
use writer_rows::rows::put_refutation;
use writer_trees::trees::plant_formula;

// Mark, version, asked, verdict. Any byte may be asked, and it is the one that is written.
fn put_header(sink: &mut Sink, asked: u8, verdict: Verdict) -> Result<(), Full>
    ensures same_reference { sink.new.room.ghost_name ≡ sink.old.room.ghost_name }
    ensures filled { filling sink.new result ≡ puts (begun sink.old) (header asked (verdict_of verdict)) }
{
    sink.put_all(&[b'V', b'U', b'S', 1, 0, asked, verdict.byte()])
}

// Formula i's tree; the formula is made in the place that is lent.
fn put_tree(
    sink: &mut Sink,
    into: &mut Formula,
    q: &Question,
    asked: Asked,
    i: usize,
) -> Result<(), Full>
    requires { i < length (formulas (question_of q.now) (asked_of asked)) }
    ensures same_reference { sink.new.room.ghost_name ≡ sink.old.room.ghost_name }
    ensures grows { Grows (begun sink.old) (grow_tree last_vertex (formula_at (formulas (question_of q.now) (asked_of asked)) i)) (filling sink.new result) }
{
    outline(into, q, asked, i);
    plant_formula(sink, into)
}

// Every formula's tree, one after another.
fn put_trees(sink: &mut Sink, q: &Question, asked: Asked) -> Result<(), Full>
    requires { AllShut (question_of q.now) (asked_of asked) }
    ensures same_reference { sink.new.room.ghost_name ≡ sink.old.room.ghost_name }
    ensures filled { (ts : List Tree) → finding_of (question_of q.now) (asked_of asked) ≡ all_shut ts → filling sink.new result ≡ puts (begun sink.old) (bytes_all ts) }
{
    let mut f = Formula::EMPTY;
    // by an index: formulas are numbered, and stand in no list
    for i in 0..formula_count(q, asked) {
        put_tree(sink, &mut f, q, asked, i)?;
    }
    Ok(())
}

// Where no formula is open.
pub fn put_yes(sink: &mut Sink, q: &Question, asked: u8) -> Result<(), Full>
    requires { AllShut (question_of q.now) asked }
    ensures same_reference { sink.new.room.ghost_name ≡ sink.old.room.ghost_name }
    ensures filled { filling sink.new result ≡ puts (begun sink.old) (sheet_of (question_of q.now) asked) }
{
    put_header(sink, asked, Verdict::Yes)?;
    put_trees(sink, q, Asked::from(asked))
}

// Where this formula is the first that is open: the rows of its first open leaf.
pub fn put_no(sink: &mut Sink, q: &Question, asked: u8, number: usize) -> Result<(), Full>
    requires { OpenFirst (question_of q.now) asked number }
    ensures same_reference { sink.new.room.ghost_name ≡ sink.old.room.ghost_name }
    ensures filled { filling sink.new result ≡ puts (begun sink.old) (sheet_of (question_of q.now) asked) }
{
    put_header(sink, asked, Verdict::No)?;
    let mut f = Formula::EMPTY;
    outline(&mut f, q, Asked::from(asked), number);
    // a question has four formulas at most
    put_refutation(sink, q, number as u8, f.pairs, &first_leaf(&f))
}
