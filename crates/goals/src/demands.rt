// A part of the formula that is wanted true or false is taken apart as far as there is no choice.
ghost use Rattle.std.specs.Prelude.{◌≡◌, ◌∷◌};
ghost use Rattle.program.specs.Meanings.{number_of};
ghost use Rattle.program_tree.specs.Numbers.{tree_of};
ghost use Rattle.goals.specs.Goals.{goal, splitting, unlike, waiting, Asks, Leaves};

use crate::entering::enter;
use crate::types::{Contradiction, Goal, State};
use facts::added;
use program::types::Instruction;
use program_tree::as_tree::AsTree;
use program_tree::types::{Rows, Tree};

// Is one operand enough: an or that is wanted true, an and that is wanted false?
fn splits(instruction: Instruction, want: bool) -> bool
    ensures { result ≡ splitting (number_of instruction) want }
{
    match instruction {
        Instruction::And => !want,
        _ => want,
    }
}

// Is a constant other than wanted?
fn fails(instruction: Instruction, want: bool) -> bool
    ensures { result ≡ unlike (number_of instruction) want }
{
    match instruction {
        Instruction::True => !want,
        _ => want,
    }
}

// Its places enter the facts; what needs a choice waits. `Asks` stays a clause, here and in the tableau: it is said of a tree, a state and
// an instruction together.
fn demand_by<T: AsTree>(
    tree: &T,
    state: &mut State,
    i: usize,
    want: bool,
) -> Result<(), Contradiction>
    requires { Asks (T.tree tree.now) state.old i }
    ensures { Leaves (T.tree tree.now) state.old (goal i want ∷ waiting state.old) result state.new }
{
    let instruction = tree.instruction(i);
    match instruction {
        Instruction::Place => enter(&mut state.near, tree.last(), added(tree.place(i), want)),
        Instruction::True | Instruction::False => {
            if fails(instruction, want) {
                return Err(Contradiction);
            }
            Ok(())
        }
        Instruction::Not => demand_by(tree, state, i - 1, !want),
        Instruction::And | Instruction::Or => {
            if splits(instruction, want) {
                // i is below INSTRUCTIONS, which is below 2 ^ 16
                state.push(Goal { at: i as u16, want });
                return Ok(());
            }
            demand_by(tree, state, tree.first(i), want)?;
            demand_by(tree, state, i - 1, want)
        }
    }
}

// Of a tree.
pub fn demand(tree: &Tree, state: &mut State, i: usize, want: bool) -> Result<(), Contradiction>
    requires { Asks tree.now state.old i }
    ensures { Leaves tree.now state.old (goal i want ∷ waiting state.old) result state.new }
{
    demand_by(tree, state, i, want)
}

// Of rows, whose instructions are any numbers (from 5 on false).
pub fn demand_rows(
    rows: &Rows,
    state: &mut State,
    i: usize,
    want: bool,
) -> Result<(), Contradiction>
    requires { Asks (tree_of rows.now) state.old i }
    ensures { Leaves (tree_of rows.now) state.old (goal i want ∷ waiting state.old) result state.new }
{
    demand_by(rows, state, i, want)
}
