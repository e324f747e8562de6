// Which goal is split, and which of its operands is wanted first: the smallest, since that leaves the least to choose.
ghost use Rattle.std.specs.Prelude.{◌-◌, ◌≤◌, ◌<◌};
ghost use Rattle.page_formulas.specs.Costs.{most_instructions};
ghost use Rattle.program_tree.specs.Nodes.{size_at};
ghost use Rattle.tableau_choice.specs.Choices.{InTree, TakenOut, Operands};

use crate::types::Halves;
use goals::types::{Goal, State};
use program_tree::types::Tree;

// Where the smallest of the goals that wait stands, of several the last.
fn smallest(tree: &Tree, state: &State) -> usize
    requires { (0 < state.now.count) × InTree state.now }
    ensures { result < state.now.count }
{
    (0..state.count)
        .rev()
        .min_by_key(|&k| tree.nodes[state.goals[k].at as usize].size)
        .unwrap()
}

// It is taken out, and the last takes its place.
pub fn take(tree: &Tree, state: &mut State) -> Option<Goal>
    requires { InTree state.old }
    ensures { TakenOut state.old result state.new }
{
    if state.count == 0 {
        return None;
    }
    let at = smallest(tree, state);
    let g = state.goals[at];
    state.count -= 1;
    state.goals[at] = state.goals[state.count];
    Some(g)
}

// The operands of instruction j.
pub fn halves(tree: &Tree, j: usize) -> Halves
    requires { (j < most_instructions) × (size_at tree.now (j - 1) < j) }
    ensures { Operands tree.now j result.one result.other }
{
    let first = tree.first_of(j);
    let second = j - 1;
    if tree.nodes[second].size < tree.nodes[first].size {
        return Halves {
            one: second,
            other: first,
        };
    }
    Halves {
        one: first,
        other: second,
    }
}
