// What the facts so far say of each instruction, in Kleene's three values.
#![tactic(auto)]

ghost use Rattle.std.specs.Prelude.{suc, ◌<◌, ◌≡◌};
ghost use Rattle.program.specs.Meanings.{place_of};
ghost use Rattle.program_tree.specs.Nodes.{Placed, LaidRows};
ghost use Rattle.goals.specs.Closures.{Tight};
ghost use Rattle.truth.specs.Values.{three_of};
ghost use Rattle.views.specs.Views.{wanted_by, seen_place, Seen, Sees};

use facts::added;
use goals::entering::round;
use grid::Grid;
use limits::INSTRUCTIONS;
use program::types::{Instruction, Place};
use program_tree::types::Tree;
use truth::truths::Truth;

// Is it as wanted?
pub fn wanted(want: bool, a: Truth) -> Truth
    ensures { three_of result ≡ wanted_by want (three_of a) }
{
    if want { a } else { a.not() }
}

// Of a place: implied if the facts have it, contradicted if it would close a negative cycle. `Tight` stays a clause, here and below: it is
// said of the vertices up to the last, which a grid doesn't know.
fn seen_place(near: &Grid, last: usize, place: Place) -> Truth
    requires { Placed last (place_of place) × Tight (suc last) near.now.rows }
    ensures { three_of result ≡ seen_place near.now.rows (place_of place) }
{
    let e = added(place, true);
    if near.edge(e.from, e.to) <= e.weight {
        return Truth::Passes;
    }
    if round(near, last, e) < 0 {
        return Truth::Fails;
    }
    Truth::Open
}

// Of an instruction, from what is seen of those before it.
fn view(tree: &Tree, near: &Grid, seen: &[Truth; INSTRUCTIONS], i: usize) -> Truth
    requires laid_rows { LaidRows tree.now × Tight (suc tree.now.last) near.now.rows }
    requires i_lt_count { (i < tree.now.count) × Sees tree.now near.now.rows i seen.now }
    ensures { Seen tree.now near.now.rows i result }
{
    let node = tree.nodes[i];
    match node.instruction {
        Instruction::Place => seen_place(near, tree.last, node.place),
        Instruction::True => Truth::Passes,
        Instruction::False => Truth::Fails,
        Instruction::Not => seen[i - 1].not(),
        Instruction::And => seen[tree.first_of(i)].and(seen[i - 1]),
        Instruction::Or => seen[tree.first_of(i)].or(seen[i - 1]),
    }
}

// Of every instruction, in one pass.
pub fn look(tree: &Tree, near: &Grid) -> [Truth; INSTRUCTIONS]
    requires { LaidRows tree.now × Tight (suc tree.now.last) near.now.rows }
    ensures { Sees tree.now near.now.rows tree.now.count result }
{
    let mut seen = [Truth::Open; INSTRUCTIONS];
    // by an index: an instruction's operands are seen before it
    for i in 0..tree.count {
        seen[i] = view(tree, near, &seen, i);
    }
    seen
}
