// The tableau: what needs no choice comes first, then every goal that waits is looked at, and only then is one of them split.
ghost use Rattle.std.specs.Prelude.{ℕ, Bool, ◌∷◌};
ghost use Rattle.std.specs.Result.{result_ok};
ghost use Rattle.page_formulas.specs.Program.{Values};
ghost use Rattle.program_tree.specs.Nodes.{Describes};
ghost use Rattle.goals.specs.Goals.{goal, waiting, Asks, Leaves, Solves, Opens};

use goals::demands::demand;
use goals::types::{Contradiction, State};
use limits::VERTICES;
use program_tree::types::Tree;
use tableau_choice::choice::{halves, take};
use tableau_sieve::sieve::settle;

// All that needs no choice, with instruction i wanted so.
fn advance(tree: &Tree, state: &mut State, i: usize, want: bool) -> Result<(), Contradiction>
    requires { Asks tree.now state.old i }
    ensures { Leaves tree.now state.old (goal i want ∷ waiting state.old) result state.new }
{
    demand(tree, state, i, want)?;
    settle(tree, state)
}

// The values that meet the facts, at which instruction i and every goal that waits are as wanted. At a split one operand is wanted, on a
// copy of facts and goals; if that leads nowhere, the other is and the one is not, so that nothing is looked at twice.
pub fn solve(
    tree: &Tree,
    state: &mut State,
    i: usize,
    want: bool,
) -> Result<[i64; VERTICES], Contradiction>
    requires { Asks tree.now state.old i }
    ensures { (v : Values → ℕ → Bool) → Describes tree.now v → Opens (result_ok result) (Solves tree.now v state.old.near.rows (goal i want ∷ waiting state.old)) }
{
    advance(tree, state, i, want)?;
    let Some(g) = take(tree, state) else {
        return Ok(state.near.rows[0]);
    };
    let h = halves(tree, g.at as usize);
    let mut copy = *state;
    if let Ok(values) = solve(tree, &mut copy, h.one, g.want) {
        return Ok(values);
    }
    demand(tree, state, h.one, !g.want)?;
    solve(tree, state, h.other, g.want)
}
