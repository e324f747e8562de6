// The goals that wait, looked at under the facts so far: some are done with, some leave no choice any more.
ghost use Rattle.std.specs.Prelude.{◌≡◌, ◌∷◌};
ghost use Rattle.goals.specs.Goals.{waiting, Standing, Leaves, LeavesLess};
ghost use Rattle.truth.specs.Values.{three_of};
ghost use Rattle.views.specs.Views.{Sees};
ghost use Rattle.tableau_sieve.specs.Stands.{stand_of};

use crate::types::Stand;
use goals::demands::demand;
use goals::types::{Contradiction, Goal, State};
use limits::INSTRUCTIONS;
use program_tree::types::Tree;
use truth::truths::Truth;
use views::{look, wanted};

// What is known of two operands of which one is enough.
fn stand(want: bool, first: Truth, second: Truth) -> Stand
    ensures { result ≡ stand_of want (three_of first) (three_of second) }
{
    match (wanted(want, first), wanted(want, second)) {
        (Truth::Passes, _) | (_, Truth::Passes) => Stand::Done,
        (Truth::Fails, Truth::Fails) => Stand::Dead,
        (Truth::Fails, Truth::Open) => Stand::Second,
        (Truth::Open, Truth::Fails) => Stand::First,
        (Truth::Open, Truth::Open) => Stand::Open,
    }
}

// One goal, to those that go on waiting or into the facts. Is there less to do than before? `Standing` stays a clause, here and below: it is
// said of a tree and a state together.
fn sift_one(
    tree: &Tree,
    seen: &[Truth; INSTRUCTIONS],
    state: &mut State,
    g: Goal,
) -> Result<bool, Contradiction>
    requires { Standing tree.now state.old.near.rows (g ∷ waiting state.old) × Sees tree.now state.old.near.rows tree.now.count seen.now }
    ensures { LeavesLess tree.now state.old (g ∷ waiting state.old) result state.new }
{
    let i = g.at as usize;
    let first = tree.first_of(i);
    match stand(g.want, seen[first], seen[i - 1]) {
        Stand::Done => Ok(true),
        Stand::Dead => Err(Contradiction),
        Stand::First => {
            demand(tree, state, first, g.want)?;
            Ok(true)
        }
        Stand::Second => {
            demand(tree, state, i - 1, g.want)?;
            Ok(true)
        }
        Stand::Open => {
            state.push(g);
            Ok(false)
        }
    }
}

// All of them, once.
fn sift(tree: &Tree, seen: &[Truth; INSTRUCTIONS], state: &mut State) -> Result<bool, Contradiction>
    requires { Standing tree.now state.old.near.rows (waiting state.old) × Sees tree.now state.old.near.rows tree.now.count seen.now }
    ensures { LeavesLess tree.now state.old (waiting state.old) result state.new }
{
    let goals = state.goals;
    let n = state.count;
    state.count = 0;
    let mut moved = false;
    // by an index: what waits is said of an array's first goals, here of those below k
    for k in (0..n).rev() {
        if sift_one(tree, seen, state, goals[k])? {
            moved = true;
        }
    }
    Ok(moved)
}

// Until nothing moves any more.
pub fn settle(tree: &Tree, state: &mut State) -> Result<(), Contradiction>
    requires { Standing tree.now state.old.near.rows (waiting state.old) }
    ensures { Leaves tree.now state.old (waiting state.old) result state.new }
{
    let mut moved = true;
    while moved {
        let seen = look(tree, &state.near);
        moved = sift(tree, &seen, state)?;
    }
    Ok(())
}
