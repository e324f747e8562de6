// One fact more, put into the closure of those before it.
ghost use Rattle.std.specs.Prelude.{suc, ◌≡◌, pos, ◌+ℤ◌};
ghost use Rattle.std.specs.Int.Signed.{lt_z};
ghost use Rattle.page_walks.specs.Grid.{weight};
ghost use Rattle.goals.specs.Closures.{Enterable, Enters};

use crate::types::Contradiction;
use closure::relax_in;
use grid::{Edge, Grid};

// The least sum of a walk along an edge and back by the facts. `Enterable` stays a clause, here and below: it is said of a grid, a formula's
// last vertex and an edge together.
pub fn round(near: &Grid, last: usize, e: Edge) -> i64
    requires { Enterable last near.now.rows e }
    ensures { result ≡ weight near.now.rows e.to e.from +ℤ e.weight }
{
    near.edge(e.to, e.from) + e.weight
}

// Does an edge contradict the facts: does it close a negative cycle?
pub fn contradicts(near: &Grid, last: usize, e: Edge) -> bool
    requires { Enterable last near.now.rows e }
    ensures { result ≡ lt_z (weight near.now.rows e.to e.from +ℤ e.weight) (pos 0) }
{
    round(near, last, e) < 0
}

// If it doesn't, it is one of them now.
pub fn enter(near: &mut Grid, last: usize, e: Edge) -> Result<(), Contradiction>
    requires { Enterable last near.old.rows e }
    ensures { Enters (suc last) near.old.rows e result near.new.rows }
{
    if contradicts(near, last, e) {
        return Err(Contradiction);
    }
    relax_in(near, last + 1, e);
    Ok(())
}
