// FORMAT 5.6: the facts of a formula as edges of the grid.
#![tactic(auto)]

ghost use Rattle.std.specs.Prelude.{◌≡◌, ◌<◌};
ghost use Rattle.std.proofs.Math.Option.{some};
ghost use Rattle.page_walks.specs.Sizes.{Bounded};
ghost use Rattle.page_walks.specs.Grid.{far_n};
ghost use Rattle.page_meaning.specs.Limits.{most_vertices};
ghost use Rattle.page_sheets.specs.Facts.{confine};
ghost use Rattle.program.specs.Meanings.{place_of, range_of};
ghost use Rattle.program.specs.Compiled.{SmallSpans};
ghost use Rattle.facts.specs.Decisions.{fact_of};
ghost use Rattle.facts.specs.RangeFacts.{Starts};

use grid::{Edge, Grid};
use ints::weights::negation;
use limits::VERTICES;
use program::types::{Place, Range, Vertices};

// The place left − right ≤ most taken as true, or as false: an edge from right to left with weight most, or back with −1 − most.
pub fn added(place: Place, truth: bool) -> Edge
    ensures { result ≡ fact_of (place_of place) truth }
{
    let left = place.left as usize;
    let right = place.right as usize;
    if truth {
        return Edge {
            from: right,
            to: left,
            weight: place.most,
        };
    }
    Edge {
        from: left,
        to: right,
        weight: negation(place.most),
    }
}

// A vertex's range: x − 0 ≤ hi, 0 − x ≤ −lo.
fn confine(g: &mut Grid, v: usize, r: Range)
    requires { (v < most_vertices) × Bounded far_n r.lo }
    ensures { g.new.rows ≡ confine g.old.rows v (some (range_of r)) }
{
    g.enter(Edge {
        from: 0,
        to: v,
        weight: r.hi,
    });
    g.enter(Edge {
        from: v,
        to: 0,
        weight: -r.lo,
    });
}

// The facts before any decision: the ranges of the vertices that are there.
pub fn start(vertices: &Vertices) -> Grid
    requires { SmallSpans vertices.now.ranges }
    ensures { Starts vertices.now.ranges result.rows }
{
    let mut g = Grid::blank();
    // by an index: a vertex is its number
    for v in 1..VERTICES {
        if let Some(r) = vertices.ranges[v] {
            confine(&mut g, v, r);
        }
    }
    g
}
