// Before any place is decided: the closure of the ranges' facts, which needs no search. Vertex 0 is 0, and a vertex that the formula lacks counts as 0.
#![tactic(auto)]

ghost use Rattle.std.specs.Prelude.{ℕ, ◌≤◌, ◌<◌, ◌≡◌, pos, ◌-ℤ◌, length, get_or};
ghost use Rattle.std.specs.Int.{w64};
ghost use Rattle.std.proofs.Common.{SFits};
ghost use Rattle.page_meaning.specs.Limits.{most_vertices};
ghost use Rattle.page_walks.specs.Grid.{weight};
ghost use Rattle.program.specs.Compiled.{Ranged};
ghost use Rattle.spreads.specs.Spread.{span, apart, spread};

use grid::Grid;
use limits::VERTICES;
use program::types::{ONLY_ZERO, Range, Vertices};

// What a vertex ranges over: vertex 0 over 0 alone, whatever is written for it.
fn span(vertices: &Vertices, v: usize) -> Range
    requires { v < most_vertices }
    ensures { result ≡ span vertices.now.ranges v }
{
    if v == 0 {
        return ONLY_ZERO;
    }
    vertices.ranges[v].unwrap_or(ONLY_ZERO)
}

// The highest values of all vertices, so that no row has to look whether they are there.
fn highest(vertices: &Vertices) -> [i64; VERTICES]
    requires { vertices.now.count ≤ most_vertices }
    ensures { (v : ℕ) → v < vertices.now.count → get_or result v (pos 0) ≡ (span vertices.now.ranges v).hi }
{
    let mut high = [0; VERTICES];
    // by an index, here and below: a vertex is its number
    for v in 0..vertices.count {
        high[v] = span(vertices, v).hi;
    }
    high
}

// How far each vertex can be above u at most, from the highest values and u's lowest.
fn spread_row(row: &mut [i64; VERTICES], count: usize, high: &[i64; VERTICES], low: i64, u: usize)
    requires vertex { (count ≤ most_vertices) × (u < count) }
    requires exact { (v : ℕ) → v < count → SFits w64 (get_or high.now v (pos 0) -ℤ low) }
    ensures row_len { length row.new ≡ most_vertices }
    ensures apart { (v : ℕ) → v < count → get_or row.new v (pos 0) ≡ apart (get_or high.now v (pos 0)) low u v }
{
    for v in 0..count {
        row[v] = high[v] - low;
    }
    row[u] = 0;
}

// The closure, in a grid that is lent.
pub fn begin(near: &mut Grid, vertices: &Vertices)
    requires { Ranged vertices.now.count vertices.now.ranges }
    ensures { (u v : ℕ) → u < vertices.now.count → v < vertices.now.count → weight near.new.rows u v ≡ spread vertices.now.ranges u v }
{
    let high = highest(vertices);
    let rows = &mut near.rows;
    for u in 0..vertices.count {
        let low = span(vertices, u).lo;
        spread_row(&mut rows[u], vertices.count, &high, low, u);
    }
}
