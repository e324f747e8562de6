// The closure of facts, the least sums of all walks along them, with one fact more.
#![tactic(auto)]

ghost use Rattle.std.specs.Prelude.{◌≡◌, ◌<◌, ◌≤◌, pos, ◌+ℤ◌, length, get_or};
ghost use Rattle.page_numbers.specs.Numbers.{min_z};
ghost use Rattle.page_walks.specs.Grid.{weight, far_n};
ghost use Rattle.page_walks.specs.Sizes.{filled, tabled, wide, Bounded, RowWithin};
ghost use Rattle.page_walks.specs.Nearness.{relax, Triangle};
ghost use Rattle.grid.specs.Edges.{Summable};

use grid::{Edge, Grid, lesser};

// One row of the least sums with a new edge: reach is the sum of the way to the edge and along it, on the row of the way on. How much of
// the row is within bounds stays a clause, as in sums and cycles: n differs with the call, and a row doesn't know it.
pub fn relax_row(row: &mut [i64], on: &[i64], n: usize, reach: i64)
    requires lengths { (n ≤ length row.old) × (n ≤ length on.now) }
    requires bounded { Bounded wide reach }
    requires within { RowWithin wide n on.now }
    ensures { row.new ≡ filled (λ v. min_z (get_or row.old v (pos 0)) (reach +ℤ get_or on.now v (pos 0))) n row.old }
{
    // by an index: two rows are read at it
    for v in 0..n {
        let round = reach + on[v];
        row[v] = lesser(row[v], round);
    }
}

// The least sums with a new edge, in the grid that is lent. A row that the edge doesn't lower at its end stays as it is: by the triangle
// law nothing else in it is lowered.
pub fn relax_in(near: &mut Grid, n: usize, e: Edge)
    requires summable { Summable n near.old.rows }
    requires edge { (e.from < n) × (e.to < n) × Bounded far_n e.weight }
    requires triangle { Triangle n (weight near.old.rows) }
    ensures { near.new.rows ≡ tabled (relax (weight near.old.rows) e.from e.to e.weight) n near.old.rows }
{
    let on = near.rows[e.to];
    let rows = &mut near.rows;
    // by an index: the definition numbers the rows
    for u in 0..n {
        let reach = rows[u][e.from] + e.weight;
        if reach < rows[u][e.to] {
            relax_row(&mut rows[u], &on, n, reach);
        }
    }
}
