#![tactic(auto)]

ghost use Rattle.std.specs.Prelude.{◌≡◌, ◌-◌, ◌<◌, ◌≤◌, pos, ◌+ℤ◌, length, get_or};
ghost use Rattle.page_meaning.specs.Limits.{most_vertices};
ghost use Rattle.page_walks.specs.Grid.{weight};
ghost use Rattle.page_walks.specs.Sizes.{filled, wide, RowWithin};
ghost use Rattle.page_walks.specs.Search.{least, best};
ghost use Rattle.grid.specs.Edges.{Summable};
ghost use Rattle.sums.specs.SumsBack.{Back};

use grid::{Grid, lesser};
use limits::VERTICES;

// The least sum of an edge to a vertex below n and the way on from there.
fn least_sum(edges: &[i64; VERTICES], on: &[i64; VERTICES], n: usize) -> i64
    requires count { (0 < n) × (n ≤ most_vertices) }
    requires edges_within { RowWithin wide n edges.now }
    requires on_within { RowWithin wide n on.now }
    ensures { result ≡ least (λ u. get_or edges.now u (pos 0) +ℤ get_or on.now u (pos 0)) (n - 1) }
{
    let mut sum = edges[0] + on[0];
    // by an index: two rows are read at it
    for u in 1..n {
        let other = edges[u] + on[u];
        sum = lesser(sum, other);
    }
    sum
}

// The walks between the first n vertices, along the edges of a grid.
#[derive(Clone, Copy)]
pub struct Walks<'a> {
    pub grid: &'a Grid,
    pub n: usize,
    pub ghost summable: { Summable n grid.now.rows },
}

impl<'a> Walks<'a> {
    // The weights of the edges into s, from each vertex.
    fn column(&self, row: &mut [i64; VERTICES], s: usize)
        requires { s < most_vertices }
        ensures { row.new ≡ filled (λ v. weight self.now.grid.now.rows v s) self.now.n row.old }
    {
        // by an index: the row's entry and the grid's row have one number
        for v in 0..self.n {
            row[v] = self.grid.rows[v][s];
        }
    }

    // One edge more: from each vertex the least sum of an edge and the way on.
    fn longer(&self, on: &[i64; VERTICES], row: &mut [i64; VERTICES])
        requires { RowWithin wide self.now.n on.now }
        ensures { row.new ≡ filled (λ v. least (λ u. weight self.now.grid.now.rows v u +ℤ get_or on.now u (pos 0)) (self.now.n - 1)) self.now.n row.old }
    {
        // by an index, as above
        for v in 0..self.n {
            row[v] = least_sum(&self.grid.rows[v], on, self.n);
        }
    }

    // The least sums of the walks back to s with so many edges and one more, worked out anew in two rows: the way so far, and the one that
    // is filled.
    pub fn sums_back(&self, row: &mut [i64; VERTICES], s: usize, edges: usize)
        requires { (s < self.now.n) × (edges < self.now.n) }
        ensures { Back self.now.grid.now.rows self.now.n s edges row.new }
    {
        self.column(row, s);
        let mut next = [0i64; VERTICES];
        // so many turns: nothing is read at j
        for j in 0..edges {
            self.longer(row, &mut next);
            *row = next;
        }
    }

    // The least sum of the closed walks through s with so many edges and one more: the last edge is taken from s alone, so the row has one
    // edge less.
    pub fn closing_sum(&self, row: &mut [i64; VERTICES], s: usize, edges: usize) -> i64
        requires { (s < self.now.n) × (edges < self.now.n) }
        ensures { (result ≡ best (weight self.now.grid.now.rows) (self.now.n - 1) edges s s) × (length row.new ≡ most_vertices) }
    {
        if edges == 0 {
            return self.grid.rows[s][s];
        }
        self.sums_back(row, s, edges - 1);
        least_sum(&self.grid.rows[s], row, self.n)
    }
}
