#![tactic(auto)]

pub mod walk;

ghost use Rattle.std.specs.Prelude.{◌≡◌, ◌∷◌, ◌-◌, ◌<◌, ◌≤◌, pos, ◌+ℤ◌, length, get_or, take, ◌<ℤ◌, IfSome};
ghost use Rattle.std.specs.Int.Signed.{lt_z};
ghost use Rattle.page_meaning.specs.Limits.{most_vertices};
ghost use Rattle.page_walks.specs.Grid.{weight};
ghost use Rattle.page_walks.specs.Sizes.{wide, Bounded, RowWithin};
ghost use Rattle.page_walks.specs.Search.{best, greedy, search};
ghost use Rattle.grid.specs.Edges.{Summable};
ghost use Rattle.cycles.specs.Firsts.{FirstIs};
ghost use Rattle.cycles.specs.Found.{walk_of, Opens};

use crate::walk::Cycle;
use grid::Grid;
use limits::VERTICES;
use sums::Walks;

// The first vertex below n by which the walk can still close below zero, where sum is the way so far.
fn first_closing(edges: &[i64; VERTICES], on: &[i64; VERTICES], n: usize, sum: i64) -> Option<usize>
    requires count { n ≤ most_vertices }
    requires bounded { Bounded wide sum }
    requires edges_within { RowWithin wide n edges.now }
    requires on_within { RowWithin wide n on.now }
    ensures { FirstIs (λ u. lt_z ((sum +ℤ get_or edges.now u (pos 0)) +ℤ get_or on.now u (pos 0)) (pos 0)) n result }
{
    (0..n).find(|&u| sum + edges[u] + on[u] < 0)
}

// How many vertices a negative closed walk has, and the first.
#[derive(Clone, Copy)]
struct Opening {
    count: usize,
    start: usize,
}

// The fewest vertices of a negative closed walk, and the first vertex that has one with so many.
fn shortest(walks: &Walks) -> Option<Opening>
    ensures { Opens (weight walks.now.grid.now.rows) (walks.now.n - 1) result }
{
    let mut row = [0i64; VERTICES];
    let mut found = None;
    // two loops in one function, left at once: the form that docs/DECISIONS.md, D9.1, settles; both numbers are what is found
    'search: for k in 0..walks.n {
        for s in 0..walks.n {
            if walks.closing_sum(&mut row, s, k) < 0 {
                found = Some(Opening {
                    count: k + 1,
                    start: s,
                });
                break 'search;
            }
        }
    }
    found
}

// The least list of so many vertices that starts there and closes below zero.
fn trace(walks: &Walks, opening: Opening) -> Cycle
    requires walk { (opening.start < walks.now.n) × (0 < opening.count) × (opening.count ≤ walks.now.n) }
    requires negative { best (weight walks.now.grid.now.rows) (walks.now.n - 1) (opening.count - 1) opening.start opening.start <ℤ pos 0 }
    ensures { (result.count ≡ opening.count) × (take opening.count result.vertices ≡ opening.start ∷ greedy (weight walks.now.grid.now.rows) (walks.now.n - 1) (opening.count - 1) opening.start (pos 0) opening.start) }
{
    let Opening { count, start } = opening;
    let mut vertices = [0u8; VERTICES];
    // a vertex is below 25, so it is a byte; and so is each next one
    vertices[0] = start as u8;
    let mut at = start;
    let mut sum: i64 = 0;
    let mut row = [0i64; VERTICES];
    // by an index: it also says how many edges are left
    for i in 1..count {
        walks.sums_back(&mut row, start, count - 1 - i);
        let next = first_closing(&walks.grid.rows[at], &row, walks.n, sum).unwrap();
        sum = sum + walks.grid.rows[at][next];
        vertices[i] = next as u8;
        at = next;
    }
    Cycle { count, vertices }
}

// The negative closed walk among the vertices below n with the fewest edges, then the least vertex list.
pub fn search(g: &Grid, n: usize) -> Option<Cycle>
    requires { Summable n g.now.rows }
    ensures { (walk_of result ≡ search (weight g.now.rows) (n - 1)) × IfSome result (λ c. c.count ≤ n) }
{
    let walks = Walks { grid: g, n };
    let opening = shortest(&walks)?;
    Some(trace(&walks, opening))
}
