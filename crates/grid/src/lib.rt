// Facts between vertices: a grid of edge weights, lent to be read; one more fact gives a grid by value, or is looked at beside the grid.
#![tactic(auto)]

ghost use Rattle.std.specs.Prelude.{◌≡◌, ◌<◌, ◌≤◌, length};
ghost use Rattle.page_walks.specs.Walk.{Below, closed};
ghost use Rattle.page_numbers.specs.Numbers.{min_z};
ghost use Rattle.page_meaning.specs.Limits.{most_vertices};
ghost use Rattle.page_walks.specs.Grid.{blank, weight, tighten, far_n};
ghost use Rattle.page_walks.specs.Sizes.{Sized, AllWithin};

use limits::VERTICES;

// The weight of a missing edge.
pub const FAR: i64 = 1099511627776;

pub fn lesser(a: i64, b: i64) -> i64
    ensures { result ≡ min_z a b }
{
    a.min(b)
}

// A fact as an edge.
#[derive(Clone, Copy)]
pub struct Edge {
    pub from: usize,
    pub to: usize,
    pub weight: i64,
}

// Facts: row `from`, entry `to` is the weight of that edge.
#[derive(Clone, Copy)]
pub struct Grid {
    pub rows: [[i64; VERTICES]; VERTICES],
    pub ghost sized: { Sized most_vertices rows },
}

impl Grid {
    ghost use Rattle.grid.specs.Facts.{with_fact};

    // No fact at all: every edge is missing.
    pub fn blank() -> Grid
        ensures { result.rows ≡ blank most_vertices }
    {
        Grid {
            rows: [[FAR; VERTICES]; VERTICES],
        }
    }

    // The weight of the edge between two vertices.
    pub fn edge(&self, from: usize, to: usize) -> i64
        requires { (from < most_vertices) × (to < most_vertices) }
        ensures { result ≡ weight self.now.rows from to }
    {
        self.rows[from][to]
    }

    // One more fact: the grid with one tightened edge. That the ends are vertices stays a clause, here and below: an edge knows no grid.
    pub fn tighten(&self, e: Edge) -> Grid
        requires { (e.from < most_vertices) × (e.to < most_vertices) }
        ensures { result.rows ≡ tighten self.now.rows e.from e.to e.weight }
    {
        let mut g = *self;
        g.enter(e);
        g
    }

    // The same in a grid that is still being made.
    pub fn enter(&mut self, e: Edge)
        requires { (e.from < most_vertices) × (e.to < most_vertices) }
        ensures { self.new.rows ≡ tighten self.old.rows e.from e.to e.weight }
    {
        let least = lesser(self.rows[e.from][e.to], e.weight);
        self.rows[e.from][e.to] = least;
    }

    // The weight between two vertices where there is one fact more. A leaf looks at a few edges: the grid with the fact isn't made for it.
    fn edge_with(&self, e: Edge, u: usize, v: usize) -> i64
        requires { (u < most_vertices) × (v < most_vertices) × (e.from < most_vertices) × (e.to < most_vertices) }
        ensures { result ≡ weight (with_fact self.now.rows e) u v }
    {
        let w = self.edge(u, v);
        if u != e.from {
            return w;
        }
        if v != e.to {
            return w;
        }
        lesser(w, e.weight)
    }

    // The sum of a closed walk where there is one fact more: along its edges and back to the first vertex.
    pub fn closing(&self, e: Edge, vertices: &[u8]) -> i64
        requires walk { (0 < length vertices.now) × (length vertices.now ≤ most_vertices) × Below most_vertices vertices.now }
        requires edge { (e.from < most_vertices) × (e.to < most_vertices) × AllWithin far_n most_vertices (with_fact self.now.rows e) }
        ensures { result ≡ closed (weight (with_fact self.now.rows e)) vertices.now }
    {
        let first = vertices[0] as usize;
        let mut at = first;
        let mut sum: i64 = 0;
        for v in &vertices[1..] {
            let next = *v as usize;
            sum = sum + self.edge_with(e, at, next);
            at = next;
        }
        sum + self.edge_with(e, at, first)
    }
}
