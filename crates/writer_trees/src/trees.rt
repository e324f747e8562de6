// The writer's rule at a node and below it. The closure of the facts goes down beside the grid, so that one sum tells whether a
// fact closes a negative cycle; the search is made only where there is one, and the two are copied only where a branch follows.
ghost use Rattle.std.specs.Prelude.{◌≤◌, ◌<◌, ◌≡◌, false, length, pos, ◌+ℤ◌};
ghost use Rattle.std.specs.Int.Signed.{lt_z};
ghost use Rattle.page_meaning.specs.Limits.{most_vertices};
ghost use Rattle.page_formulas.specs.Formulas as written;
ghost use Rattle.page_formulas.specs.ProperFormulas.{Proper};
ghost use Rattle.page_formulas.specs.Knowledge.{open?, known};
ghost use Rattle.truth.specs.Values.{three_of};
ghost use Rattle.page_sheets.specs.Tree.{bytes_of, cycle};
ghost use Rattle.page_walks.specs.Grid.{weight};
ghost use Rattle.page_walks.specs.Search.{search};
ghost use Rattle.program.specs.Lent.{Lent};
ghost use Rattle.program.specs.Compiled.{Compiled, Fine};
ghost use Rattle.page_sheets.specs.FastRule.{strained_node, cycle_of};
ghost use Rattle.page_sheets.specs.Growth.{grow_tree};
ghost use Rattle.page_sheets.specs.Sheet.{last_vertex};
ghost use Rattle.room.specs.Room.{begun, filling, puts};
ghost use Rattle.writer_trees.specs.Trees.{Grows, cut_bytes, grown, side_by};
ghost use Rattle.grid.specs.Edges.{Fact};
ghost use Rattle.grid.specs.Facts.{with_fact};

use crate::types::Ground;
use closure::relax_in;
use cycles::search;
use facts::{added, start};
use goals::entering::contradicts;
use grid::{Edge, Grid};
use program::types::Formula;
use room::{Full, Sink};
use spreads::begin;
use truth::decisions::Truths;
use truth::truths::Truth;

// Node 2: these vertices.
fn put_cycle(sink: &mut Sink, walk: &[u8]) -> Result<(), Full>
    requires { length walk.now ≤ most_vertices }
    ensures same_reference { sink.new.room.ghost_name ≡ sink.old.room.ghost_name }
    ensures filled { filling sink.new result ≡ puts (begun sink.old) (bytes_of (cycle walk.now)) }
{
    // a walk has 25 vertices at most
    sink.put_all(&[2, walk.len() as u8])?;
    sink.put_all(walk)
}

impl<'a> Ground<'a> {
    // Node 2, by the search among the facts and one more. Put into `side`, its grid would stand in the frame of each level. `Fact` stays a
    // clause, here and below: an edge doesn't know the last vertex.
    #[inline(never)]
    fn put_search(&self, sink: &mut Sink, e: Edge) -> Result<(), Full>
        requires { Fact self.now.last e.from e.to e.weight }
        ensures same_reference { sink.new.room.ghost_name ≡ sink.old.room.ghost_name }
        ensures filled { filling sink.new result ≡ puts (begun sink.old) (bytes_of (cycle (cycle_of (search (weight (with_fact self.now.facts.now.rows e)) self.now.last)))) }
    {
        let mut facts = *self.facts;
        facts.enter(e);
        match search(&facts, self.last + 1) {
            Some(cycle) => put_cycle(sink, cycle.walk()),
            None => put_cycle(sink, &[]),
        }
    }

    // A node whose last fact closes a negative cycle, where this is known.
    fn cut(&self, sink: &mut Sink, k: Truth, e: Edge) -> Result<(), Full>
        requires { Fact self.now.last e.from e.to e.weight }
        ensures same_reference { sink.new.room.ghost_name ≡ sink.old.room.ghost_name }
        ensures filled { filling sink.new result ≡ puts (begun sink.old) (cut_bytes (strained_node (three_of k) (search (weight (with_fact self.now.facts.now.rows e)) self.now.last))) }
    {
        match k {
            Truth::Fails => sink.put(1),
            Truth::Passes | Truth::Open => self.put_search(sink, e),
        }
    }

    // Half of a branch: what one more fact comes to. A leaf is told before anything is copied: a quarter of all nodes are false by the
    // truths so far. How many truths there are stays a clause, here and below: a node's truths and its ground are two values.
    #[cycle(branch_side)]
    fn side(&self, sink: &mut Sink, truths: &Truths, e: Edge) -> Result<(), Full>
        requires { (length truths.now ≤ length self.now.places.now) × Fact self.now.last e.from e.to e.weight }
        ensures same_reference { sink.new.room.ghost_name ≡ sink.old.room.ghost_name }
        ensures grows { (F : written.Formula) → Lent F.program self.now.instructions.now self.now.places.now → Grows (begun sink.old) (side_by F self.now truths.now e) (filling sink.new result) }
    {
        let k = self.known(truths);
        if contradicts(self.near, self.last, e) {
            return self.cut(sink, k, e);
        }
        match k {
            Truth::Fails => sink.put(1),
            Truth::Passes => Ok(()),
            Truth::Open => {
                if truths.count() == self.places.len() {
                    return Ok(());
                }
                self.deeper(sink, truths, e)
            }
        }
    }

    // A branch one fact deeper, by copies of both grids with the fact in them. A function's locals are cleared where it begins; this one
    // fills them at once, so the compiler drops that, and a leaf clears no grid.
    #[cycle(branch_side)]
    fn deeper(&self, sink: &mut Sink, truths: &Truths, e: Edge) -> Result<(), Full>
        requires left { length truths.now < length self.now.places.now }
        requires fact { Fact self.now.last e.from e.to e.weight }
        requires calm { lt_z (weight self.now.near.now.rows e.to e.from +ℤ e.weight) (pos 0) ≡ false }
        ensures same_reference { sink.new.room.ghost_name ≡ sink.old.room.ghost_name }
        ensures grows { (F : written.Formula) → Lent F.program self.now.instructions.now self.now.places.now → known F.program truths.now ≡ open? → Grows (begun sink.old) (side_by F self.now truths.now e) (filling sink.new result) }
    {
        let mut facts = *self.facts;
        facts.enter(e);
        let mut near = *self.near;
        relax_in(&mut near, self.last + 1, e);
        let below = Ground {
            instructions: self.instructions,
            places: self.places,
            last: self.last,
            facts: &facts,
            near: &near,
        };
        below.branch(sink, truths)
    }

    // Node 3, where the next place is open, and both its halves.
    #[cycle(branch_side)]
    fn branch(&self, sink: &mut Sink, truths: &Truths) -> Result<(), Full>
        requires { length truths.now < length self.now.places.now }
        ensures same_reference { sink.new.room.ghost_name ≡ sink.old.room.ghost_name }
        ensures grows { (F : written.Formula) → Lent F.program self.now.instructions.now self.now.places.now → known F.program truths.now ≡ open? → Grows (begun sink.old) (grown F self.now truths.now) (filling sink.new result) }
    {
        let place = self.places[truths.count()];
        sink.put(3)?;
        self.side(sink, &truths.with(true), added(place, true))?;
        self.side(sink, &truths.with(false), added(place, false))
    }

    // A node where no cycle is negative, and all below it. Where the formula is open there is no tree, and what is stored means nothing.
    pub fn grow(&self, sink: &mut Sink, truths: &Truths) -> Result<(), Full>
        requires { length truths.now ≤ length self.now.places.now }
        ensures same_reference { sink.new.room.ghost_name ≡ sink.old.room.ghost_name }
        ensures grows { (F : written.Formula) → Lent F.program self.now.instructions.now self.now.places.now → Grows (begun sink.old) (grown F self.now truths.now) (filling sink.new result) }
    {
        match self.known(truths) {
            Truth::Fails => sink.put(1),
            Truth::Passes => Ok(()),
            Truth::Open => {
                if truths.count() == self.places.len() {
                    return Ok(());
                }
                self.branch(sink, truths)
            }
        }
    }
}

// A compiled formula's tree, from its root.
pub fn plant_formula(sink: &mut Sink, f: &Formula) -> Result<(), Full>
    requires { Fine f.now }
    ensures same_reference { sink.new.room.ghost_name ≡ sink.old.room.ghost_name }
    ensures grows { (F : written.Formula) → Compiled f.now F → Proper F → Grows (begun sink.old) (grow_tree last_vertex F) (filling sink.new result) }
{
    let facts = start(&f.vertices);
    let mut near = Grid::blank();
    begin(&mut near, &f.vertices);
    let root = Ground {
        instructions: f.program.instructions(),
        places: f.program.places(),
        last: f.vertices.count - 1,
        facts: &facts,
        near: &near,
    };
    root.grow(sink, &Truths::new())
}
