// FORMAT 8.2: the nodes of a case tree, one at a time, and what the checker says of each.
#![tactic(auto)]

ghost use Rattle.std.specs.Prelude.{◌≡◌, ℕ, ◌+◌, ◌≤◌, ◌<◌, List, Option, None, is_some, map, length, get_or, drop, pos};
ghost use Rattle.std.specs.Int.Signed.{lt_z};
ghost use Rattle.page_meaning.specs.Limits.{most_vertices};
ghost use Rattle.page_walks.specs.Grid.{weight};
ghost use Rattle.page_walks.specs.Walk.{Below, closed};
ghost use Rattle.page_formulas.specs.Costs.{most_instructions};
ghost use Rattle.page_formulas.specs.Formulas.{Formula};
ghost use Rattle.page_formulas.specs.Kinds.{known_kinds};
ghost use Rattle.page_sheets.specs.Tree.{false_node, cycle_node};
ghost use Rattle.grid.specs.Facts.{with_fact};
ghost use Rattle.program.specs.Lent.{Flagged};
ghost use Rattle.program.specs.Meanings.{number_of};
ghost use Rattle.checker_nodes.specs.Nodes.{outcome_of, Named, Checkable};

use grid::{Edge, Grid};
use limits::VERTICES;
use program::types::{Instruction, Range};
use refusal::{Fault, Refusal};
use truth::truths::{Truth, known};

// A cycle passes each vertex once at most.
const LONGEST: usize = VERTICES;

fn shown(ranges: &[Option<Range>], vertex: u8) -> bool
    ensures { result ≡ is_some (get_or ranges.now vertex None) }
{
    match ranges.get(vertex as usize) {
        Some(range) => range.is_some(),
        None => false,
    }
}

// So many bytes from `first` on are vertices that the formula has; or the first that isn't there, or that it lacks.
fn named(ranges: &[Option<Range>], part: &[u8], first: usize, count: usize) -> Result<(), Refusal>
    requires { first ≤ length part.now }
    ensures { Named ranges.now part.now first count result }
{
    // by an index: a refusal's place follows from it
    for i in 0..count {
        let place = first + i;
        if part.len() <= place {
            return Err(Fault::SheetShort.at(place));
        }
        if !shown(ranges, part[place]) {
            return Err(Fault::SheetCode.at(place));
        }
    }
    Ok(())
}

// Node 1: the formula is false by what was decided.
pub fn false_leaf(
    instructions: &[Instruction],
    truths: &[bool],
    at: usize,
) -> Result<usize, Refusal>
    requires { (length instructions.now ≤ most_instructions) × (at < usize.MAX) }
    ensures { (base : ℕ) (part : List ℕ) → outcome_of base part result ≡ false_node (known_kinds (map number_of instructions.now) truths.now) (base + at) (drop (at + 1) part) }
{
    match known(instructions, truths) {
        Truth::Fails => Ok(at + 1),
        Truth::Open | Truth::Passes => Err(Fault::SheetFalse.at(at)),
    }
}

// Following the edges and back to the first gives a sum below zero.
fn below_zero(g: &Grid, last: Edge, vertices: &[u8]) -> bool
    requires walk { (0 < length vertices.now) × (length vertices.now ≤ most_vertices) × Below most_vertices vertices.now }
    requires checkable { Checkable g.now.rows last }
    ensures { result ≡ lt_z (closed (weight (with_fact g.now.rows last)) vertices.now) (pos 0) }
{
    g.closing(last, vertices) < 0
}

// Node 2: a count from 1 on, and so many vertices. The last fact of the way down stands beside the grid.
pub fn cycle(
    ranges: &[Option<Range>],
    g: &Grid,
    last: Edge,
    part: &[u8],
    at: usize,
) -> Result<usize, Refusal>
    requires few { (length ranges.now ≤ most_vertices) × (at < length part.now) }
    requires checkable { Checkable g.now.rows last }
    ensures { (F : Formula) (base : ℕ) → Flagged ranges.now F.ranges → outcome_of base part.now result ≡ cycle_node most_vertices F (with_fact g.now.rows last) (base + at) (drop (at + 1) part.now) }
{
    let from = at + 1;
    if part.len() <= from {
        return Err(Fault::SheetShort.at(from));
    }
    let count = part[from] as usize;
    if count == 0 || LONGEST < count {
        return Err(Fault::SheetCode.at(from));
    }
    let first = from + 1;
    named(ranges, part, first, count)?;
    let end = first + count;
    if below_zero(g, last, &part[first..end]) {
        return Ok(end);
    }
    Err(Fault::SheetFalse.at(at))
}
