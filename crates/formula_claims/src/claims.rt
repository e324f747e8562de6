// The claims of the table (FORMAT 5.2), their parts and lines, written one after another.
ghost use Rattle.std.specs.Prelude.{[]};
ghost use Rattle.page_meaning.specs.Contents as meant;
ghost use Rattle.page_meaning.specs.Contents.{version1, version2};
ghost use Rattle.page_meaning.specs.Claims.{fitting, staying, claims, read_part, read_parts};
ghost use Rattle.page_formulas.specs.Costs.{moving_cost, claim_cost, part_cost, Fits};
ghost use Rattle.program.specs.Built.{Long, Room, Builds, Means};
ghost use Rattle.formula_lines.specs.Lines.{claim_of, part_of, first_of, rest_of, line_of, Tabled};
ghost use Rattle.formula_contexts.specs.Contexts.{Under, Legible};
ghost use Rattle.formula_claims.specs.Claims.{rows_of, words_of};

use formula_contexts::contexts::Context;
use formula_lines::types::{Claim, Line, Part};
use pieces::conditions::condition;
use pieces::differences::differs;
use pieces::ranges::bounded_all;
use program::types::{Instruction, Program};

// M. `in_range` stands beside it, as `lasts` beside `stays`: each is a word of the table, and none says another. `Legible` stays a clause: it
// holds the question itself, which a ghost field may not.
pub fn moves(into: &mut Program, d: &Context, second: bool)
    requires { Room into.old moving_cost.instructions moving_cost.places × Legible d.now }
    ensures { (Q : meant.Question) → Under Q d.now → Builds into.old into.new moving_cost.instructions moving_cost.places ((words_of Q d.now).M (rows_of Q d.now.pairs second)) }
{
    condition(into, &d.view(second, false), d.chosen);
    bounded_all(into, &d.view(second, true));
}

// The range tests alone: true if there is none.
pub fn in_range(into: &mut Program, d: &Context, second: bool)
    requires { Room into.old (claim_cost fitting).instructions (claim_cost fitting).places × Legible d.now }
    ensures { (Q : meant.Question) → Under Q d.now → Builds into.old into.new (claim_cost fitting).instructions (claim_cost fitting).places (claims (words_of Q d.now) (rows_of Q d.now.pairs) fitting second) }
{
    into.emit(Instruction::True);
    bounded_all(into, &d.view(second, true));
}

// S of version 1.
pub fn stays(into: &mut Program, d: &Context, second: bool)
    requires { Room into.old (claim_cost (staying version1)).instructions (claim_cost (staying version1)).places × Legible d.now }
    ensures { (Q : meant.Question) → Under Q d.now → Builds into.old into.new (claim_cost (staying version1)).instructions (claim_cost (staying version1)).places (claims (words_of Q d.now) (rows_of Q d.now.pairs) (staying version1) second) }
{
    moves(into, d, second);
    into.emit(Instruction::Not);
    condition(into, &d.view(second, true), d.listed);
    into.emit(Instruction::Or);
}

// S of version 2.
pub fn lasts(into: &mut Program, d: &Context, second: bool)
    requires { Room into.old (claim_cost (staying version2)).instructions (claim_cost (staying version2)).places × Legible d.now }
    ensures { (Q : meant.Question) → Under Q d.now → Builds into.old into.new (claim_cost (staying version2)).instructions (claim_cost (staying version2)).places (claims (words_of Q d.now) (rows_of Q d.now.pairs) (staying version2) second) }
{
    condition(into, &d.view(second, false), d.chosen);
    into.emit(Instruction::Not);
    in_range(into, d, second);
    condition(into, &d.view(second, true), d.listed);
    into.emit(Instruction::And);
    into.emit(Instruction::Or);
}

// What a claim says of the first row or the second.
pub fn claim(into: &mut Program, d: &Context, c: Claim, second: bool)
    requires { Room into.old (claim_cost (claim_of c)).instructions (claim_cost (claim_of c)).places × Legible d.now }
    ensures { (Q : meant.Question) → Under Q d.now → Builds into.old into.new (claim_cost (claim_of c)).instructions (claim_cost (claim_of c)).places (claims (words_of Q d.now) (rows_of Q d.now.pairs) (claim_of c) second) }
{
    match c {
        Claim::Listed => condition(into, &d.view(second, false), d.listed),
        Claim::Relisted => condition(into, &d.view(second, true), d.listed),
        Claim::Chosen => condition(into, &d.view(second, false), d.chosen),
        Claim::Fitting => in_range(into, d, second),
        Claim::Moving => moves(into, d, second),
        Claim::Staying => stays(into, d, second),
        Claim::Lasting => lasts(into, d, second),
        Claim::Differing(other, after) => {
            differs(into, &d.view(second, true), &d.view(other, after));
        }
    }
}

// The claim, or what denies it.
pub fn part(into: &mut Program, d: &Context, p: Part)
    requires { Room into.old (part_cost (part_of p)).instructions (part_cost (part_of p)).places × Legible d.now }
    ensures { (Q : meant.Question) → Under Q d.now → Builds into.old into.new (part_cost (part_of p)).instructions (part_cost (part_of p)).places (read_part (words_of Q d.now) (rows_of Q d.now.pairs) (part_of p)) }
{
    match p {
        Part::First(c) => claim(into, d, c, false),
        Part::Second(c) => claim(into, d, c, true),
        Part::NotFirst(c) => {
            claim(into, d, c, false);
            into.emit(Instruction::Not);
        }
        Part::NotSecond(c) => {
            claim(into, d, c, true);
            into.emit(Instruction::Not);
        }
    }
}

// A line: its first part, and each further one joined by and.
pub fn line(into: &mut Program, d: &Context, l: &Line)
    requires { Means into.old [] × Long into.old × Legible d.now × Tabled l.now (line_of l.now) × Fits (line_of l.now) }
    ensures { ((Q : meant.Question) → Under Q d.now → Means into.new (read_parts (words_of Q d.now) (rows_of Q d.now.pairs) (first_of l.now) (rest_of l.now))) × Long into.new }
{
    part(into, d, l.parts[0]);
    for p in &l.parts[1..] {
        part(into, d, *p);
        into.emit(Instruction::And);
    }
}
