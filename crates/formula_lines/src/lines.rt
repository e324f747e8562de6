// The table of formulas (FORMAT 5.3): a line for each formula of a kind of change, as asked.
ghost use Rattle.std.specs.Prelude.{true, false, eqb};
ghost use Rattle.page_meaning.specs.Contents as meant;
ghost use Rattle.question.specs.Held.{version_of, asked_of};
ghost use Rattle.formula_lines.specs.Lines.{line_for, Numbered, Tabled};

use crate::types::{Claim, Line, Part};
use question::types::{Asked, Verb, Version};

const C1: Part = Part::First(Claim::Listed);

const C2: Part = Part::Second(Claim::Listed);

const NOT_C1: Part = Part::NotFirst(Claim::Listed);

const F1: Part = Part::First(Claim::Relisted);

const F2: Part = Part::Second(Claim::Relisted);

const NOT_F1: Part = Part::NotFirst(Claim::Relisted);

const D1: Part = Part::First(Claim::Chosen);

const NOT_D2: Part = Part::NotSecond(Claim::Chosen);

const M1: Part = Part::First(Claim::Moving);

const M2: Part = Part::Second(Claim::Moving);

const NOT_M2: Part = Part::NotSecond(Claim::Moving);

const S1: Part = Part::First(Claim::Staying);

const NOT_S2: Part = Part::NotSecond(Claim::Staying);

const L1: Part = Part::First(Claim::Lasting);

const NOT_L2: Part = Part::NotSecond(Claim::Lasting);

const NOT_R1: Part = Part::NotFirst(Claim::Fitting);

const SHOWN: Part = Part::First(Claim::Differing(false, false));

const NEW_NEW: Part = Part::First(Claim::Differing(true, true));

const NEW_OLD: Part = Part::First(Claim::Differing(true, false));

const PUT_IN: Line = Line {
    pairs: false,
    parts: &[F1],
};

const REMOVED: Line = Line {
    pairs: false,
    parts: &[C1, D1],
};

const ONE_REMOVED: Line = Line {
    pairs: true,
    parts: &[C1, C2, D1, NOT_D2],
};

const LEAVES: Line = Line {
    pairs: false,
    parts: &[M1, C1, NOT_F1],
};

const ENTERS: Line = Line {
    pairs: false,
    parts: &[M1, NOT_C1, F1],
};

const SHOWS: Line = Line {
    pairs: false,
    parts: &[M1, C1, F1, SHOWN],
};

const RETIRED: Line = Line {
    pairs: false,
    parts: &[D1, C1, NOT_R1],
};

const ONE_STAYS: Line = Line {
    pairs: true,
    parts: &[C1, C2, S1, NOT_S2],
};

const ONE_LASTS: Line = Line {
    pairs: true,
    parts: &[C1, C2, L1, NOT_L2],
};

const BOTH_MOVE: Line = Line {
    pairs: true,
    parts: &[C1, C2, M1, M2, F1, F2, NEW_NEW],
};

const ONE_MOVES: Line = Line {
    pairs: true,
    parts: &[C1, C2, M1, NOT_M2, F1, NEW_OLD],
};

const ONE_CHOSEN: Line = Line {
    pairs: true,
    parts: &[C1, C2, M1, NOT_D2, F1, NEW_OLD],
};

// A modify's lines for asked 1; only version 2 has the fourth. The table numbers its lines, so a number becomes a line here and below.
fn of_one(i: usize) -> Line
    ensures { (v : meant.Version) → Numbered v Verb.Modify true i → Tabled result (line_for v Verb.Modify true i) }
{
    match i {
        0 => LEAVES,
        1 => ENTERS,
        2 => SHOWS,
        _ => RETIRED,
    }
}

// A modify's lines for asked 2.
fn of_two(version: Version, i: usize) -> Line
    requires { Numbered (version_of version) Verb.Modify false i }
    ensures { Tabled result (line_for (version_of version) Verb.Modify false i) }
{
    match (i, version) {
        (0, _) => ENTERS,
        (1, Version::One) => ONE_STAYS,
        (1, Version::Two) => ONE_LASTS,
        (2, _) => BOTH_MOVE,
        (_, Version::One) => ONE_MOVES,
        (_, Version::Two) => ONE_CHOSEN,
    }
}

// The line of formula i; an insert has the same for every row.
pub fn line_at(version: Version, verb: Verb, asked: Asked, i: usize) -> Line
    requires { Numbered (version_of version) verb (eqb (asked_of asked) 1) i }
    ensures { Tabled result (line_for (version_of version) verb (eqb (asked_of asked) 1) i) }
{
    match (verb, asked) {
        (Verb::Insert, _) => PUT_IN,
        (Verb::Delete, Asked::Irrelevant) => REMOVED,
        (Verb::Delete, Asked::Computable) => ONE_REMOVED,
        (Verb::Modify, Asked::Irrelevant) => of_one(i),
        (Verb::Modify, Asked::Computable) => of_two(version, i),
    }
}
