// A written program put after what stands in four arrays that are lent: its instructions by their numbers, whatever bytes come before them,
// and its places side by side. It stands for its contract: no program goes by it.
#![tactic(auto)]

ghost use Rattle.std.specs.Prelude.{◌≡◌, ◌≤◌, ◌+◌, ◌++◌, map, take, length};
ghost use Rattle.page_meaning.specs.Limits.{most_decisions};
ghost use Rattle.page_formulas.specs.Program as P;
ghost use Rattle.page_formulas.specs.Costs.{most_instructions};
ghost use Rattle.program.specs.Meanings.{number_of};
ghost use Rattle.program.specs.Built.{Means};
ghost use Rattle.program_arrays.specs.Arrays.{arrays_of, RoomIn, BuildsIn};

pub mod types;

use limits::{INSTRUCTIONS, PLACES};
use program::instructions::kind;
use program::types::{Instruction, Place, Program};
use types::End;

// The instructions' numbers, from `at` on.
fn put_kinds(kinds: &mut [u8; INSTRUCTIONS], at: usize, instructions: &[Instruction])
    requires { at + length instructions.now ≤ most_instructions }
    ensures { take (at + length instructions.now) kinds.new ≡ take at kinds.old ++ map number_of instructions.now }
{
    // by an index, here and below: no contract says what is written where iterators are zipped
    for (i, instruction) in instructions.iter().enumerate() {
        kinds[at + i] = kind(*instruction);
    }
}

// The places' parts, from `at` on.
fn put_places(
    left: &mut [u8; PLACES],
    right: &mut [u8; PLACES],
    most: &mut [i64; PLACES],
    at: usize,
    places: &[Place],
)
    requires { at + length places.now ≤ most_decisions }
    ensures left { take (at + length places.now) left.new ≡ take at left.old ++ map (λ a. a.left) places.now }
    ensures right { take (at + length places.now) right.new ≡ take at right.old ++ map (λ a. a.right) places.now }
    ensures most { take (at + length places.now) most.new ≡ take at most.old ++ map (λ a. a.most) places.now }
{
    for (i, place) in places.iter().enumerate() {
        left[at + i] = place.left;
        right[at + i] = place.right;
        most[at + i] = place.most;
    }
}

// The program after what stands there up to `at`, which stays as it is; and where it ends then.
pub fn append(
    kinds: &mut [u8; INSTRUCTIONS],
    left: &mut [u8; PLACES],
    right: &mut [u8; PLACES],
    most: &mut [i64; PLACES],
    at: End,
    program: &Program,
) -> End
    requires { RoomIn (arrays_of kinds.old left.old right.old most.old at) program.now.length program.now.decisions }
    ensures { (x : P.Program) → Means program.now x → BuildsIn (arrays_of kinds.old left.old right.old most.old at) (arrays_of kinds.new left.new right.new most.new result) program.now.length program.now.decisions x }
{
    put_kinds(kinds, at.count, program.instructions());
    put_places(left, right, most, at.places, program.places());
    End {
        count: at.count + program.length,
        places: at.places + program.decisions,
    }
}
