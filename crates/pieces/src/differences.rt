// Whether two rows show something different: some visible column that is not kept is unequal.
ghost use Rattle.std.specs.Prelude.{◌≡◌, ◌∷◌, ◌*◌, length};
ghost use Rattle.page_meaning.specs.Limits.{most_columns};
ghost use Rattle.page_formulas.specs.Program.{false_i};
ghost use Rattle.page_formulas.specs.Costs.{differing_cost};
ghost use Rattle.page_formulas.specs.Formulas.{differs_over};
ghost use Rattle.program.specs.Built.{Room, Builds};
ghost use Rattle.sights.specs.Sights.{sight_of, mode_in, Has, Usable, visible_of};
ghost use Rattle.pieces.specs.Pieces.{differs_at};

use crate::ranges::kept;
use program::types::{Instruction, Program};
use question::types::Op;
use sights::types::Sight;

// Column i; nothing where it is hidden or kept. That both sights have as many columns stays a clause: it is said of two values.
pub fn differs_at(into: &mut Program, a: &Sight, b: &Sight, i: usize)
    requires { Room into.old 5 2 × Usable a.now × Usable b.now × (length b.now.columns.now ≡ length a.now.columns.now) × Has a.now i }
    ensures { Builds into.old into.new 5 2 (differs_at a.now b.now i) }
{
    // a sight has 12 columns at most
    let c = i as u8;
    if a.columns[i].visible && !kept(a.mode(c)) {
        into.compare(Op::Unequal, a.term(c), b.term(c));
        into.emit(Instruction::Or);
    }
}

// All columns, each joined by or.
pub fn differs_all(into: &mut Program, a: &Sight, b: &Sight)
    requires { Room into.old (5 * most_columns) (2 * most_columns) × Usable a.now × Usable b.now × (length b.now.columns.now ≡ length a.now.columns.now) }
    ensures { Builds into.old into.new (5 * most_columns) (2 * most_columns) (differs_over (mode_in a.now) (sight_of a.now) (sight_of b.now) (visible_of a.now)) }
{
    // by an index: both sights know a column by its number
    for i in 0..a.columns.len() {
        differs_at(into, a, b, i);
    }
}

// False if there is none.
pub fn differs(into: &mut Program, a: &Sight, b: &Sight)
    requires { Room into.old differing_cost.instructions differing_cost.places × Usable a.now × Usable b.now × (length b.now.columns.now ≡ length a.now.columns.now) }
    ensures { Builds into.old into.new differing_cost.instructions differing_cost.places (false_i ∷ differs_over (mode_in a.now) (sight_of a.now) (sight_of b.now) (visible_of a.now)) }
{
    into.emit(Instruction::False);
    differs_all(into, a, b);
}
