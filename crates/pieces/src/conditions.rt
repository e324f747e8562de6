// Conditions, token by token.
ghost use Rattle.page_meaning.specs.WellFormed.{TokenUses};
ghost use Rattle.question.specs.Held.{token_of};
ghost use Rattle.page_formulas.specs.Compilation as compiled;
ghost use Rattle.page_formulas.specs.Parts.{condition_program};
ghost use Rattle.page_formulas.specs.Costs.{condition_cost};
ghost use Rattle.program.specs.Built.{Room, Builds};
ghost use Rattle.sights.specs.Sights.{sight_of, Has, Usable};
ghost use Rattle.pieces.specs.Pieces.{cost, pairs, tokens_of, Compilable};

use program::types::{Instruction, Program};
use question::types::{Kind, Token};
use sights::types::Sight;

// `Usable` stays a clause, here and below: only the context that a sight is seen from knows it. So does `Room`: its numbers differ at each call.
pub fn token(into: &mut Program, s: &Sight, t: Token)
    requires { Room into.old (cost (token_of t)) (pairs (token_of t)) × Usable s.now × TokenUses (Has s.now) (token_of t) }
    ensures { Builds into.old into.new (cost (token_of t)) (pairs (token_of t)) (compiled.token (sight_of s.now) (token_of t)) }
{
    match t.kind {
        Kind::Compare(op, i, side) => into.compare(op, s.term(i), s.side(side)),
        Kind::Both => into.emit(Instruction::And),
        Kind::Either => into.emit(Instruction::Or),
        Kind::Negate => into.emit(Instruction::Not),
    }
}

// No tokens mean true.
pub fn condition(into: &mut Program, s: &Sight, tokens: &[Token])
    requires { Room into.old condition_cost.instructions condition_cost.places × Usable s.now × Compilable (Has s.now) tokens.now }
    ensures { Builds into.old into.new condition_cost.instructions condition_cost.places (condition_program (sight_of s.now) (tokens_of tokens.now)) }
{
    if tokens.is_empty() {
        return into.emit(Instruction::True);
    }
    for t in tokens {
        token(into, s, *t);
    }
}
