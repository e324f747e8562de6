// What may stand for an instruction, and what for a decision: the enum and a bool, or a byte each.
ghost use Rattle.std.specs.Prelude.{◌≡◌};
ghost use Rattle.program.specs.Meanings.{number_of};
ghost use Rattle.truth.specs.Bytes.{bit};

use program::types::Instruction;

// It has a number: of an instruction, or a greater one, which does what the last does.
pub trait Step: Copy {
    ghost use Rattle.std.specs.Prelude.{ℕ};

    ghost number: { Self → ℕ };

    fn kind(self) -> u8
        ensures { result ≡ number self };
}

impl Step for Instruction {
    ghost number = { number_of };

    fn kind(self) -> u8 {
        match self {
            Instruction::Place => 0,
            Instruction::And => 1,
            Instruction::Or => 2,
            Instruction::Not => 3,
            Instruction::True => 4,
            Instruction::False => 5,
        }
    }
}

impl Step for u8 {
    ghost number = { λ n. n };

    fn kind(self) -> u8 {
        self
    }
}

pub trait Decision: Copy {
    ghost use Rattle.std.specs.Prelude.{Bool};

    ghost passes: { Self → Bool };

    fn passes(self) -> bool
        ensures { result ≡ passes self };
}

impl Decision for bool {
    ghost passes = { λ b. b };

    fn passes(self) -> bool {
        self
    }
}

// Every byte but 0 passes.
impl Decision for u8 {
    ghost passes = { bit };

    fn passes(self) -> bool {
        self != 0
    }
}
