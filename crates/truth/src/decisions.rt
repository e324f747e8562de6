// The truths of a formula's first places, as they are decided one after another.
ghost use Rattle.std.specs.Prelude.{◌<◌, ◌≡◌, ◌++◌, ◌∷◌, [], length};
ghost use Rattle.page_meaning.specs.Limits.{most_decisions};

use limits::PLACES;
use std::marker::Model;

// Contracts see the list of them, in order. The cells past them are false, so that the list tells the fields, as a copy needs.
#[derive(Clone, Copy)]
pub struct Truths {
    cells: [bool; PLACES],
    count: usize,
}

impl Model for Truths {
    ghost use Rattle.std.specs.Prelude.{◌≡◌, ◌≤◌, Bool, List, length, take};
    ghost use Rattle.page_meaning.specs.Limits.{most_decisions};
    ghost use Rattle.truth.specs.Spares.{padded};

    ghost Value = { List Bool };

    ghost view = { λ t. take t.count t.cells };

    ghost invariant = { λ t. (t.count ≤ most_decisions) × (padded (take t.count t.cells) ≡ t.cells) × (length (take t.count t.cells) ≡ t.count) };

    ghost inverse = { λ ts. record { cells = padded ts; count = length ts } };

    ghost inverse_ok = { λ t h i. record { cells = h.1 i; count = h.2 i } };
}

impl Truths {
    pub fn new() -> Truths
        ensures { result ≡ [] }
    {
        Truths {
            cells: [false; PLACES],
            count: 0,
        }
    }

    pub fn count(&self) -> usize
        ensures { result ≡ length self.now }
    {
        self.so_far().len()
    }

    pub fn so_far(&self) -> &[bool]
        ensures { result.now ≡ self.now }
    {
        &self.cells[..self.count]
    }

    // With that of the next place.
    pub fn with(&self, truth: bool) -> Truths
        requires { length self.now < most_decisions }
        ensures { result ≡ self.now ++ truth ∷ [] }
    {
        let mut cells = self.cells;
        cells[self.count] = truth;
        Truths {
            cells,
            count: self.count + 1,
        }
    }
}
