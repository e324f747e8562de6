// The two sorts of field: a byte and an i32, each tested for length, then for its value.
ghost use Rattle.std.specs.Prelude.{◌≡◌};
ghost use Rattle.page_questions.specs.Reader.{byte, int};
ghost use Rattle.refusal.specs.Numbers.{number_of};
ghost use Rattle.fields.specs.Steps.{Steps};

use refusal::{Fault, Refusal};

// Bytes, and how far they are read.
#[derive(Drop)]
pub struct Cursor<'a> {
    pub bytes: &'a [u8],
    pub at: usize,
}

impl<'a> Cursor<'a> {
    // A byte from `low` on and below `high`, else the fault.
    pub fn byte(&mut self, fault: Fault, low: usize, high: usize) -> Result<u8, Refusal>
        ensures { Steps (λ x. x) (λ s p. byte s (number_of fault) low high p) self.old result self.new }
    {
        let place = self.at;
        match self.bytes.get(place) {
            Some(&x) if (low..high).contains(&(x as usize)) => {
                self.at = place + 1;
                Ok(x)
            }
            Some(_) => Err(fault.at(place)),
            None => Err(Fault::Short.at(place)),
        }
    }

    // An i32 from `lo` to `hi`, else the fault.
    pub fn number(&mut self, fault: Fault, lo: i32, hi: i32) -> Result<i32, Refusal>
        ensures { Steps (λ x. x) (λ s p. int s (number_of fault) lo hi p) self.old result self.new }
    {
        let place = self.at;
        if self.bytes.len() < 4 || self.bytes.len() - 4 < place {
            return Err(Fault::Short.at(place));
        }
        let z = ints::read_i32(self.bytes, place);
        if z < lo || hi < z {
            return Err(fault.at(place));
        }
        self.at = place + 4;
        Ok(z)
    }
}
