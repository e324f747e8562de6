// The changed table.
ghost use Rattle.std.specs.Prelude.{◌+◌, ◌≤◌, ◌≡◌, length};
ghost use Rattle.page_meaning.specs.Limits.{most_columns};

use question::types::Column;
use tokens::token::Names;

// Its columns, and the number of the first.
#[derive(Clone, Copy)]
pub struct Table<'a> {
    pub columns: &'a [Column],
    pub first: usize,
    pub ghost few_columns: { first + length columns.now ≤ most_columns },
}

impl<'a> Table<'a> {
    // What a change may name.
    pub(crate) fn names(&self) -> Names
        ensures { result ≡ record { low = self.now.first; high = self.now.first + length self.now.columns.now } }
    {
        Names {
            low: self.first,
            high: self.first + self.columns.len(),
        }
    }
}
