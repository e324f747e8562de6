// The values of rows, four bytes each.
ghost use Rattle.std.specs.Prelude.{◌≡◌, ◌+◌, ◌*◌, ◌<◌, drop, length, take, nat_abs, MatchOption, Some, [], decimal};
ghost use Rattle.std.specs.Int.{is_negative};
ghost use Rattle.std.specs.Fmt.{padded_integral, signed_decimal};
ghost use Rattle.printing.specs.Rows.{values_of};

use std::fmt::{self, InlineText, Write};
use std::io;

// A value without its sign: no negation that could fail at the least i32.
pub fn magnitude(z: i32) -> u64
    ensures { result ≡ nat_abs z }
{
    u64::from(z.unsigned_abs())
}

// A value as it is printed: a minus before a negative one, and the digits of its size.
#[derive(Clone, Copy)]
pub struct Value(pub i32);

impl fmt::Display for Value {
    ghost output = { λ v. Some (signed_decimal v.0) };

    ghost styled_output = { λ v s. Some (padded_integral s (is_negative v.0) [] (decimal (nat_abs v.0))) };

    fn fmt<W: fmt::Write>(&self, f: &mut fmt::Formatter<W>) -> fmt::Result {
        // no u64 has more digits
        let mut digits = InlineText::<20>::new();
        write!(digits, "{}", magnitude(self.0))?;
        f.pad_integral(self.0 >= 0, "", digits.as_str())
    }
}

// The rows of a no sheet, after mark, version, asked, verdict and the formula's number: the first, and the second or nothing.
pub fn rows(sheet: &[u8], columns: usize) -> Option<(&[[u8; 4]], &[[u8; 4]])>
    ensures { MatchOption result (length sheet.now < 8 + 4 * columns) (λ p. (p.0.now ≡ take columns (values_of sheet.now)) × (p.1.now ≡ drop columns (values_of sheet.now))) }
{
    let (values, _) = sheet.get(8..)?.as_chunks::<4>();
    if columns <= values.len() {
        Some(values.split_at(columns))
    } else {
        None
    }
}

// The values that the bytes hold, four bytes each, with commas between; fewer than four that are left over hold none.
pub fn row(rt: &impl Print, bytes: &[u8]) -> io::Result<()> {
    let (values, _) = bytes.as_chunks::<4>();
    for (i, value) in values.iter().enumerate() {
        if i > 0 {
            rt.print(",")?;
        }
        rt.print(Value(i32::from_le_bytes(*value)))?;
    }
    Ok(())
}
