// The contents that a no sheet means: one row a table from its values; for an insert the changed table is empty; where two contents
// are meant and there is one row, the second are all empty.
use printing::numbers::{Value, rows};
use question::types::{Asked, Verb};
use std::io;
use std::ops::Range;

// The columns' numbers, which are what is printed.
fn numbers(rt: &impl Print, columns: usize) -> io::Result<()> {
    rt.print("column    ")?;
    for i in 0..columns {
        print!(rt; "{i:>12}")?;
    }
    rt.println("")
}

// A line over a row's values, with - for a column that has none since its table has no row.
fn line<F: Fn(usize) -> bool>(
    rt: &impl Print,
    label: &str,
    row: &[[u8; 4]],
    has_value: F,
) -> io::Result<()>
    requires { F.IsAlwaysCallable has_value }
{
    rt.print(label)?;
    for (i, value) in row.iter().enumerate() {
        if has_value(i) {
            let value = Value(i32::from_le_bytes(*value));
            print!(rt; "{value:>12}")?;
        } else {
            print!(rt; "{:>12}", "-")?;
        }
    }
    rt.println("")
}

// The columns `empty` are those of the table that an insert finds empty.
fn table(
    rt: &impl Print,
    asked: Asked,
    first: &[[u8; 4]],
    second: &[[u8; 4]],
    empty: Range<usize>,
) -> io::Result<()> {
    rt.println("contents that break it, by column; - where a table has no row")?;
    numbers(rt, first.len())?;
    match asked {
        Asked::Irrelevant => line(rt, "contents  ", first, |i| !empty.contains(&i))?,
        Asked::Computable => {
            line(rt, "contents 1", first, |i| !empty.contains(&i))?;
            if second.is_empty() {
                line(rt, "contents 2", first, |_| false)?;
            } else {
                line(rt, "contents 2", second, |_| true)?;
            }
        }
    }
    if empty.is_empty() {
        return Ok(());
    }
    line(rt, "inserted  ", first, |i| empty.contains(&i))
}

pub fn show(rt: &impl Print, asked: Asked, question: &[u8], sheet: &[u8]) -> io::Result<()> {
    let Ok(question) = reader::read(question) else {
        return Ok(());
    };
    let shape = question.shape;
    let empty = match question.change.verb {
        Verb::Insert => shape.first..shape.first + shape.width,
        Verb::Delete | Verb::Modify => 0..0,
    };
    match rows(sheet, shape.total) {
        Some((first, second)) => table(rt, asked, first, second, empty),
        None => Ok(()),
    }
}
