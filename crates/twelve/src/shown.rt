// A question's two answers.
use outcome::{Sheet, Verdict};
use printing::numbers::{row, rows};
use question::types::Asked;
use std::io;

// The rows of a no sheet: one row or two.
fn show_rows(rt: &impl Print, sheet: &[u8], columns: usize) -> io::Result<()> {
    if let Some((first, second)) = rows(sheet, columns) {
        rt.print(": ")?;
        row(rt, first.as_flattened())?;
        if !second.is_empty() {
            rt.print(" with ")?;
            row(rt, second.as_flattened())?;
        }
    }
    Ok(())
}

// A sheet's line: what was asked, the verdict, the length, and the rows that show a no.
fn line(
    rt: &impl Print,
    asked: Asked,
    sheet: Sheet,
    bytes: &[u8],
    columns: usize,
) -> io::Result<()> {
    print!(rt; "   {asked} {sheet}")?;
    if sheet.verdict == Verdict::No {
        show_rows(rt, bytes, columns)?;
    }
    rt.println("")
}

pub fn show(rt: &impl Print, label: &str, columns: usize, question: &[u8]) -> io::Result<()> {
    rt.println(label)?;
    let mut room = [0u8; 4096];
    for asked in [Asked::Irrelevant, Asked::Computable] {
        match answers::write(asked.number(), question, &mut room) {
            Ok(sheet) => line(rt, asked, sheet, &room[..sheet.length], columns)?,
            Err(refusal) => println!(rt; "refused {refusal}")?,
        }
    }
    Ok(())
}
