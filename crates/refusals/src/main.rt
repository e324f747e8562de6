// Byte strings and the reader's answers: each of the numbers 1 to 9 at several places, and strings that are good. Standard input has
// the strings, as stdin here does: a line is what was changed, bytes in hexadecimal. A line is printed for each: number and place,
// or `good`, and what was changed.
#![tactic(auto)]

use limits::LONGEST;
use std::io;

// No question has more bytes than the room, and no string here is longer.
fn answer(rt: &impl Print, digits: &[u8]) -> io::Result<()> {
    let mut room = [0u8; LONGEST];
    match cases::decode(digits, &mut room) {
        Some(n) => match reader::read(&room[..n]) {
            Ok(_) => rt.print("good"),
            Err(refusal) => rt.print(refusal),
        },
        None => rt.print("not hexadecimal"),
    }
}

// A line of the input: what was changed, bytes.
fn case(rt: &impl Print, line: &[u8]) -> io::Result<()> {
    let (changed, digits) = cases::cut(line, b'\t');
    answer(rt, digits)?;
    rt.print(": ")?;
    rt.write_all(changed)?;
    rt.println("")
}

// Of the input the first 65,536 bytes are read; the strings are a quarter as long.
fn main(rt: HostRuntime) -> io::Result<()> {
    let mut input = [0u8; 65536];
    let n = files::fill(&mut rt.reader(), &mut input)?;
    for line in input[..n].split(|b| *b == b'\n') {
        if cases::is_case(line) {
            case(&rt, line)?;
        }
    }
    Ok(())
}
