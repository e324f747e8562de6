// Every example of reports 000 and 002 that can be asked: its verdicts, irrelevant/computable, beside what the report says (- is
// nothing). Standard input has the examples, as stdin here does: a line is name, report's verdicts, question in hexadecimal.
#![tactic(auto)]

use limits::LONGEST;
use question::types::Asked;
use std::io;

fn verdict(rt: &impl Print, asked: Asked, question: &[u8]) -> io::Result<()> {
    match answers::verdict(asked.number(), question) {
        Ok(verdict) => rt.print(verdict),
        Err(_) => rt.print("refused"),
    }
}

// No question has more bytes than the room.
fn ours(rt: &impl Print, digits: &[u8]) -> io::Result<()> {
    let mut room = [0u8; LONGEST];
    let Some(n) = cases::decode(digits, &mut room) else {
        return rt.print("not hexadecimal");
    };
    let question = &room[..n];
    verdict(rt, Asked::Irrelevant, question)?;
    rt.print("/")?;
    verdict(rt, Asked::Computable, question)
}

// A line of the input: name, the report's verdicts, question.
fn case(rt: &impl Print, line: &[u8]) -> io::Result<()> {
    let (name, fields) = cases::cut(line, b'\t');
    let (report, digits) = cases::cut(fields, b'\t');
    rt.write_all(name)?;
    rt.print(": report ")?;
    rt.write_all(report)?;
    rt.print(", ours ")?;
    ours(rt, digits)?;
    rt.println("")
}

// Of the input the first 65,536 bytes are read; the examples are half as long.
fn main(rt: HostRuntime) -> io::Result<()> {
    let mut input = [0u8; 65536];
    let n = files::fill(&mut rt.reader(), &mut input)?;
    for line in input[..n].split(|b| *b == b'\n') {
        if cases::is_case(line) {
            case(&rt, line)?;
        }
    }
    Ok(())
}
