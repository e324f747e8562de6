// Reads a question from standard input and prints, for either thing that can be asked of it, the verdict and the length of the
// sheet that shows it.
#![tactic(auto)]

use question::types::Asked;
use refusal::Fault;
use std::io;

// A line for each thing that can be asked, with 32,768 bytes of room. Where a sheet has no room only that sheet is refused; any other
// refusal is of the question, and one line is all.
fn lines(rt: &impl Print, question: &[u8]) -> io::Result<()> {
    let mut room = [0u8; 32768];
    for asked in [Asked::Irrelevant, Asked::Computable] {
        match answers::write(asked.number(), question, &mut room) {
            Ok(sheet) => println!(rt; "{asked} {sheet}")?,
            Err(refusal) if refusal.fault == Fault::Room => println!(rt; "{asked} noroom")?,
            Err(refusal) => return println!(rt; "refused {refusal}"),
        }
    }
    Ok(())
}

// Of the input the first 4,096 bytes are read. No question is as long (`LONGEST` in the crate limits), so the first fault of a
// longer input, 9 at the latest, lies within them.
fn main(rt: HostRuntime) -> io::Result<()> {
    let mut input = [0u8; 4096];
    let n = files::fill(&mut rt.reader(), &mut input)?;
    lines(&rt, &input[..n])
}
