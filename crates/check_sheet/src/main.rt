// check_sheet QUESTION-FILE irrelevant|computable SHEET-FILE: prints whether the sheet passes, and with which verdict; with a no
// the contents that break the claim; or why the sheet doesn't pass.
#![tactic(auto)]

mod contents;

use files::{Failure, Started};
use outcome::Verdict;
use std::io;
use std::rt::{Env, Files};

fn shown(rt: &impl Print, start: Started, sheet: &[u8]) -> io::Result<()> {
    let Started { asked, question } = start;
    match answers::check(asked.number(), question, sheet) {
        Ok(verdict) => {
            println!(rt; "passes {verdict}")?;
            match verdict {
                Verdict::Yes => Ok(()),
                Verdict::No => contents::show(rt, asked, question, sheet),
            }
        }
        Err(refusal) => println!(rt; "refused {refusal}: {}", refusal.fault),
    }
}

// The room is the first local of its function: else its megabyte is cleared twice, once where the function begins.
fn check(
    rt: &(impl Files + Env + Print),
    told: &impl Print,
    start: Started,
) -> Result<(), Failure> {
    let mut room = files::room();
    match files::read_sheet(rt, told, &mut room) {
        Err(Failure::Longer) => told.println("the sheet is longer than 1048576 bytes")?,
        taken => shown(rt, start, taken?)?,
    }
    Ok(())
}

fn work(rt: &(impl Files + Env + Print), told: &impl Print) -> Result<(), Failure> {
    let mut bytes = [0u8; 4096];
    let start = files::start(rt, told, &mut bytes)?;
    check(rt, told, start)
}

fn main(rt: HostRuntime) -> io::Result<()> {
    files::end(work(&rt, &rt.stderr()))
}
