// write_sheet QUESTION-FILE irrelevant|computable SHEET-FILE: writes the sheet that shows the verdict, and prints what was asked,
// the verdict and the sheet's length; or why there is no sheet.
#![tactic(auto)]

use files::{Failure, Started};
use std::io;
use std::rt::{Env, Files};

// The room is the first local of its function: else its megabyte is cleared twice, once where the function begins.
fn write(
    rt: &(impl Files + Env + Print),
    told: &impl Print,
    start: Started,
) -> Result<(), Failure> {
    let mut room = files::room();
    let Started { asked, question } = start;
    match answers::write(asked.number(), question, &mut room) {
        Ok(sheet) => {
            files::write_sheet(rt, told, &room[..sheet.length])?;
            println!(rt; "{asked} {sheet}")?;
        }
        Err(refusal) => println!(rt; "refused {refusal}: {}", refusal.fault)?,
    }
    Ok(())
}

fn work(rt: &(impl Files + Env + Print), told: &impl Print) -> Result<(), Failure> {
    let mut bytes = [0u8; 4096];
    let start = files::start(rt, told, &mut bytes)?;
    write(rt, told, start)
}

fn main(rt: HostRuntime) -> io::Result<()> {
    files::end(work(&rt, &rt.stderr()))
}
