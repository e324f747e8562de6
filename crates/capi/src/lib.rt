// The three routines for C and whoever speaks to C (include/slushtrowel.h). A slice is a pointer and a length there, a
// lent number a pointer; the result is 0, or the number that says no.
#![tactic(auto)]

ghost use Rattle.std.specs.Prelude.{◌≡◌};
ghost use Rattle.page_sheets.specs.Answers.{verdict_of, write_of, check_of};
ghost use Rattle.outcome.specs.Answers as answered;
ghost use Rattle.capi.specs.Returns.{leaves, leaves_room, answer, writing, done};

use outcome::{Sheet, Verdict};
use refusal::Refusal;

// What the verdict's place holds where there is none: no caller takes it for a verdict. The C interface has no other word for none.
const NO_VERDICT: u8 = 255;

// What a function leaves: its result, and what stands behind its two pointers. C has numbers for what a `Result` says.
fn leave(told: Result<Sheet, Refusal>, verdict: &mut u8, place: &mut u64) -> u8
    ensures { leaves result verdict.new place.new ≡ writing (answered.written_of told) }
{
    match told {
        Ok(sheet) => {
            *verdict = sheet.verdict.byte();
            // a usize has no more bits than a u64
            *place = sheet.length as u64;
            0
        }
        Err(refusal) => {
            *verdict = NO_VERDICT;
            *place = refusal.place as u64;
            refusal.fault.number()
        }
    }
}

// A verdict alone has no length: 0 stands in its place.
fn alone(told: Result<Verdict, Refusal>) -> Result<Sheet, Refusal>
    ensures { writing (answered.written_of result) ≡ answer (answered.judged_of told) }
{
    let verdict = told?;
    Ok(Sheet { verdict, length: 0 })
}

#[unsafe(no_mangle)]
pub extern "C" fn vu_verdict(asked: u8, question: &[u8], verdict: &mut u8, place: &mut u64) -> u8
    ensures { leaves result verdict.new place.new ≡ answer (verdict_of asked question.now) }
{
    let told = answers::verdict(asked, question);
    leave(alone(told), verdict, place)
}

#[unsafe(no_mangle)]
pub extern "C" fn vu_write(
    asked: u8,
    question: &[u8],
    room: &mut [u8],
    verdict: &mut u8,
    place: &mut u64,
) -> u8
    ensures { leaves_room result verdict.new place.new room.new ≡ done (write_of asked question.now room.old) }
{
    let told = answers::write(asked, question, room);
    leave(told, verdict, place)
}

#[unsafe(no_mangle)]
pub extern "C" fn vu_check(
    asked: u8,
    question: &[u8],
    sheet: &[u8],
    verdict: &mut u8,
    place: &mut u64,
) -> u8
    ensures { leaves result verdict.new place.new ≡ answer (check_of asked question.now sheet.now) }
{
    let told = answers::check(asked, question, sheet);
    leave(alone(told), verdict, place)
}
