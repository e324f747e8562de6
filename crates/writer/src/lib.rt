// A whole sheet for a question that was read, into a lent room.
#![tactic(auto)]

ghost use Rattle.std.specs.Prelude.{◌≡◌, IfOk};
ghost use Rattle.question.specs.Held.{question_of};
ghost use Rattle.page_sheets.specs.Answers.{placed};
ghost use Rattle.page_sheets.specs.Sheet.{verdict_for, finding_of, sheet_of};
ghost use Rattle.outcome.specs.Answers.{verdict_of, done_of};
ghost use Rattle.room.specs.Room.{begun, filling, puts};

use outcome::{Sheet, Verdict};
use question::types::Question;
use refusal::{Fault, Refusal};
use room::{Full, Sink, clear};
use verdicts::openings::first_open;
use writer_sheets::{put_no, put_yes};

// The sheet, as far as it fits. The verdict comes first, so that only that sheet's bytes are worked out.
fn lay(sink: &mut Sink, q: &Question, asked: u8) -> Result<Verdict, Full>
    ensures same_reference { sink.new.room.ghost_name ≡ sink.old.room.ghost_name }
    ensures says { IfOk result (λ v. verdict_of v ≡ verdict_for (finding_of (question_of q.now) asked)) }
    ensures filled { filling sink.new result ≡ puts (begun sink.old) (sheet_of (question_of q.now) asked) }
{
    match first_open(q, asked) {
        Some(found) => {
            put_no(sink, q, asked, found.number)?;
            Ok(Verdict::No)
        }
        None => {
            put_yes(sink, q, asked)?;
            Ok(Verdict::Yes)
        }
    }
}

// The sheet and zeros after it; zeros only, where the sheet is longer than the room.
pub fn finish(room: &mut [u8], q: &Question, asked: u8) -> Result<Sheet, Refusal>
    ensures { done_of result room.new ≡ placed (verdict_for (finding_of (question_of q.now) asked)) (sheet_of (question_of q.now) asked) room.old }
{
    let mut sink = Sink::new(room);
    match lay(&mut sink, q, asked) {
        Ok(verdict) => {
            let length = sink.length();
            clear(room, length);
            Ok(Sheet { verdict, length })
        }
        Err(Full) => {
            clear(room, 0);
            Err(Fault::Room.at(0))
        }
    }
}
