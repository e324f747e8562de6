// A no sheet's bytes after its header: the open formula's number, then its rows' values.
ghost use Rattle.std.specs.Prelude.{◌<◌, ◌≡◌};
ghost use Rattle.std.specs.Int.{w32};
ghost use Rattle.std.proofs.Common.{of_z};
ghost use Rattle.page_numbers.specs.Bytes.{bytes4};
ghost use Rattle.page_meaning.specs.Contents.{look};
ghost use Rattle.question.specs.Held.{question_of};
ghost use Rattle.page_formulas.specs.Formulas.{Formula};
ghost use Rattle.page_formulas.specs.Program.{Values};
ghost use Rattle.page_sheets.specs.Rows.{fixed, or_else, bytes_of_row, no_bytes, Rowed, Wide};
ghost use Rattle.room.specs.Room.{begun, filling, puts};
ghost use Rattle.writer_rows.specs.Rows.{row_for, rows_for, Carries};

use inserted::fixed_at;
use limits::VERTICES;
use question::types::Question;
use room::{Full, Sink};
use sights::terms::{vertex_at, whole};

// The 32 bits of a value.
fn low_bits(z: i64) -> u64
    ensures { result ≡ of_z w32 z }
{
    // no cast loses a bit: what is cast isn't negative
    if z < 0 {
        let m = (-1 - z) as u64;
        return 4294967295u64.saturating_sub(m);
    }
    z as u64
}

// An i32 value.
fn put_value(sink: &mut Sink, z: i64) -> Result<(), Full>
    ensures same_reference { sink.new.room.ghost_name ≡ sink.old.room.ghost_name }
    ensures filled { filling sink.new result ≡ puts (begun sink.old) (bytes4 (of_z w32 z)) }
{
    let [a, b, c, d, ..] = low_bits(z).to_le_bytes();
    sink.put_all(&[a, b, c, d])
}

// The inserted value, where there is one.
fn change_value(q: &Question, i: usize, c: usize, z: i64) -> i64
    ensures { result ≡ or_else (fixed (question_of q.now) i c) z }
{
    whole(q);
    match fixed_at(&q.shape, &q.change, i, c) {
        Some(k) => i64::from(k),
        None => z,
    }
}

// Column c of a row of formula i, from the values at its vertices. `Wide` stays a clause, here and below: it is said of a question and the
// formula's number together.
fn value_at(q: &Question, i: usize, second: bool, values: &[i64; VERTICES], c: usize) -> i64
    requires { Wide (question_of q.now) (question_of q.now).change i × (c < q.now.shape.total) }
    ensures { result ≡ look (row_for (question_of q.now) i second (look values.now)) c }
{
    whole(q);
    // there are 12 columns at most
    let v = vertex_at(q, second, c as u8) as usize;
    let z = values[v];
    if second {
        return z;
    }
    change_value(q, i, c, z)
}

// A row of formula i.
fn put_row(
    sink: &mut Sink,
    q: &Question,
    i: usize,
    second: bool,
    values: &[i64; VERTICES],
) -> Result<(), Full>
    requires { Wide (question_of q.now) (question_of q.now).change i }
    ensures same_reference { sink.new.room.ghost_name ≡ sink.old.room.ghost_name }
    ensures filled { filling sink.new result ≡ puts (begun sink.old) (bytes_of_row (row_for (question_of q.now) i second (look values.now))) }
{
    whole(q);
    // by an index: a column's vertex follows from its number
    for c in 0..q.shape.total {
        put_value(sink, value_at(q, i, second, values, c))?;
    }
    Ok(())
}

// The first row, and the second where there are two.
fn put_rows(
    sink: &mut Sink,
    q: &Question,
    i: usize,
    pairs: bool,
    values: &[i64; VERTICES],
) -> Result<(), Full>
    requires { Wide (question_of q.now) (question_of q.now).change i }
    ensures same_reference { sink.new.room.ghost_name ≡ sink.old.room.ghost_name }
    ensures filled { filling sink.new result ≡ puts (begun sink.old) (bytes_of_row (rows_for (question_of q.now) i pairs (look values.now))) }
{
    put_row(sink, q, i, false, values)?;
    if pairs {
        return put_row(sink, q, i, true, values);
    }
    Ok(())
}

// Formula i is open, with these values at its vertices.
pub fn put_refutation(
    sink: &mut Sink,
    q: &Question,
    i: u8,
    pairs: bool,
    values: &[i64; VERTICES],
) -> Result<(), Full>
    requires { Wide (question_of q.now) (question_of q.now).change i }
    ensures same_reference { sink.new.room.ghost_name ≡ sink.old.room.ghost_name }
    ensures filled { (F : Formula) (x : Values) → F.pairs ≡ pairs → Rowed (question_of q.now) F → Carries F.ranges values.now x → filling sink.new result ≡ puts (begun sink.old) (no_bytes (question_of q.now) i F x) }
{
    sink.put(i)?;
    put_rows(sink, q, i as usize, pairs, values)
}
