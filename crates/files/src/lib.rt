// The words and the files of a program that is started with QUESTION-FILE irrelevant|computable SHEET-FILE, and the reading of
// standard input. What goes wrong with a file is told in a line on what `told` prints to, which is standard error.
#![tactic(auto)]

ghost use Rattle.std.specs.Prelude.{◌≡◌, ◌≤◌, length, IfOk};
ghost use Rattle.files.specs.Ends.{Ends};
ghost use Rattle.files.specs.Words.{AsksFor};

use question::types::Asked;
use std::env::FillError;
use std::io::{Read, Write};
use std::rt::{Env, Files};
use std::{fs, io, str};

// No sheet that the programs read or write has more bytes.
const SHEET: usize = 1048576;

// Room for a word: more than the ten letters of the longest that asks something.
const WORD: usize = 16;

// Room for a file's name: the system takes none as long.
const PATH: usize = 4096;

// Zeros for a sheet. The `ensures` gives only the length, which lending the array as a slice needs.
pub fn room() -> [u8; SHEET]
    ensures { 1048576 ≡ length result }
{
    [0; SHEET]
}

// Why a program goes no further.
#[derive(Debug, Drop)]
pub enum Failure {
    // Something with a file or an argument. A line has told what.
    Told,
    // The room holds as much of a file as it can, and there is more.
    Longer,
    // A line could not be written.
    Output(io::Error),
}

impl From<io::Error> for Failure {
    fn from(error: io::Error) -> Self {
        Failure::Output(error)
    }
}

// What is asked, and the bytes of the question.
#[derive(Clone, Copy)]
pub struct Started<'a> {
    pub asked: Asked,
    pub question: &'a [u8],
}

// What a word asks for.
fn asked(word: &[u8]) -> Option<Asked>
    ensures { AsksFor word.now result }
{
    match word {
        b"irrelevant" => Some(Asked::Irrelevant),
        b"computable" => Some(Asked::Computable),
        _ => None,
    }
}

fn asked_by_argument(rt: &impl Env) -> Option<Asked> {
    let mut word = [0u8; WORD];
    let n = rt.arg(2, &mut word).ok()?;
    asked(&word[..n])
}

fn has_argument(rt: &impl Env, number: usize) -> bool {
    let mut nothing = [0u8; 0];
    !matches!(rt.arg(number, &mut nothing), Err(FillError::NotPresent))
}

fn usage(rt: &impl Env, told: &impl Print) -> io::Result<()> {
    let mut name = [0u8; PATH];
    told.write_all(b"usage: ")?;
    if let Ok(n) = rt.arg(0, &mut name) {
        told.write_all(&name[..n])?;
    }
    told.write_all(b" QUESTION-FILE irrelevant|computable SHEET-FILE\n")
}

// How many bytes the words of an error take: the system's number for it follows them in brackets, or zeros do.
fn words_end(text: &[u8]) -> usize
    ensures { result ≤ length text.now }
{
    text.iter()
        .position(|b| *b == b'(' || *b == 0)
        .unwrap_or(text.len())
}

// A line of what failed and why; what that comes to.
fn tell(told: &impl Print, what: &str, error: io::Error) -> Failure {
    match line_of(told, what, error) {
        Ok(()) => Failure::Told,
        Err(error) => Failure::Output(error),
    }
}

fn line_of(told: &impl Print, what: &str, error: io::Error) -> io::Result<()> {
    let mut text = [0u8; 256];
    let mut rest = text.as_mut_slice();
    write!(rest, "{error}")?;
    let end = words_end(&text);
    told.write_all(what.as_bytes())?;
    told.write_all(b": ")?;
    told.write_all(text[..end].trim_ascii_end())?;
    told.write_all(b"\n")
}

// Reads until the room is full or nothing is left, in as many turns as that takes; answers how many bytes stand at its start.
pub fn fill(from: &mut impl Read, room: &mut [u8]) -> io::Result<usize>
    ensures { IfOk result (λ n. n ≤ length room.new) }
{
    let mut done = 0;
    while done < room.len() {
        let n = from.read(&mut room[done..])?;
        if n == 0 {
            break;
        }
        done += n;
    }
    Ok(done)
}

fn is_at_end(file: &mut impl Read) -> bool {
    let mut one = [0u8; 1];
    matches!(file.read(&mut one), Ok(0))
}

// Where the room is full, one more read tells whether that is all.
fn take(
    file: &mut impl Read,
    told: &impl Print,
    path: &str,
    room: &mut [u8],
) -> Result<usize, Failure>
    ensures { IfOk result (λ n. n ≤ length room.new) }
{
    let n = fill(file, room).map_err(|error| tell(told, path, error))?;
    if n < room.len() || is_at_end(file) {
        Ok(n)
    } else {
        Err(Failure::Longer)
    }
}

// The file that an argument names, as text in a room. The system's names may be any bytes, those that the library opens are UTF-8.
fn named<'a>(
    rt: &impl Env,
    told: &impl Print,
    argument: usize,
    room: &'a mut [u8],
) -> Result<&'a str, Failure> {
    let Ok(n) = rt.arg(argument, room) else {
        told.println("file name: File name too long")?;
        return Err(Failure::Told);
    };
    let Ok(path) = str::from_utf8(&room[..n]) else {
        told.println("file name: not UTF-8")?;
        return Err(Failure::Told);
    };
    Ok(path)
}

// Reads the file that an argument names; how many bytes stand at the room's start.
fn read(
    rt: &(impl Files + Env),
    told: &impl Print,
    argument: usize,
    room: &mut [u8],
) -> Result<usize, Failure>
    ensures { IfOk result (λ n. n ≤ length room.new) }
{
    let mut name = [0u8; PATH];
    let path = named(rt, told, argument, &mut name)?;
    let mut file = fs::open(rt, path).map_err(|error| tell(told, path, error))?;
    take(&mut file, told, path, room)
}

// Reads the question, and what is asked of it. Of a file longer than the room the start says enough where the room has more bytes
// than any question (`LONGEST` in the crate limits).
pub fn start<'a>(
    rt: &(impl Files + Env),
    told: &impl Print,
    room: &'a mut [u8],
) -> Result<Started<'a>, Failure> {
    let (Some(asked), true, false) = (
        asked_by_argument(rt),
        has_argument(rt, 3),
        has_argument(rt, 4),
    ) else {
        usage(rt, told)?;
        return Err(Failure::Told);
    };
    let n = match read(rt, told, 1, room) {
        Err(Failure::Longer) => room.len(),
        taken => taken?,
    };
    Ok(Started {
        asked,
        question: &room[..n],
    })
}

// Reads the sheet.
pub fn read_sheet<'a>(
    rt: &(impl Files + Env),
    told: &impl Print,
    room: &'a mut [u8],
) -> Result<&'a [u8], Failure> {
    let n = read(rt, told, 3, room)?;
    Ok(&room[..n])
}

// Writes the sheet.
pub fn write_sheet(
    rt: &(impl Files + Env),
    told: &impl Print,
    bytes: &[u8],
) -> Result<(), Failure> {
    let mut name = [0u8; PATH];
    let path = named(rt, told, 3, &mut name)?;
    fs::write(rt, path, bytes).map_err(|error| tell(told, path, error))
}

// What a program's end says: nothing more where a line has told what went wrong.
pub fn end(done: Result<(), Failure>) -> io::Result<()>
    ensures { Ends done result }
{
    match done {
        Ok(()) | Err(Failure::Told) | Err(Failure::Longer) => Ok(()),
        Err(Failure::Output(error)) => Err(error),
    }
}
