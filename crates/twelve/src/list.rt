// The list of the twelve: KEY has K 0..9, shown, and V 0..30; CLIENT has N 0..9, shown, and Q 0..9. C: K = Q and V >= 10.
use crate::shown::show;
use question::types::{Verb, Version};
use std::io;

// The list's 64 bytes, and room for a change.
const LIST: [u8; 85] = *b"\x56\x55\x51\x01\x00\x02\x00\x00\x02\x02\
    \x00\x00\x00\x00\x09\x00\x00\x00\x01\
    \x00\x00\x00\x00\x1e\x00\x00\x00\x00\
    \x00\x00\x00\x00\x09\x00\x00\x00\x01\
    \x00\x00\x00\x00\x09\x00\x00\x00\x00\
    \x03\x01\x03\x00\x03\x00\x00\x00\x00\x01\x04\x01\xff\x0a\x00\x00\x00\x02\
    \x00\x00\x00\x00\x00\x00\x00\x00\x00\x00\x00\x00\x00\x00\x00\x00\x00\x00\x00\x00\x00";

// FORMAT 3.2: the numbers of the versions and of the kinds of change. Nothing else here writes a question.
const ONE: u8 = 1;

const TWO: u8 = 2;

const INSERT: u8 = 1;

const DELETE: u8 = 2;

const MODIFY: u8 = 3;

// The list with a change of KEY after it; its version stands at byte 3, its kind at byte 6.
pub fn change_in(
    rt: &impl Print,
    label: &str,
    version: Version,
    verb: Verb,
    change: &[u8],
) -> io::Result<()> {
    let mut question = LIST;
    question[3] = match version {
        Version::One => ONE,
        Version::Two => TWO,
    };
    question[6] = match verb {
        Verb::Insert => INSERT,
        Verb::Delete => DELETE,
        Verb::Modify => MODIFY,
    };
    let Some(place) = question[64..].get_mut(..change.len()) else {
        return Ok(());
    };
    place.copy_from_slice(change);
    show(rt, label, 4, &question[..64 + change.len()])
}

// And in version 1, of which most of them are: one function for both would have each name it.
pub fn change(rt: &impl Print, label: &str, verb: Verb, bytes: &[u8]) -> io::Result<()> {
    change_in(rt, label, Version::One, verb, bytes)
}
