// FORMAT 9.3 and 9.5: the twelve cases, one of them in version 2, and the shortcuts that are wrong; each with both answers, and the rows that show a no.
#![tactic(auto)]

mod list;
mod shown;

use list::{change, change_in};
use question::types::{Verb, Version};
use shown::show;
use std::io;

fn inserts(rt: &impl Print) -> io::Result<()> {
    change(
        rt,
        "a  insert (3,9)",
        Verb::Insert,
        b"\x01\x03\x00\x00\x00\x09\x00\x00\x00",
    )?;
    b(rt, "b  insert (3,10)")?;
    change(rt, "c  insert no row", Verb::Insert, b"\x00")
}

fn deletes(rt: &impl Print) -> io::Result<()> {
    change(
        rt,
        "d  delete V < 10",
        Verb::Delete,
        b"\x01\x01\x01\x01\xff\x0a\x00\x00\x00",
    )?;
    change(
        rt,
        "e  delete V <= 10",
        Verb::Delete,
        b"\x01\x01\x02\x01\xff\x0a\x00\x00\x00",
    )?;
    change(
        rt,
        "f  delete K = 4",
        Verb::Delete,
        b"\x01\x01\x03\x00\xff\x04\x00\x00\x00",
    )?;
    g(rt, "g  delete V >= 5")
}

// K is kept: \x00\xff\x00\x00\x00\x00.
fn modifies(rt: &impl Print) -> io::Result<()> {
    change(
        rt,
        "h  V := V + 5 where V >= 10",
        Verb::Modify,
        b"\x01\x01\x04\x01\xff\x0a\x00\x00\x00\x00\xff\x00\x00\x00\x00\x02\x01\x05\x00\x00\x00",
    )?;
    change(
        rt,
        "i  V := V + 5 where V >= 5",
        Verb::Modify,
        b"\x01\x01\x04\x01\xff\x05\x00\x00\x00\x00\xff\x00\x00\x00\x00\x02\x01\x05\x00\x00\x00",
    )?;
    change(
        rt,
        "j  V := V - 8 where V >= 10",
        Verb::Modify,
        b"\x01\x01\x04\x01\xff\x0a\x00\x00\x00\x00\xff\x00\x00\x00\x00\x02\x01\xf8\xff\xff\xff",
    )?;
    k(rt, "k  V := V - 40 where V >= 10", Version::One)?;
    change(
        rt,
        "l  V := 7 where V >= 10",
        Verb::Modify,
        b"\x01\x01\x04\x01\xff\x0a\x00\x00\x00\x00\xff\x00\x00\x00\x00\x01\xff\x07\x00\x00\x00",
    )
}

fn b(rt: &impl Print, label: &str) -> io::Result<()> {
    change(
        rt,
        label,
        Verb::Insert,
        b"\x01\x03\x00\x00\x00\x0a\x00\x00\x00",
    )
}

fn g(rt: &impl Print, label: &str) -> io::Result<()> {
    change(
        rt,
        label,
        Verb::Delete,
        b"\x01\x01\x04\x01\xff\x05\x00\x00\x00",
    )
}

fn k(rt: &impl Print, label: &str, version: Version) -> io::Result<()> {
    change_in(
        rt,
        label,
        version,
        Verb::Modify,
        b"\x01\x01\x04\x01\xff\x0a\x00\x00\x00\x00\xff\x00\x00\x00\x00\x02\x01\xd8\xff\xff\xff",
    )
}

// Properties 3', 4' and 5' only suffice: this is computable though V is hidden.
fn properties(rt: &impl Print) -> io::Result<()> {
    show(
        rt,
        "1  KEY alone, K shown, C: V >= 10; K := 5 where K = 3 or (K = 5 and V >= 20)",
        2,
        b"\x56\x55\x51\x01\x00\x01\x03\x00\x02\
          \x00\x00\x00\x00\x09\x00\x00\x00\x01\
          \x00\x00\x00\x00\x1e\x00\x00\x00\x00\
          \x01\x01\x04\x01\xff\x0a\x00\x00\x00\
          \x05\x01\x03\x00\xff\x03\x00\x00\x00\x01\x03\x00\xff\x05\x00\x00\x00\x01\x04\x01\xff\x14\x00\x00\x00\x02\x03\
          \x01\xff\x05\x00\x00\x00\
          \x00\xff\x00\x00\x00\x00",
    )
}

// Not (V <= 9) is V >= 10, not V >= 9: it loses nothing that the integers give.
fn negation(rt: &impl Print) -> io::Result<()> {
    show(
        rt,
        "4  C: K = Q and not (V <= 9); delete V <= 9",
        4,
        b"\x56\x55\x51\x01\x00\x02\x02\x00\x02\x02\
          \x00\x00\x00\x00\x09\x00\x00\x00\x01\
          \x00\x00\x00\x00\x1e\x00\x00\x00\x00\
          \x00\x00\x00\x00\x09\x00\x00\x00\x01\
          \x00\x00\x00\x00\x09\x00\x00\x00\x00\
          \x04\x01\x03\x00\x03\x00\x00\x00\x00\x01\x02\x01\xff\x09\x00\x00\x00\x04\x02\
          \x01\x01\x02\x01\xff\x09\x00\x00\x00",
    )
}

// What a shortcut would get wrong.
fn shortcuts(rt: &impl Print) -> io::Result<()> {
    rt.println("shortcuts that are wrong")?;
    properties(rt)?;
    g(rt, "2  g again: computable, and V is hidden")?;
    k(rt, "3  k again: new values are tested", Version::One)?;
    change(
        rt,
        "3  delete V > 30: ranges are facts",
        Verb::Delete,
        b"\x01\x01\x05\x01\xff\x1e\x00\x00\x00",
    )?;
    negation(rt)?;
    b(rt, "5  b again: CLIENT has (9,3), and KEY has no row yet")
}

fn main(rt: HostRuntime) -> io::Result<()> {
    inserts(&rt)?;
    deletes(&rt)?;
    modifies(&rt)?;
    rt.println("in version 2")?;
    k(
        &rt,
        "k  V := V - 40 where V >= 10: every listed row goes",
        Version::Two,
    )?;
    shortcuts(&rt)
}
