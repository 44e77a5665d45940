// Reads lines `element letters value` from standard input, at most 65,536 bytes, and tells of each whether the value keeps its field: 1 or 0;
// `-` for a dose that reads as absent, `?` where there is no such element or field.
// A read or a write that fails ends it with status 1 and a line on the error output. It allocates nothing.
#![tactic(auto)]

ghost use Rattle.std.specs.Prelude.{◌<◌};

use fields::dose::is_zero;
use fields::lookup::{child, count_of, field, first_of, rule_of};
use fields::rules::keeps_field;
use intake::fill;
use std::io::{self, Write};

// The most bytes of an input that count.
const INPUT: usize = 65536;

// The element of a name under any parent, 0 if there is none.
fn element_of(name: &[u8]) -> u8
    ensures { result < 10 }
{
    for parent in [10, 1, 5, 6] {
        let element = child(parent, name);
        if element > 0 {
            return element;
        }
    }
    0
}

// One answer.
fn answer<W: Write>(out: &mut W, name: &[u8], letters: &[u8], value: &[u8]) -> io::Result<()> {
    let element = element_of(name);
    let place = field(element, letters);
    if place < count_of(element) {
        let id = first_of(element) + place;
        if is_zero(rule_of(id), value) {
            out.write_all(b"-\n")
        } else if keeps_field(id, value) {
            out.write_all(b"1\n")
        } else {
            out.write_all(b"0\n")
        }
    } else {
        out.write_all(b"?\n")
    }
}

// One line: what stands before the first blank, up to the second, and behind it.
fn line<W: Write>(out: &mut W, s: &[u8]) -> io::Result<()> {
    let mut parts = s.splitn(3, |b| *b == b' ');
    match (parts.next(), parts.next(), parts.next()) {
        (Some(name), Some(letters), Some(value)) => answer(out, name, letters, value),
        _ => Ok(()),
    }
}

// All lines.
fn lines<W: Write>(out: &mut W, s: &[u8]) -> io::Result<()> {
    for p in s.split(|b| *b == b'\n') {
        line(out, p)?;
    }
    Ok(())
}

fn main(rt: HostRuntime) -> io::Result<()> {
    let mut input = [0u8; INPUT];
    let n = fill(&mut rt.stdin(), &mut input)?;
    lines(&mut io::writer(&rt), &input[..n])
}
