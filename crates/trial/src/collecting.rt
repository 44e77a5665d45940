// The command c: one step with the collector that the program keeps. One letter says which:
//   a  adds the page whose bytes follow, and prints: answer NUMBER PAGE PLACE, with number 0 if it is added, and 20 if it is already here
//   e  makes the collector empty
//   m  leaves it as it is
//   r  reads what is collected, and prints: answer NUMBER PAGE PLACE, and: rows COUNT
// After each step it prints: missing MASK COUNT LOWEST. Without a letter, or with another one, it prints: bad
use crate::lines::{bad, end, number, word};
use crate::reading::tell_answer;
use collector::adding::{Answer, Kept, add};
use collector::lacks::{lowest_missing, missing_count, missing_numbers};
use collector::reading::read;
use collector::store::{Collector, clear};
use plan::Plan;
use std::io::{self, Write};

// The answer to a page that is not refused.
fn tell_number<W: Write>(out: &mut W, n: u32) -> io::Result<()> {
    word(out, b"answer")?;
    number(out, n)?;
    number(out, 0)?;
    number(out, 0)?;
    end(out)
}

// The answer to a page.
fn tell_adding<W: Write>(out: &mut W, a: Answer) -> io::Result<()> {
    match a {
        Ok(Kept::Added) => tell_number(out, 0),
        Ok(Kept::AlreadyHere) => tell_number(out, 20),
        Err(refusal) => tell_answer(out, Some(refusal)),
    }
}

// What is missing. Gives back the collector.
fn told<W: Write>(out: &mut W, c: Collector) -> io::Result<Collector> {
    word(out, b"missing")?;
    number(out, missing_numbers(c) as u32)?;
    number(out, missing_count(c))?;
    number(out, lowest_missing(c).unwrap_or(0))?;
    end(out)?;
    Ok(c)
}

// Adds the page that stands behind the letter.
fn add_given<W: Write>(
    out: &mut W,
    c: Collector,
    given: &[u8],
    len: usize,
) -> io::Result<Collector> {
    let r = add(c, given, 1, len);
    tell_adding(out, r.answer)?;
    Ok(r.collector)
}

// Reads what is collected.
fn read_all<W: Write>(out: &mut W, c: Collector) -> io::Result<()> {
    let mut rows = [0u32; Plan::NUMBERS];
    let mut text = [0u8; Plan::TEXT];
    let r = read(c, &mut rows, &mut text);
    tell_answer(out, r.err())?;
    word(out, b"rows")?;
    number(out, r.unwrap_or(Plan::empty()).rows)?;
    end(out)
}

// The command. Gives back the collector.
pub fn answer<W: Write>(out: &mut W, c: Collector, given: &[u8]) -> io::Result<Collector> {
    if given.len() < 1 {
        bad(out)?;
        return Ok(c);
    }
    match given[0] {
        b'a' => {
            let added = add_given(out, c, given, given.len() - 1)?;
            told(out, added)
        }
        b'e' => told(out, clear(c)),
        b'm' => told(out, c),
        b'r' => {
            read_all(out, c)?;
            told(out, c)
        }
        _ => {
            bad(out)?;
            Ok(c)
        }
    }
}
