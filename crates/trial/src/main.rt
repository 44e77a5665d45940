// Works through commands from standard input and prints what the proved library answers: a test program, which the host compares with the second program.
// A command is one letter, four bytes that give the length of what follows, lowest byte first, and that many bytes, at most 65,536. Commands follow
// each other until the input ends; a command that is too long or cut short ends the work. A read or a write that fails ends the program with status 1 and a line
// on the error output. It allocates nothing. Each command has a module of its own and an arm of `answer`:
//   c  takes one step with a collector that is kept from command to command, and prints the answer and what is missing (`collecting`)
//   k  prints a cell (`cells`)
//   r  reads pages, one zero byte between them, and prints answer, plan, rows and text (`reading`)
#![tactic(auto)]

mod cells;
mod collecting;
mod lines;
mod reading;

ghost use Rattle.std.specs.Prelude.{◌≤◌, length};

use collector::store::Collector;
use intake::fill;
use std::io::{self, Read, Write};

// A turn: whether a command is answered, and the collector afterwards.
#[derive(Clone, Copy)]
struct Turn {
    more: bool,
    collector: Collector,
}

// The number that four bytes give, lowest first.
pub fn number_of(a: u8, b: u8, c: u8, d: u8) -> u32 {
    a as u32 + 256 * (b as u32) + 65536 * (c as u32) + 16777216 * (d as u32)
}

// Answers one command. Gives back the collector.
fn answer<W: Write>(out: &mut W, c: Collector, letter: u8, given: &[u8]) -> io::Result<Collector> {
    match letter {
        b'c' => collecting::answer(out, c, given),
        b'k' => {
            cells::answer(out, given)?;
            Ok(c)
        }
        b'r' => {
            reading::answer(out, given)?;
            Ok(c)
        }
        _ => {
            out.write_all(b"unknown\n")?;
            Ok(c)
        }
    }
}

// Answers the command that stands in the first bytes of a slice.
fn answer_first<W: Write>(
    out: &mut W,
    c: Collector,
    letter: u8,
    s: &[u8],
    len: usize,
) -> io::Result<Collector>
    requires { len ≤ length s.now }
{
    answer(out, c, letter, &s[0..len])
}

// The same, of a room.
fn answer_in<W: Write>(
    out: &mut W,
    c: Collector,
    letter: u8,
    room: &[u8; 65536],
    len: usize,
) -> io::Result<Collector>
    requires { len ≤ 65536 }
{
    answer_first(out, c, letter, room, len)
}

// The turn after which there is none.
fn last(c: Collector) -> Turn {
    Turn {
        more: false,
        collector: c,
    }
}

// Reads one command and answers it; the last turn if there is none left, or if it is too long or cut short.
fn next<R: Read, W: Write>(input: &mut R, out: &mut W, c: Collector) -> io::Result<Turn> {
    let mut head = [0u8; 5];
    if fill(input, &mut head)? < 5 {
        return Ok(last(c));
    }
    let len = number_of(head[1], head[2], head[3], head[4]) as usize;
    if len > 65536 {
        return Ok(last(c));
    }
    let mut room = [0u8; 65536];
    if fill(input, &mut room[0..len])? < len {
        return Ok(last(c));
    }
    let after = answer_in(out, c, head[0], &room, len)?;
    Ok(Turn {
        more: true,
        collector: after,
    })
}

// A proved loop has to end, and nothing says that the input does. So the turns are counted, up to a number that no run comes to.
fn main(rt: HostRuntime) -> io::Result<()> {
    let mut input = rt.stdin();
    let mut out = io::writer(&rt);
    let mut c = Collector::empty();
    for _ in 0..u64::MAX {
        let t = next(&mut input, &mut out, c)?;
        if !t.more {
            break;
        }
        c = t.collector;
    }
    Ok(())
}
