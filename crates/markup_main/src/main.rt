// Reads a page, at most 1,400 bytes of standard input, and prints `whole`, or `good` and the length of its longest good beginning. Then, whole or not,
// one line for each tag that the walk finds: `start`, the place of its `<` and its name; for each of its attributes `attr`, its name and its value in
// hexadecimal; `end` for an end tag or a tag that closes itself.
// A read or a write that fails ends it with status 1 and a line on the error output. It allocates nothing.
#![tactic(auto)]

ghost use Rattle.std.specs.Prelude.{◌<◌, ◌≤◌, length};
ghost use Rattle.paper.specs.Sizes.{page_bytes};

use intake::fill;
use markup::scan::scan;
use markup::values::decode;
use markup::walk::{Mark, Piece, next_attr, next_tag};
use std::io::{self, Write};

// The hexadecimal digit of a number below 16.
fn digit(n: u8) -> u8
    requires { n < 16 }
{
    if n < 10 { b'0' + n } else { b'a' + (n - 10) }
}

// Prints a byte in hexadecimal.
fn show_byte<W: Write>(out: &mut W, b: u8) -> io::Result<()> {
    out.write_all(&[digit(b / 16), digit(b % 16)])
}

// Prints bytes in hexadecimal.
fn show_hex<W: Write>(out: &mut W, s: &[u8]) -> io::Result<()> {
    for b in s {
        show_byte(out, *b)?;
    }
    Ok(())
}

// Prints an attribute.
fn show_attr<W: Write>(
    out: &mut W,
    page: &[u8],
    name_at: usize,
    name_end: usize,
    raw_at: usize,
    raw_end: usize,
) -> io::Result<()>
    requires { (length page.now ≤ page_bytes) × (name_at ≤ name_end) × (name_end ≤ length page.now) × (raw_at ≤ raw_end) × (raw_end ≤ length page.now) }
{
    let mut value = [0u8; paper::PAGE];
    let n = decode(page, raw_at, raw_end, &mut value, 0);
    out.write_all(b"attr ")?;
    out.write_all(&page[name_at..name_end])?;
    out.write_all(b" ")?;
    show_hex(out, &value[..n])?;
    out.write_all(b"\n")
}

// Prints the attributes of a tag from `at` on, and `end` if the tag closes itself.
fn show_attrs<W: Write>(out: &mut W, page: &[u8], at: usize) -> io::Result<()>
    requires { (length page.now ≤ page_bytes) × (at ≤ length page.now) }
{
    let mut i = at;
    loop {
        match next_attr(page, i) {
            Piece::Stop { shut } => {
                if shut {
                    show_end(out)?;
                }
                return Ok(());
            }
            Piece::Attribute {
                name_at,
                name_end,
                raw_at,
                raw_end,
            } => {
                show_attr(out, page, name_at, name_end, raw_at, raw_end)?;
                i = raw_end + 1;
            }
        }
    }
}

// Prints a start tag.
fn show_start<W: Write>(out: &mut W, page: &[u8], at: usize, name_end: usize) -> io::Result<()>
    requires { (length page.now ≤ page_bytes) × (at < name_end) × (name_end ≤ length page.now) }
{
    write!(out, "start {at} ")?;
    out.write_all(&page[at + 1..name_end])?;
    out.write_all(b"\n")?;
    show_attrs(out, page, name_end)
}

// Prints the line for an end tag.
fn show_end<W: Write>(out: &mut W) -> io::Result<()> {
    out.write_all(b"end\n")
}

// Prints the tags of a page.
fn show_tags<W: Write>(out: &mut W, page: &[u8]) -> io::Result<()>
    requires { length page.now ≤ page_bytes }
{
    let mut i = 0;
    loop {
        match next_tag(page, i) {
            None => return Ok(()),
            Some(Mark::End { at }) => {
                show_end(out)?;
                i = at + 1;
            }
            Some(Mark::Start { at, name_end }) => {
                show_start(out, page, at, name_end)?;
                i = at + 1;
            }
        }
    }
}

// Prints how far a page is good.
fn show_extent<W: Write>(out: &mut W, page: &[u8]) -> io::Result<()>
    requires { length page.now ≤ page_bytes }
{
    match scan(page) {
        Ok(()) => out.write_all(b"whole\n"),
        Err(n) => writeln!(out, "good {n}"),
    }
}

fn main(rt: HostRuntime) -> io::Result<()> {
    let mut page = [0u8; paper::PAGE];
    let n = fill(&mut rt.stdin(), &mut page)?;
    let mut out = io::writer(&rt);
    show_extent(&mut out, &page[..n])?;
    show_tags(&mut out, &page[..n])
}
