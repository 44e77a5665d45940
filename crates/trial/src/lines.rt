// Lines: words and decimal numbers on the output, a blank before each number.
ghost use Rattle.std.specs.Prelude.{◌≤◌, length};

use std::io::{self, Write};

// A word at the beginning of a line.
pub fn word<W: Write>(out: &mut W, s: &[u8]) -> io::Result<()> {
    out.write_all(s)
}

// A number of the machine's width.
pub fn size<W: Write>(out: &mut W, n: usize) -> io::Result<()> {
    write!(out, " {n}")
}

// A number.
pub fn number<W: Write>(out: &mut W, n: u32) -> io::Result<()> {
    size(out, n as usize)
}

// A byte as a number.
fn byte<W: Write>(out: &mut W, b: u8) -> io::Result<()> {
    number(out, b as u32)
}

// The end of a line.
pub fn end<W: Write>(out: &mut W) -> io::Result<()> {
    out.write_all(b"\n")
}

// The line for a command that is too short, or names no step.
pub fn bad<W: Write>(out: &mut W) -> io::Result<()> {
    out.write_all(b"bad\n")
}

// The bytes up to an end.
pub fn bytes<W: Write>(out: &mut W, s: &[u8], end: usize) -> io::Result<()>
    requires { end ≤ length s.now }
{
    for b in &s[..end] {
        byte(out, *b)?;
    }
    Ok(())
}

// The numbers from `at` to an end.
pub fn numbers<W: Write>(out: &mut W, s: &[u32], at: usize, end: usize) -> io::Result<()>
    requires { (at ≤ end) × (end ≤ length s.now) }
{
    for n in &s[at..end] {
        number(out, *n)?;
    }
    Ok(())
}
