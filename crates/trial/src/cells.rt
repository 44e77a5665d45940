// The command k: a cell. Seven numbers of four bytes, lowest first: count, row, field, which, and the lengths of rows, text and catalogue; then these, each
// number of the rows in four bytes, at most 16,384 of them. It prints
//   cell NUMBER SOURCE AT LENGTH MORE ZERO OMITTED: the number of the refusal; which buffer the text is a part of (1 the plan's, 2 the catalogue's, 0 neither),
//     where it begins there and how long it is; whether "..." follows and whether 0 is printed; how many bytes were left out
//   text, and the bytes of the cell's text
// or, if the bytes are too few: bad
ghost use Rattle.std.specs.Prelude.{◌+◌, ◌*◌, ◌≤◌, length};

use crate::lines::{bad, bytes, end, number, size, word};
use crate::number_of;
use cell::answer::{NoCell, Shown, Source};
use cell::{cell_answer, cell_text};
use std::io::{self, Write};

// Where the rows begin.
const ROWS_AT: usize = 28;

// The number that stands at a place.
fn number_at(given: &[u8], at: usize) -> u32
    requires { at + 4 ≤ length given.now }
{
    number_of(given[at], given[at + 1], given[at + 2], given[at + 3])
}

// Lays the rows' numbers into their room.
fn lay_rows(given: &[u8], rows: &mut [u32], n: usize)
    requires { (28 + 4 * n ≤ length given.now) × (n ≤ length rows.old) }
{
    for i in 0..n {
        rows[i] = number_at(given, ROWS_AT + 4 * i);
    }
}

// What a cell shows, in numbers.
fn tell_shown<W: Write>(out: &mut W, s: Shown) -> io::Result<()> {
    number(out, s.source.number())?;
    size(out, s.at)?;
    size(out, s.len)?;
    number(out, s.more as u32)?;
    number(out, s.zero as u32)?;
    size(out, s.omitted)
}

// What a cell shows that is answered; nothing where it is refused.
fn shown_of(a: Result<Shown, NoCell>) -> Shown {
    a.unwrap_or(Shown {
        source: Source::Neither,
        at: 0,
        len: 0,
        more: false,
        omitted: 0,
        zero: false,
    })
}

// What is answered of a cell.
fn tell<'a, W: Write>(
    out: &mut W,
    rows: &'a [u32],
    count: usize,
    text: &'a [u8],
    catalogue: &'a [u8],
    row: usize,
    field: u32,
    which: usize,
) -> io::Result<()> {
    let a = cell_answer(rows, count, text, catalogue, row, field, which);
    word(out, b"cell")?;
    number(out, a.err().map_or(0, |e| e.number()))?;
    tell_shown(out, shown_of(a))?;
    end(out)?;
    let shown = cell_text(rows, count, text, catalogue, row, field, which);
    word(out, b"text")?;
    bytes(out, shown, shown.len())?;
    end(out)
}

// The cell that the first four numbers name, in the first of the rows' numbers.
fn tell_named<'a, W: Write>(
    out: &mut W,
    given: &'a [u8],
    rows: &'a [u32],
    n: usize,
    text: &'a [u8],
    catalogue: &'a [u8],
) -> io::Result<()>
    requires { (28 ≤ length given.now) × (n ≤ length rows.now) }
{
    let count = number_at(given, 0) as usize;
    let row = number_at(given, 4) as usize;
    let field = number_at(given, 8);
    let which = number_at(given, 12) as usize;
    tell(out, &rows[0..n], count, text, catalogue, row, field, which)
}

// The same, of a room for rows.
fn tell_in<'a, W: Write>(
    out: &mut W,
    given: &'a [u8],
    rows: &'a [u32; 16384],
    n: usize,
    text: &'a [u8],
    catalogue: &'a [u8],
) -> io::Result<()>
    requires { (28 ≤ length given.now) × (n ≤ 16384) }
{
    tell_named(out, given, rows, n, text, catalogue)
}

// The command.
pub fn answer<W: Write>(out: &mut W, given: &[u8]) -> io::Result<()> {
    if given.len() < ROWS_AT {
        return bad(out);
    }
    let n = number_at(given, 16) as usize;
    let text_at = ROWS_AT + 4 * n;
    let catalogue_at = text_at + number_at(given, 20) as usize;
    let all = catalogue_at + number_at(given, 24) as usize;
    if given.len() < all || n > 16384 {
        return bad(out);
    }
    let mut rows = [0u32; 16384];
    lay_rows(given, &mut rows, n);
    tell_in(
        out,
        given,
        &rows,
        n,
        &given[text_at..catalogue_at],
        &given[catalogue_at..all],
    )
}
