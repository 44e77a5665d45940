// The walk: the tags of a page one at a time, and the attributes of a tag one at a time. It answers on any bytes; on a well-formed page its answers
// are the page's tags.
ghost use Rattle.std.specs.Prelude.{◌≡◌, ◌+◌, ◌≤◌, length, drop};
ghost use Rattle.paper.specs.Lists.{until};
ghost use Rattle.paper.specs.Bytes.{is_space};
ghost use Rattle.paper.specs.Grammar.{is_name_byte};
ghost use Rattle.markup.specs.Walk.{is_middle, passes, within, inside_at, tags_at, first_of, tag_of, Inner, Outer};

use room::byte_or;

// A page's next tag.
#[derive(Clone, Copy, PartialEq, Eq)]
pub enum Mark {
    // A start tag: its `<` stands at `at`, its name behind that up to `name_end`, and there its attributes begin.
    Start { at: usize, name_end: usize },
    // An end tag, whose `<` stands at `at`.
    End { at: usize },
}

// What stands next in a start tag.
#[derive(Clone, Copy, PartialEq, Eq)]
pub enum Piece {
    // An attribute: where its name begins and ends, and the bytes between its quotes. The next piece begins one byte behind `raw_end`.
    Attribute {
        name_at: usize,
        name_end: usize,
        raw_at: usize,
        raw_end: usize,
    },
    // The tag's end, and whether the tag closes itself.
    Stop {
        shut: bool,
    },
}

// The sets of bytes that the walk passes over.
#[derive(Clone, Copy, PartialEq, Eq)]
pub enum Set {
    // The spaces.
    Spaces,
    // The bytes of a name.
    Names,
    // What may stand between an attribute's name and its value.
    Middle,
    // All bytes but that one.
    Not(u8),
}

// Whether a byte is a space.
fn is_space(b: u8) -> bool
    ensures { result ≡ is_space b }
{
    matches!(b, b' ' | b'\n' | b'\r' | b'\t')
}

// Whether a byte may stand in a name.
fn is_name(b: u8) -> bool
    ensures { result ≡ is_name_byte b }
{
    matches!(b, b'A'..=b'Z' | b'a'..=b'z' | b'0'..=b'9')
}

// Whether a byte may stand between an attribute's name and its value.
fn is_middle(b: u8) -> bool
    ensures { result ≡ is_middle b }
{
    b == b'=' || is_space(b)
}

// Whether a byte is in a set.
fn in_set(b: u8, set: Set) -> bool
    ensures { result ≡ passes set b }
{
    match set {
        Set::Spaces => is_space(b),
        Set::Names => is_name(b),
        Set::Middle => is_middle(b),
        Set::Not(k) => b != k,
    }
}

// Where the bytes of a set end that begin at `at`.
pub fn run(page: &[u8], at: usize, set: Set) -> usize
    ensures { (result ≡ at + until (passes set) (drop at page.now)) × (at ≤ result) × (at ≤ length page.now → result ≤ length page.now) }
{
    for i in at..page.len() {
        if !in_set(page[i], set) {
            return i;
        }
    }
    at.max(page.len())
}

// The set of a value's bytes, by the byte that opens it: all bytes but that one. The bytes 0, 1 and 2, which no page may have, stand for the other sets.
fn within(quote: u8) -> Set
    ensures { result ≡ within quote }
{
    match quote {
        0 => Set::Spaces,
        1 => Set::Names,
        2 => Set::Middle,
        _ => Set::Not(quote),
    }
}

// The next attribute of a tag from `at` on, or the tag's end.
pub fn next_attr(page: &[u8], at: usize) -> Piece
    requires { at ≤ length page.now }
    ensures { (inside_at page.now at ≡ first_of page.now result) × Inner at (length page.now) result }
{
    let name_at = run(page, at, Set::Spaces);
    let name_end = run(page, name_at, Set::Names);
    if name_end == name_at {
        return Piece::Stop {
            shut: byte_or(page, name_at) == b'/',
        };
    }
    let q = run(page, name_end, Set::Middle);
    let raw_at = q + 1;
    let raw_end = run(page, raw_at, within(byte_or(page, q)));
    if raw_end < page.len() {
        Piece::Attribute {
            name_at,
            name_end,
            raw_at,
            raw_end,
        }
    } else {
        Piece::Stop { shut: false }
    }
}

// The next tag of a page from `at` on, if one is left. The walk goes on one byte behind its `<`.
pub fn next_tag(page: &[u8], at: usize) -> Option<Mark>
    requires { at ≤ length page.now }
    ensures { (tags_at page.now at ≡ tag_of page.now result) × Outer at (length page.now) result }
{
    let at = run(page, at, Set::Not(b'<'));
    if at >= page.len() {
        return None;
    }
    if byte_or(page, at + 1) == b'/' {
        return Some(Mark::End { at });
    }
    let name_end = run(page, at + 1, Set::Names);
    Some(Mark::Start { at, name_end })
}
