// Tags: attributes and tags of a fresh page, laid into the lent room one behind the other. Each function returns the place behind what it wrote.
//
// The letters of a field are taken from the table's keys, which the caller copies once and lends.
ghost use Rattle.std.specs.Prelude.{◌≡◌, true, [], ◌∷◌, ◌+◌, ◌*◌, ◌-◌, ◌≤◌, length};
ghost use Rattle.std.proofs.Math.Seq.{slice};
ghost use Rattle.paper.specs.Lists.{bytes, every};
ghost use Rattle.paper.specs.Values.{esc, escape};
ghost use Rattle.paper.specs.Layout.{shown};
ghost use Rattle.paper.specs.Writing.{decimal};
ghost use Rattle.room.specs.Laid.{laid};
ghost use Rattle.fields.specs.Places.{name_of, field_count};
ghost use Rattle.fields.specs.Columns.{key_column};
ghost use Rattle.plan.specs.Numbers.{within, paper_span};
ghost use Rattle.room.specs.Written.{Wrote};
ghost use Rattle.room.specs.Numbered.{spans_at};
ghost use Rattle.writer.specs.Tags.{quoted, attribute, fields_text, tag_text};

use fields::names::lay_name;
use fields::numbers;
use markup::values;
use plan::Span;
use room::lay;

// 0 for a byte of a value that is spelled as it is, else 1. Tried with `||`, which misses a bar of speed that `|` meets (docs/BENCH.md).
fn grows(b: u8) -> u8
    ensures { result ≡ 0 → esc b ≡ b ∷ [] }
{
    ((b == b'"') | (b == b'&') | (b == b'<')) as u8
}

// Copies the value that stands from `from` up to `to` in the text, and tells whether it is spelled so. No byte ends this early, so that many can be taken at once.
fn lay_plain(out: &mut [u8], at: usize, text: &[u8], from: usize, to: usize) -> bool
    requires { (from ≤ to) × (to ≤ length text.now) × (at + (to - from) ≤ length out.old) }
    ensures { (result ≡ true → escape (slice from to text.now) ≡ slice from to text.now)
        × (out.new ≡ laid out.old at (slice from to text.now)) }
{
    let mut grown = 0u8;
    let word = &text[from..to];
    for (i, b) in word.iter().enumerate() {
        out[at + i] = *b;
        grown |= grows(*b);
    }
    grown == 0
}

// Writes the value that stands from `from` up to `to` in the text as it is spelled: most values are copied, the others are spelled over their copy.
fn lay_value(out: &mut [u8], at: usize, text: &[u8], from: usize, to: usize) -> usize
    requires { (from ≤ to)
        × (to ≤ length text.now)
        × (at + length (escape (slice from to text.now)) ≤ length out.old) }
    ensures { Wrote out.old out.new at result (escape (slice from to text.now)) }
{
    if lay_plain(out, at, text, from, to) {
        return at + (to - from);
    }
    values::spell(text, from, to, out, at)
}

// Writes an attribute: a blank, the letters of a key, and the value that stands from `from` up to `to` in the text, spelled between double quotes.
fn lay_attribute(
    out: &mut [u8],
    at: usize,
    letters: u64,
    text: &[u8],
    from: usize,
    to: usize,
) -> usize
    requires { (from ≤ to)
        × (to ≤ length text.now)
        × (at + length (quoted (name_of letters) (escape (slice from to text.now))) ≤ length out.old) }
    ensures { Wrote out.old out.new at result (quoted (name_of letters) (escape (slice from to text.now))) }
{
    out[at] = b' ';
    let a = lay_name(letters, out, at + 1);
    let b = lay(out, a, b"=\"");
    let c = lay_value(out, b, text, from, to);
    out[c] = b'"';
    c + 1
}

// Writes the attribute of a field whose value is a span of the text; an absent value has none.
pub fn lay_field(out: &mut [u8], at: usize, letters: u64, text: &[u8], s: Span) -> usize
    requires { (within (length text.now) (paper_span s) ≡ true)
        × (at + length (attribute (name_of letters) (shown text.now (paper_span s))) ≤ length out.old) }
    ensures { Wrote out.old out.new at result (attribute (name_of letters) (shown text.now (paper_span s))) }
{
    if s.len == 0 {
        return at;
    }
    let from = s.at as usize;
    let to = from + s.len as usize;
    lay_attribute(out, at, letters, text, from, to)
}

// Writes the attributes of `count` fields of the table from `first` on. Their values are what as many spans show in the text, two numbers to a span, the
// first of which stands at place `from` of the numbers.
pub fn lay_fields(
    out: &mut [u8],
    at: usize,
    keys: &[u64],
    first: usize,
    count: usize,
    text: &[u8],
    numbers: &[u32],
    from: usize,
) -> usize
    requires { (keys.now ≡ key_column)
        × (first + count ≤ field_count)
        × (from + 2 * count ≤ length numbers.now)
        × (every (within (length text.now)) (spans_at count from numbers.now) ≡ true)
        × (at + length (fields_text first count text.now from numbers.now) ≤ length out.old) }
    ensures { Wrote out.old out.new at result (fields_text first count text.now from numbers.now) }
{
    let mut a = at;
    for i in 0..count {
        let k = from + 2 * i;
        let s = Span {
            at: numbers[k],
            len: numbers[k + 1],
        };
        a = lay_field(out, a, keys[first + i], text, s);
    }
    a
}

// Writes the attribute p with a number without leading zeros: the patch of MP, or the package number of M. A number that is 0 is absent.
pub fn lay_number(out: &mut [u8], at: usize, n: u32) -> usize
    requires { at + length (attribute (bytes "p") (decimal n)) ≤ length out.old }
    ensures { Wrote out.old out.new at result (attribute (bytes "p") (decimal n)) }
{
    if n == 0 {
        return at;
    }
    let a = lay(out, at, b" p=\"");
    let b = numbers::spell(n, out, a);
    out[b] = b'"';
    b + 1
}

// Writes a tag: how it begins, the attributes of such fields, and how it ends.
pub fn lay_tag(
    out: &mut [u8],
    at: usize,
    begin: &[u8],
    keys: &[u64],
    first: usize,
    count: usize,
    text: &[u8],
    numbers: &[u32],
    from: usize,
    end: &[u8],
) -> usize
    requires { (keys.now ≡ key_column)
        × (first + count ≤ field_count)
        × (from + 2 * count ≤ length numbers.now)
        × (every (within (length text.now)) (spans_at count from numbers.now) ≡ true)
        × (at + length (tag_text begin.now first count text.now from numbers.now end.now) ≤ length out.old) }
    ensures { Wrote out.old out.new at result (tag_text begin.now first count text.now from numbers.now end.now) }
{
    let a = lay(out, at, begin);
    let b = lay_fields(out, a, keys, first, count, text, numbers, from);
    lay(out, b, end)
}
