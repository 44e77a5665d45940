// Lines: a key, `=`, a value and byte 10, written into the lent room; the value a text, a number, or a field's part of the plan's text.
ghost use Rattle.std.specs.Prelude.{◌≡◌, ◌++◌, ◌∷◌, [], true, ◌+◌, ◌≤◌, ◌<◌, length, take, drop};
ghost use Rattle.paper.specs.Listing.{line, print, numeral};
ghost use Rattle.paper.specs.Writing.{decimal};
ghost use Rattle.fields.specs.Places.{name_of, field_at, field_count};
ghost use Rattle.plan.specs.Numbers.{within};
ghost use Rattle.room.specs.Written.{Wrote};
ghost use Rattle.listing.specs.Numbered.{given};

use fields::lookup::letters_of;
use fields::names::lay_name;
use fields::numbers::spell;
use room::lay;

// Writes a number in digits, 0 too, and returns the place behind it.
pub fn numeral(n: u32, out: &mut [u8], at: usize) -> usize
    requires { at + length (numeral n) ≤ length out.old }
    ensures { Wrote out.old out.new at result (numeral n) }
{
    if n < 10 {
        out[at] = b'0' + n as u8;
        return at + 1;
    }
    let a = spell(n / 10, out, at);
    out[a] = b'0' + (n % 10) as u8;
    a + 1
}

// Writes a line, and returns the place behind it.
pub fn text_line(out: &mut [u8], at: usize, key: &[u8], value: &[u8]) -> usize
    requires { at + length (print (line key.now value.now ∷ [])) ≤ length out.old }
    ensures { Wrote out.old out.new at result (print (line key.now value.now ∷ [])) }
{
    let a = lay(out, at, key);
    out[a] = b'=';
    let b = lay(out, a + 1, value);
    out[b] = b'\n';
    b + 1
}

// Writes a line whose value is a number in digits, 0 too.
pub fn count_line(out: &mut [u8], at: usize, key: &[u8], n: u32) -> usize
    requires { at + length (print (line key.now (numeral n) ∷ [])) ≤ length out.old }
    ensures { Wrote out.old out.new at result (print (line key.now (numeral n) ∷ [])) }
{
    let a = lay(out, at, key);
    out[a] = b'=';
    let b = numeral(n, out, a + 1);
    out[b] = b'\n';
    b + 1
}

// Writes a line whose value is a number without leading zeros; a number that is 0 is absent and has no line.
// It stays beside `count_line`, whose digits are all of a number's: what `decimal` promises ends at nine.
pub fn number_line(out: &mut [u8], at: usize, key: &[u8], n: u32) -> usize
    requires { at + length (print (given key.now (decimal n))) ≤ length out.old }
    ensures { Wrote out.old out.new at result (print (given key.now (decimal n))) }
{
    if n == 0 {
        return at;
    }
    let a = lay(out, at, key);
    out[a] = b'=';
    let b = spell(n, out, a + 1);
    out[b] = b'\n';
    b + 1
}

// Writes the line of a value whose key is a path and the letters of a field, these as a key of the table.
// It stays beside `text_line`: a function for the end of both lines, with its contract, is no plainer.
fn letters_line(out: &mut [u8], at: usize, path: &[u8], letters: u64, value: &[u8]) -> usize
    requires { at + length (print (line (path.now ++ name_of letters) value.now ∷ [])) ≤ length out.old }
    ensures { Wrote out.old out.new at result (print (line (path.now ++ name_of letters) value.now ∷ [])) }
{
    let name = lay(out, at, path);
    let sign = lay_name(letters, out, name);
    out[sign] = b'=';
    let end = lay(out, sign + 1, value);
    out[end] = b'\n';
    end + 1
}

// Writes the line of a field whose value is a part of the text, by its place in the table; an absent value has no line.
pub fn field_line(
    out: &mut [u8],
    at: usize,
    path: &[u8],
    id: usize,
    text: &[u8],
    from: usize,
    len: usize,
) -> usize
    requires { (id < field_count)
        × (within (length text.now) (record { at = from; len = len }) ≡ true)
        × (at + length (print (given (path.now ++ (field_at id).letters) (take len (drop from text.now)))) ≤ length out.old) }
    ensures { Wrote out.old out.new at result (print (given (path.now ++ (field_at id).letters) (take len (drop from text.now)))) }
{
    if len == 0 {
        return at;
    }
    letters_line(out, at, path, letters_of(id), &text[from..from + len])
}
