// The values of one element, as the tape tells them.
ghost use Rattle.std.specs.Prelude.{◌≡◌, [], ◌∷◌, ◌+◌, ◌*◌, ◌≤◌, length, get_or};
ghost use Rattle.paper.specs.Lists.{number};
ghost use Rattle.paper.specs.Plan.{same_slots};
ghost use Rattle.paper.specs.Calls.{text_room};
ghost use Rattle.page.specs.Laying.{start_of, Room, Lays};
ghost use Rattle.tape.specs.Tape.{shown_in, values_at, Span, Spans};

use fields::numbers::shown;
use room::lay;

// A start from here on says that the value lies in the side room, so much less far.
pub const ASIDE: usize = 32768;

// The value that two numbers tell.
pub fn value_of<'a>(page: &'a [u8], side: &'a [u8], a: usize, b: usize) -> &'a [u8]
    requires { Span page.now (length side.now) a b }
    ensures { result.now ≡ shown_in page.now side.now a b }
{
    if a < ASIDE {
        return &page[a..b];
    }
    &side[a - ASIDE..b]
}

// Where the span of a value starts that is laid at `n`: an absent one has 0.
fn start_of(n: usize, len: u32) -> u32
    requires { n ≤ text_room }
    ensures { result ≡ start_of n len }
{
    if len == 0 {
        return 0;
    }
    n as u32
}

// Lays one value into the text from `n` on, and its span there into the numbers at `at`; returns the place behind it.
pub fn lay_one(v: &[u8], text: &mut [u8], n: usize, numbers: &mut [u32], at: usize) -> usize
    requires { Room (v.now ∷ []) text.old n × (at + 2 ≤ length numbers.old) }
    ensures { Lays (v.now ∷ []) text.old text.new n result numbers.old numbers.new at }
{
    let e = lay(text, n, v);
    let len = (e - n) as u32;
    let start = start_of(n, len);
    numbers[at] = start;
    numbers[at + 1] = len;
    e
}

// Lays so many values, told from `base` of the tape on, into the text from `n` on, without gaps, and their spans there into the numbers from `at` on;
// returns the place behind the last value.
pub fn lay_slots<'a>(
    page: &'a [u8],
    side: &'a [u8],
    tape: &'a [u16],
    base: usize,
    count: usize,
    text: &mut [u8],
    n: usize,
    numbers: &mut [u32],
    at: usize,
) -> usize
    requires { (base + 2 * count ≤ length tape.now) × Spans page.now (length side.now) count tape.now base
        × Room (values_at page.now side.now count tape.now base) text.old n × (at + 2 * count ≤ length numbers.old) }
    ensures { Lays (values_at page.now side.now count tape.now base) text.old text.new n result
        numbers.old numbers.new at }
{
    let mut m = n;
    for j in 0..count {
        let s = base + 2 * j;
        let v = value_of(page, side, tape[s] as usize, tape[s + 1] as usize);
        m = lay_one(v, text, m, numbers, at + 2 * j);
    }
    m
}

// The number that the digits of a value show, at most eight; 0 if it is absent.
pub fn number_in<'a>(page: &'a [u8], side: &'a [u8], tape: &'a [u16], s: usize) -> u32
    requires { (s + 2 ≤ length tape.now) × Span page.now (length side.now) (get_or tape.now s 0) (get_or tape.now (s + 1) 0)
        × (length (shown_in page.now side.now (get_or tape.now s 0) (get_or tape.now (s + 1) 0)) ≤ 8) }
    ensures { result ≡ number 0 (shown_in page.now side.now (get_or tape.now s 0) (get_or tape.now (s + 1) 0)) }
{
    let v = value_of(page, side, tape[s] as usize, tape[s + 1] as usize);
    shown(v, 0, v.len())
}

// Whether so many values of two pages are the same.
pub fn same_slots<'a>(
    one: &'a [u8],
    two: &'a [u8],
    side: &'a [u8],
    tape: &'a [u16],
    x: usize,
    y: usize,
    count: usize,
) -> bool
    requires { (x + 2 * count ≤ length tape.now) × (y + 2 * count ≤ length tape.now) × Spans one.now (length side.now) count tape.now x
        × Spans two.now (length side.now) count tape.now y }
    ensures { result ≡ same_slots (values_at one.now side.now count tape.now x)
        (values_at two.now side.now count tape.now y) }
{
    for j in 0..count {
        let p = x + 2 * j;
        let q = y + 2 * j;
        let v = value_of(one, side, tape[p] as usize, tape[p + 1] as usize);
        let u = value_of(two, side, tape[q] as usize, tape[q + 1] as usize);
        if v != u {
            return false;
        }
    }
    true
}
