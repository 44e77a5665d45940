// Elements: the lines of an element's fields, whose spans stand two numbers to a span among numbers; and the head.
ghost use Rattle.std.specs.Prelude.{◌≡◌, true, map, ◌+◌, ◌*◌, ◌≤◌, length};
ghost use Rattle.paper.specs.Lists.{every};
ghost use Rattle.paper.specs.Layout.{shown_all};
ghost use Rattle.paper.specs.Listing.{print, head_lines};
ghost use Rattle.plan.specs.Numbers.{within, paper_span, head_with};
ghost use Rattle.room.specs.Written.{Wrote};
ghost use Rattle.room.specs.Numbered.{spans_at};
ghost use Rattle.fields.specs.Places.{field_count};
ghost use Rattle.listing.specs.Numbered.{lines_of, mp_lines};

use crate::lines::{field_line, number_line, text_line};
use fields::places::{A_LANR, MP_U, O_AI, P_G};
use plan::{Span, head_numbers};
use room::wide;

// Writes the lines of `count` fields of the table from `first` on, under a path, and returns the place behind them. Their values are what as many spans
// show in the text, the first of which stands at place `from` of the numbers; an absent value has no line.
pub fn fields(
    out: &mut [u8],
    at: usize,
    path: &[u8],
    first: usize,
    count: usize,
    text: &[u8],
    numbers: &[u32],
    from: usize,
) -> usize
    requires { (first + count ≤ field_count)
        × (from + 2 * count ≤ length numbers.now)
        × (every (within (length text.now)) (spans_at count from numbers.now) ≡ true)
        × (at + length (print (lines_of path.now first count text.now from numbers.now)) ≤ length out.old) }
    ensures { Wrote out.old out.new at result (print (lines_of path.now first count text.now from numbers.now)) }
{
    let mut a = at;
    for i in 0..count {
        let k = from + 2 * i;
        let start = wide(numbers[k]);
        let len = wide(numbers[k + 1]);
        a = field_line(out, a, path, first + i, text, start, len);
    }
    a
}

// Writes the lines of MP: the edition, the patch unless it is 0, U and l.
fn mp_lines(out: &mut [u8], at: usize, patch: u32, text: &[u8], numbers: &[u32]) -> usize
    requires { (6 ≤ length numbers.now)
        × (every (within (length text.now)) (spans_at 2 2 numbers.now) ≡ true)
        × (at + length (print (mp_lines patch text.now numbers.now)) ≤ length out.old) }
    ensures { Wrote out.old out.new at result (print (mp_lines patch text.now numbers.now)) }
{
    let a = text_line(out, at, b"MP.v", b"027");
    let b = number_line(out, a, b"MP.p", patch);
    fields(out, b, b"MP.", MP_U, 2, text, numbers, 2)
}

// Writes the lines of a head with these spans, and returns the place behind them.
pub fn head_lines(out: &mut [u8], at: usize, patch: u32, head: [Span; 27], text: &[u8]) -> usize
    requires { (every (within (length text.now)) (map paper_span head) ≡ true)
        × (at + length (print (head_lines (head_with patch (shown_all text.now (map paper_span head))))) ≤ length out.old) }
    ensures { Wrote out.old out.new at result (print (head_lines (head_with patch (shown_all text.now (map paper_span head))))) }
{
    let numbers = head_numbers(head);
    let a = mp_lines(out, at, patch, text, &numbers);
    let b = fields(out, a, b"MP.P.", P_G, 8, text, &numbers, 6);
    let c = fields(out, b, b"MP.A.", A_LANR, 10, text, &numbers, 22);
    fields(out, c, b"MP.O.", O_AI, 7, text, &numbers, 42)
}
