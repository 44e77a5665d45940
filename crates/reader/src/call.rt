// Whether a call is well made: refusal 1 of document 01, before any page is looked at.
ghost use Rattle.std.specs.Prelude.{◌≡◌, ◌&&◌, leb, length};
ghost use Rattle.paper.specs.Calls.{inside, roomy};
ghost use Rattle.plan.specs.Numbers.{rows_lent};

use plan::rooms::{rows_fit, text_fits};
use room::lies_in;

// Whether there are as many starts as lengths, and every page lies in the buffer.
fn all_inside(buffer: &[u8], starts: &[usize], lens: &[usize]) -> bool
    ensures { result ≡ inside buffer.now starts.now lens.now }
{
    if lens.len() != starts.len() {
        return false;
    }
    for i in 0..starts.len() {
        if !lies_in(buffer.len(), starts[i], lens[i]) {
            return false;
        }
    }
    true
}

// Whether a call hands in 1 to 9 pages, as many starts as lengths, and every page lies in the buffer.
pub fn call_fits(buffer: &[u8], starts: &[usize], lens: &[usize]) -> bool
    ensures { result ≡ (leb 1 (length starts.now) && (leb (length starts.now) 9 && inside buffer.now starts.now lens.now)) }
{
    let n = starts.len();
    1 <= n && n <= 9 && all_inside(buffer, starts, lens)
}

// Whether so many numbers for rows and so many bytes of text are room enough for reading.
pub fn room_fits(row_numbers: usize, text: usize) -> bool
    ensures { result ≡ roomy (rows_lent row_numbers) text }
{
    rows_fit(row_numbers) && text_fits(text)
}
