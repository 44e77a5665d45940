// Fresh: the pages of a call to the fresh pages of their plan, or to the one refusal that document 01 has for them.
ghost use Rattle.tollgilt.specs.Fresh.{Promised, answered};

use crate::refused::Refused;
use plan::Plan;
use plan::rooms::pages_fit;
use reader::reading::read;
use writer::writing::{Pages, write};

// Writes the plan of a call's pages as fresh pages into `out`, one behind the other, and tells their number and their lengths: the page i of the call lies in the buffer from starts[i] on, lens[i] bytes
// long. A refusal changes nothing in `out`; less than 12,600 bytes of room is refusal 1, and a plan that nine pages do not take is 14. Behind the pages `out`
// stays as it was. Any call may be made: nothing is required of it.
pub fn fresh_pages<'a>(
    buffer: &'a [u8],
    starts: &'a [usize],
    lens: &'a [usize],
    out: &mut [u8],
) -> Result<Pages, Refused>
    ensures { Promised (answered out.old buffer.now starts.now lens.now) out.old result out.new }
{
    if !pages_fit(out.len()) {
        return Err(Refused::one());
    }
    let mut rows = [0u32; Plan::NUMBERS];
    let mut text = [0u8; Plan::TEXT];
    let plan = read(buffer, starts, lens, &mut rows, &mut text)?;
    Ok(write(plan, &rows, &text, out)?)
}
