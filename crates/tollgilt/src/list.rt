// List: the pages of a call to the listing of their plan, or to the one refusal that document 01 has for them.
ghost use Rattle.tollgilt.specs.Promise.{Promised, answered};

use crate::refused::Refused;
use listing::rows::list_plan;
use plan::Plan;
use plan::rooms::listing_fits;
use reader::reading::read;

// Lists the pages of a call into `out`, and returns the length of the listing: the page i lies in the buffer from starts[i] on, lens[i] bytes long. A refusal changes nothing in `out`; less than
// 25,200 bytes of room is refusal 1. Behind the listing `out` stays as it was. Any call may be made: nothing is required of it.
pub fn list_pages<'a>(
    buffer: &'a [u8],
    starts: &'a [usize],
    lens: &'a [usize],
    out: &mut [u8],
) -> Result<u32, Refused>
    ensures { Promised (answered out.old buffer.now starts.now lens.now) out.old result out.new }
{
    if !listing_fits(out.len()) {
        return Err(Refused::one());
    }
    let mut rows = [0u32; Plan::NUMBERS];
    let mut text = [0u8; Plan::TEXT];
    let plan = read(buffer, starts, lens, &mut rows, &mut text)?;
    Ok(list_plan(plan, &rows, &text, out) as u32)
}
