// Reading: the pages of a call to a plan, or to the one refusal that document 01 has for them.
ghost use Rattle.std.specs.Prelude.{◌≡◌, true, ◌&&◌, ◌+◌, ◌*◌, ◌≤◌, ◌<◌, leb, length};
ghost use Rattle.paper.specs.Reading.{judge_all};
ghost use Rattle.paper.specs.Calls.{inside, pages_at, roomy};
ghost use Rattle.plan.specs.Numbers.{rows_lent};
ghost use Rattle.tape.specs.Tape.{aside};
ghost use Rattle.tape.specs.Rooms.{tape_room, side_room};
ghost use Rattle.page.specs.Walking.{blanks, Blank};
ghost use Rattle.reader.specs.Tapes.{Taken};
ghost use Rattle.reader.specs.Answers.{numbers_told, told_of};
ghost use Rattle.reader.specs.Promise.{Promised, answered};

use crate::answer::Refusal;
use crate::call::{call_fits, room_fits};
use crate::joining::{fill_all, heads, page_at, total_rows};
use crate::pages::{have, lowest_missing, missing_mask, twice};
use crate::taping::{BLANKS, NINE, ONE, lay_all, take_all};
use plan::Plan;
use room::clear;
use sheet::judge::judge_page;

// What reading gives: the plan by value, or the refusal.
pub type Reading = Result<Plan, Refusal>;

// Judges each page in the order handed in, up to the first page that has a fault, whose refusal is answered.
pub fn judge_all<'a>(
    buffer: &'a [u8],
    starts: &'a [usize],
    lens: &'a [usize],
) -> Result<(), Refusal>
    requires { (length starts.now ≤ 9) × (inside buffer.now starts.now lens.now ≡ true) }
    ensures { numbers_told result ≡ told_of (judge_all 1 (pages_at buffer.now starts.now lens.now)) }
{
    let mut scratch = [0u8; Plan::PAGE];
    for i in 0..starts.len() {
        let page = page_at(buffer, starts, lens, i);
        if let Err(fault) = judge_page(page, &mut scratch) {
            return Err(Refusal::of_page(fault.cause, i as u32 + 1, fault.place as u32));
        }
    }
    Ok(())
}

// Reads the pages of a call that all lie on a tape, and so have no fault: heads (9), numbers twice (10) or missing (11), rows (12), then the plan.
fn read_tapes<'a>(
    buffer: &'a [u8],
    starts: &'a [usize],
    lens: &'a [usize],
    side: &'a [u8],
    tape: &'a [u16],
    firsts: &'a [usize; 10],
    rows: &mut [u32],
    text: &mut [u8],
) -> Reading
    requires { (roomy (rows_lent (length rows.old)) (length text.old) ≡ true)
        × ((leb 1 (length starts.now) && (leb (length starts.now) 9 && inside buffer.now starts.now lens.now)) ≡ true)
        × Taken buffer.now starts.now lens.now side.now tape.now firsts.now }
    ensures { Promised (answered rows.old text.old buffer.now starts.now lens.now)
        rows.old text.old result rows.new text.new }
{
    let compared = heads(buffer, starts, lens, side, tape, firsts);
    if let Some(other) = compared.other {
        return Err(Refusal::OtherHead(other as u32));
    }
    let nos = compared.nos;
    let z = compared.count;
    if let Some(again) = twice(nos, starts.len()) {
        return Err(Refusal::NumberTwice(again as u32));
    }
    if let Some(lowest) = lowest_missing(missing_mask(have(nos, starts.len()), z)) {
        return Err(Refusal::NumberMissing(lowest));
    }
    if total_rows(buffer, starts, lens, side, tape, firsts, nos, z) > Plan::ROWS {
        return Err(Refusal::TooManyRows);
    }
    let plan = fill_all(buffer, starts, lens, side, tape, firsts, nos, z, rows, text);
    Ok(plan)
}

// Reads a call over a tape and a side room lent for it: in one pass over each page where all are surely sheets, else each page is judged first.
fn read_on<'a>(
    buffer: &'a [u8],
    starts: &'a [usize],
    lens: &'a [usize],
    tape: &mut [u16],
    side: &mut [u8],
    rows: &mut [u32],
    text: &mut [u8],
) -> Reading
    requires { (roomy (rows_lent (length rows.old)) (length text.old) ≡ true)
        × ((leb 1 (length starts.now) && (leb (length starts.now) 9 && inside buffer.now starts.now lens.now)) ≡ true) × Blank tape.old
        × (blanks + length starts.now * tape_room ≤ length tape.old) × (length tape.old < 65536) × (length starts.now * side_room ≤ length side.old) × (length side.old < aside) }
    ensures { Promised (answered rows.old text.old buffer.now starts.now lens.now)
        rows.old text.old result rows.new text.new }
{
    if let Some(firsts) = take_all(buffer, starts, lens, tape, side) {
        return read_tapes(buffer, starts, lens, side, tape, &firsts, rows, text);
    }
    judge_all(buffer, starts, lens)?;
    clear(tape, 0, BLANKS);
    let firsts = lay_all(buffer, starts, lens, tape, side);
    read_tapes(buffer, starts, lens, side, tape, &firsts, rows, text)
}

// Reads the pages of a call: the page i lies in the buffer from starts[i] on, lens[i] bytes long. Refusals in document 01's order: the call (1), each page
// in the order handed in (2 to 8), then heads (9), numbers twice (10) or missing (11), and rows (12). Only where all pass are the rooms written:
// the rows' records into `rows`, the values into `text`. Any call may be made: nothing is required of it.
pub fn read<'a>(
    buffer: &'a [u8],
    starts: &'a [usize],
    lens: &'a [usize],
    rows: &mut [u32],
    text: &mut [u8],
) -> Reading
    ensures { Promised (answered rows.old text.old buffer.now starts.now lens.now)
        rows.old text.old result rows.new text.new }
{
    if !room_fits(rows.len(), text.len()) || !call_fits(buffer, starts, lens) {
        return Err(Refusal::NoRoom);
    }
    if starts.len() == 1 {
        let mut tape = [0u16; ONE];
        let mut side = [0u8; Plan::PAGE];
        return read_on(buffer, starts, lens, &mut tape, &mut side, rows, text);
    }
    let mut tape = [0u16; NINE];
    let mut side = [0u8; Plan::PAGES];
    read_on(buffer, starts, lens, &mut tape, &mut side, rows, text)
}
