// The pages of a call onto one tape, one behind the other: in one pass where each is surely a sheet, else once they are judged.
ghost use Rattle.std.specs.Prelude.{◌≡◌, true, ◌+◌, ◌*◌, ◌≤◌, ◌<◌, length, IfSome};
ghost use Rattle.paper.specs.Calls.{inside, pages_at};
ghost use Rattle.tape.specs.Tape.{aside, Makes};
ghost use Rattle.tape.specs.Rooms.{tape_room, side_room};
ghost use Rattle.quick.specs.Letters.{Names};
ghost use Rattle.quoted.specs.Valued.{Tables};
ghost use Rattle.page.specs.Walking.{blanks, Blank};
ghost use Rattle.reader.specs.Tapes.{Taken, AllSheets};

use crate::joining::page_at;
use fields::lookup::{keys, limits};
use fields::places::FIELDS;
use plan::Plan;
use quick::names::letter_table;
use quick::pages::take_page;
use quoted::odd_table;
use tape::exact::{Made, lay_page};

// How many numbers a tape begins with that are 0: the values of an element that is not there.
pub const BLANKS: usize = 20;

// How many numbers one page takes on a tape at most.
const PAGE: usize = 4400;

// The numbers of a tape for one page, for two and for nine.
pub const ONE: usize = BLANKS + PAGE;

pub const TWO: usize = BLANKS + 2 * PAGE;

pub const NINE: usize = BLANKS + 9 * PAGE;

// Takes one page onto the tape, from `first` on, if it is surely a sheet.
fn take(
    page: &[u8],
    keys: &[u64; FIELDS],
    letters: &[u8; 1280],
    odd: &[u8; 256],
    limits: &[u64; FIELDS],
    tape: &mut [u16],
    first: usize,
    side: &mut [u8],
    used: usize,
) -> Option<Made>
    requires { Names keys.now letters.now × Tables odd.now limits.now
        × (first ≤ length tape.old) × (length tape.old < 65536) × (used ≤ length side.old) × (length side.old < aside) }
    ensures { IfSome result (λ made. Makes page.now tape.old tape.new first made.end side.old side.new used made.used) }
{
    if page.len() == 0 || page.len() > Plan::PAGE {
        return None;
    }
    take_page(page, keys, letters, odd, limits, tape, first, side, used)
}

// Takes the pages of a call onto the tape, if each is surely a sheet; tells where each begins.
pub fn take_all<'a>(
    buffer: &'a [u8],
    starts: &'a [usize],
    lens: &'a [usize],
    tape: &mut [u16],
    side: &mut [u8],
) -> Option<[usize; 10]>
    requires { (length starts.now ≤ 9) × (inside buffer.now starts.now lens.now ≡ true) × Blank tape.old × (length tape.old < 65536) × (length side.old < aside) }
    ensures { IfSome result (λ firsts. Taken buffer.now starts.now lens.now side.new tape.new firsts) }
{
    let keys = keys();
    let letters = letter_table();
    let odd = odd_table();
    let limits = limits();
    let mut firsts = [BLANKS; 10];
    let mut used = 0;
    for k in 0..starts.len() {
        let page = page_at(buffer, starts, lens, k);
        let made = take(
            page, &keys, &letters, &odd, &limits, tape, firsts[k], side, used,
        )?;
        firsts[k + 1] = made.end;
        used = made.used;
    }
    Some(firsts)
}

// Lays the pages of a call, each of which is known to be a sheet, onto the tape; tells where each begins.
pub fn lay_all<'a>(
    buffer: &'a [u8],
    starts: &'a [usize],
    lens: &'a [usize],
    tape: &mut [u16],
    side: &mut [u8],
) -> [usize; 10]
    requires { (length starts.now ≤ 9) × (inside buffer.now starts.now lens.now ≡ true) × AllSheets (pages_at buffer.now starts.now lens.now) × Blank tape.old
        × (blanks + length starts.now * tape_room ≤ length tape.old) × (length tape.old < 65536) × (length starts.now * side_room ≤ length side.old) × (length side.old < aside) }
    ensures { Taken buffer.now starts.now lens.now side.new tape.new result }
{
    let keys = keys();
    let mut firsts = [BLANKS; 10];
    let mut used = 0;
    for k in 0..starts.len() {
        let page = page_at(buffer, starts, lens, k);
        let made = lay_page(page, &keys, tape, firsts[k], side, used);
        firsts[k + 1] = made.end;
        used = made.used;
    }
    firsts
}
