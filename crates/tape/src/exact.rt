// The exact maker: it lays every page that is judged to a sheet onto a tape, over the plain walk, and every value that is present into the side room.
ghost use Rattle.std.specs.Prelude.{◌≡◌, ◌+◌, ◌*◌, ◌≤◌, ◌<◌, length};
ghost use Rattle.paper.specs.Lists.{concat};
ghost use Rattle.paper.specs.Sizes.{page_bytes};
ghost use Rattle.fields.specs.Places.{kind_at, count_of, kind_count};
ghost use Rattle.fields.specs.Columns.{key_column};
ghost use Rattle.sheet.specs.Found.{Lie, told};
ghost use Rattle.tape.specs.Tape.{elem, header, aside, Makes};
ghost use Rattle.tape.specs.Rooms.{tape_room, side_room};
ghost use Rattle.tape.specs.Making.{IsSheet, LaysElem};

use crate::names::kind_named;
use crate::values::lay_slots;
use fields::lookup::count_of;
use fields::places::FIELDS;
use fields::table::RAWS;
use markup::walk::{Mark, next_tag};
use sheet::found::find;

// Where the next page begins on the tape, and how many bytes of the side room are then in use.
#[derive(Clone, Copy, PartialEq, Eq)]
pub struct Made {
    pub end: usize,
    pub used: usize,
}

// Lays an element whose `<` stands at `place` onto the tape from `first` on: its kind, its place, where the next one begins, and its values.
fn lay_elem(
    page: &[u8],
    kind: u8,
    place: usize,
    raws: &[u16],
    tape: &mut [u16],
    first: usize,
    side: &mut [u8],
    used: usize,
) -> Made
    requires { (length page.now ≤ page_bytes) × (kind < kind_count) × (place ≤ length page.now)
        × (2 * count_of (kind_at kind) ≤ length raws.now) × Lie page.now (count_of (kind_at kind)) raws.now
        × (first + header + 2 * count_of (kind_at kind) ≤ length tape.old) × (length tape.old < 65536)
        × (used + length (concat (told page.now (kind_at kind) raws.now)) ≤ length side.old) × (length side.old < aside) }
    ensures { LaysElem page.now (elem (kind_at kind) place (told page.now (kind_at kind) raws.now))
        tape.old tape.new first result.end side.old side.new used result.used }
{
    let next = first + 3 + 2 * count_of(kind);
    tape[first] = kind as u16;
    tape[first + 1] = place as u16;
    tape[first + 2] = next as u16;
    let used = lay_slots(page, kind, raws, tape, first + 3, side, used);
    Made { end: next, used }
}

// Lays a page that is judged to a sheet onto the tape from `first` on, its values into the side room behind the `used` bytes. `keys` is
// `fields::lookup::keys()`.
pub fn lay_page(
    page: &[u8],
    keys: &[u64; FIELDS],
    tape: &mut [u16],
    first: usize,
    side: &mut [u8],
    used: usize,
) -> Made
    requires { IsSheet page.now × (keys.now ≡ key_column) × (first + tape_room ≤ length tape.old) × (length tape.old < 65536)
        × (used + side_room ≤ length side.old) × (length side.old < aside) }
    ensures { Makes page.now tape.old tape.new first result.end side.old side.new used result.used
        × (result.end ≤ first + tape_room) × (result.used ≤ used + side_room) }
{
    let mut raws = [0u16; RAWS];
    let mut made = Made { end: first, used };
    let mut at = 0;
    loop {
        match next_tag(page, at) {
            None => return made,
            Some(Mark::End { at: p }) => at = p + 1,
            Some(Mark::Start { at: p, name_end }) => {
                let kind = kind_named(page, p + 1, name_end);
                find(page, name_end, kind, keys, &mut raws);
                made = lay_elem(page, kind, p, &raws, tape, made.end, side, made.used);
                at = p + 1;
            }
        }
    }
}
