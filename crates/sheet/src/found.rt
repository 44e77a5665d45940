// The attributes of one start tag, by the fields of its element.
ghost use Rattle.std.specs.Prelude.{◌≡◌, true, false, ◌*◌, ◌≤◌, ◌<◌, length, MatchOption};
ghost use Rattle.paper.specs.Judging.{names};
ghost use Rattle.paper.specs.Sizes.{page_bytes};
ghost use Rattle.markup.specs.Walk.{inside_at};
ghost use Rattle.fields.specs.Places.{kind_at, count_of, kind_count};
ghost use Rattle.fields.specs.Columns.{key_column};
ghost use Rattle.sheet.specs.Fold.{strange};
ghost use Rattle.sheet.specs.Found.{Tells};

use fields::lookup::{count_of, field_in};
use fields::places::FIELDS;
use markup::walk::{Piece, next_attr};
use room::clear;

// Reads the attributes of a start tag of an element of that kind from `at` on, up to the tag's end, and tells whether the tag closes itself: none where an
// attribute is unknown or stands twice. The raw values, the bytes between the quotes, are told in `raws`, two numbers to a field in the table's order: where it starts in
// the page and where it ends. No value starts at 0: there are 0 and 0 where the attribute is not there.
pub fn find(
    page: &[u8],
    at: usize,
    kind: u8,
    keys: &[u64; FIELDS],
    raws: &mut [u16],
) -> Option<bool>
    requires { (at ≤ length page.now) × (length page.now ≤ page_bytes) × (kind < kind_count) × (keys.now ≡ key_column) × (2 * count_of (kind_at kind) ≤ length raws.old) }
    ensures { MatchOption result (strange (kind_at kind) (names (inside_at page.now at).attrs) ≡ true)
        (λ shut. (strange (kind_at kind) (names (inside_at page.now at).attrs) ≡ false) × (shut ≡ (inside_at page.now at).shut)
        × Tells page.now (kind_at kind) raws.new (inside_at page.now at).attrs) }
{
    let count = count_of(kind);
    clear(raws, 0, 2 * count);
    let mut i = at;
    loop {
        match next_attr(page, i) {
            Piece::Stop { shut } => return Some(shut),
            Piece::Attribute {
                name_at,
                name_end,
                raw_at,
                raw_end,
            } => {
                let j = field_in(keys, kind, &page[name_at..name_end]);
                if j >= count {
                    return None;
                }
                let s = 2 * j;
                if raws[s] != 0 {
                    return None;
                }
                raws[s] = raw_at as u16;
                raws[s + 1] = raw_end as u16;
                i = raw_end + 1;
            }
        }
    }
}
