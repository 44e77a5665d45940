// One value of an attribute, judged by its field: where it lies, in the page or decoded in the side room.
ghost use Rattle.std.specs.Prelude.{◌≡◌, true, ◌+◌, ◌≤◌, ◌<◌, length, IfSome};
ghost use Rattle.std.proofs.Math.Seq.{slice};
ghost use Rattle.paper.specs.Lists.{is_empty, every, count};
ghost use Rattle.paper.specs.Bytes.{is_decoded};
ghost use Rattle.paper.specs.Grammar.{Quote};
ghost use Rattle.paper.specs.Rules.{settle, keeps};
ghost use Rattle.paper.specs.Sizes.{page_bytes};
ghost use Rattle.fields.specs.Places.{field_at, field_count};
ghost use Rattle.fields.specs.Columns.{limit_column};
ghost use Rattle.tape.specs.Tape.{aside};
ghost use Rattle.quoted.specs.Valued.{Tables, Valued, Grown};

use crate::coded::coded_value;
use crate::plain_value;
use fields::dose::is_zero;
use fields::lookup::{rule_in, tildes_in};
use fields::places::FIELDS;
use fields::rules::keeps_form;

// A start on the tape from here on says that the value lies in the side room.
pub const ASIDE: usize = 32768;

// A value judged: its closing quote, its two numbers for the tape, and how many bytes of the side room are then in use.
#[derive(Clone, Copy)]
pub struct Judged {
    pub quote: usize,
    pub start: usize,
    pub end: usize,
    pub used: usize,
}

// Whether the value from `from` to `to` counts as absent in the field at a place of the table: it is empty, or a dose "0".
fn is_absent(room: &[u8], from: usize, to: usize, id: usize, limits: &[u64; FIELDS]) -> bool
    requires { (from ≤ to) × (to ≤ length room.now) × (id < field_count) × (limits.now ≡ limit_column) }
    ensures { result ≡ is_empty (settle (field_at id) (slice from to room.now)) }
{
    from == to || is_zero(rule_in(limits, id), &room[from..to])
}

// Whether the value from `at` to `end` keeps the field at a place of the table, if its bytes may stand in a value, and of line breaks it has no more than it may.
fn keeps_text(room: &[u8], at: usize, end: usize, id: usize, limits: &[u64; FIELDS]) -> bool
    requires { (at ≤ end) × (end ≤ length room.now) × (id < field_count) × (limits.now ≡ limit_column)
        × (every is_decoded (slice at end room.now) ≡ true) × (count 126 (slice at end room.now) ≤ (field_at id).tildes) }
    ensures { result ≡ true → keeps (field_at id) (slice at end room.now) ≡ true }
{
    keeps_form(limits, id, &room[at..end])
}

// A value with odd bytes, if it is surely fine: it is decoded into the side room behind what is in use.
fn odd_value(
    page: &[u8],
    at: usize,
    q: u8,
    id: usize,
    odd: &[u8; 256],
    limits: &[u64; FIELDS],
    side: &mut [u8],
    used: usize,
) -> Option<Judged>
    requires { (0 < at) × (at ≤ length page.now) × (length page.now ≤ page_bytes) × Quote q × (id < field_count) × Tables odd.now limits.now
        × (used ≤ length side.old) × (length side.old < aside) }
    ensures { IfSome result (λ v. Valued page.now side.new at q id v.quote v.start v.end v.used
        × Grown side.old side.new used v.used × (v.used + at ≤ used + v.quote)) }
{
    let coded = coded_value(page, at, q, odd, side, used)?;
    if is_absent(side, used, coded.end, id, limits) {
        return Some(Judged {
            quote: coded.quote,
            start: at,
            end: at,
            used,
        });
    }
    if coded.breaks <= tildes_in(limits, id) && keeps_text(side, used, coded.end, id, limits) {
        return Some(Judged {
            quote: coded.quote,
            start: used + ASIDE,
            end: coded.end,
            used: coded.end,
        });
    }
    None
}

// The value in quotes `q` that begins at `at`, judged by the field at a place of the table, if it is surely fine.
pub fn take_value(
    page: &[u8],
    at: usize,
    q: u8,
    id: usize,
    odd: &[u8; 256],
    limits: &[u64; FIELDS],
    side: &mut [u8],
    used: usize,
) -> Option<Judged>
    requires { (0 < at) × (at ≤ length page.now) × (length page.now ≤ page_bytes) × Quote q × (id < field_count) × Tables odd.now limits.now
        × (used ≤ length side.old) × (length side.old < aside) }
    ensures { IfSome result (λ v. Valued page.now side.new at q id v.quote v.start v.end v.used
        × Grown side.old side.new used v.used × (v.used + at ≤ used + v.quote)) }
{
    let Some(plain) = plain_value(page, at, q, odd) else {
        return odd_value(page, at, q, id, odd, limits, side, used);
    };
    if is_absent(page, at, plain.end, id, limits) {
        return Some(Judged {
            quote: plain.quote,
            start: at,
            end: at,
            used,
        });
    }
    if keeps_text(page, at, plain.end, id, limits) {
        return Some(Judged {
            quote: plain.quote,
            start: at,
            end: plain.end,
            used,
        });
    }
    None
}
