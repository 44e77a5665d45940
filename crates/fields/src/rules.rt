// Whether a value keeps its field's rule: its bytes, its length, its line breaks, its form.
ghost use Rattle.std.specs.Prelude.{◌≡◌, true, false, ◌&&◌, ℕ, ◌≤◌, ◌<◌, leb, length};
ghost use Rattle.std.proofs.Math.Seq.{slice};
ghost use Rattle.paper.specs.Lists.{every, count};
ghost use Rattle.paper.specs.Bytes.{is_decoded};
ghost use Rattle.paper.specs.Rules.{obeys, keeps, lines_ok};
ghost use Rattle.paper.specs.Causes.{flaw_number};
ghost use Rattle.fields.specs.Places.{rule_at, formed, field_flaw, field_at, field_count};
ghost use Rattle.fields.specs.Columns.{limit_column};

use crate::dates::{is_birthday, is_stamp};
use crate::dose::is_dose;
use crate::lookup::{least_in, limits, most_in, must_in, rule_in, tildes_in};
use crate::package_number::is_package;
use crate::places::FIELDS;
use crate::sets::{CODE, DIGIT, HEX, NUMBER, SEX, SIGN, all_in, fits, is_decoded};
use paper::Cause;

// Whether a byte may not stand in a value or is a line break "~".
fn stops(b: u8) -> bool
    ensures { result ≡ false → (is_decoded b ≡ true) × (b ≡ 126 → ⊥) }
{
    matches!(b, 0..32 | 126..160)
}

// Whether all bytes may stand in a value and none is a line break. No byte ends the look early, so that many can be taken at once.
#[tactic(auto, using(crate::proofs::RuleLaws::text_mark, crate::proofs::RuleLaws::text_done))]
fn is_line(v: &[u8]) -> bool
    ensures { result ≡ true → (tildes : ℕ) → (every is_decoded v.now && leb (count 126 v.now) tildes) ≡ true }
{
    let mut stopped = false;
    for b in v {
        stopped |= stops(*b);
    }
    !stopped
}

// Whether all bytes may stand in a value, and no more than so many of them are line breaks "~", byte by byte.
#[tactic(auto, using(crate::proofs::RuleLaws::text_break, crate::proofs::RuleLaws::text_mark, crate::proofs::RuleLaws::text_bad, crate::proofs::RuleLaws::text_done))]
fn is_text_each(v: &[u8], tildes: usize) -> bool
    ensures { result ≡ (every is_decoded v.now && leb (count 126 v.now) tildes) }
{
    let mut n = 0;
    for b in v {
        if *b == b'~' {
            n += 1;
        } else if !is_decoded(*b) {
            return false;
        }
    }
    n <= tildes
}

// Whether all bytes may stand in a value, and no more than so many of them are line breaks; most values have none.
fn is_text(v: &[u8], tildes: usize) -> bool
    ensures { result ≡ (every is_decoded v.now && leb (count 126 v.now) tildes) }
{
    is_line(v) || is_text_each(v, tildes)
}

// Whether the lines of a value, parted by "~", have at most 25 bytes each.
#[tactic(auto, using(crate::proofs::RuleLaws::line_mark, crate::proofs::RuleLaws::line_break, crate::proofs::RuleLaws::line_long, crate::proofs::RuleLaws::line_done))]
fn has_lines(v: &[u8]) -> bool
    ensures { result ≡ lines_ok 0 v.now }
{
    let mut n: usize = 0;
    for b in v {
        if *b != b'~' {
            n += 1;
        } else if n <= 25 {
            n = 0;
        } else {
            return false;
        }
    }
    n <= 25
}

// Whether a value keeps a rule: 0 free text, 1 the edition, 2 digits, 3 digits or A to F, 4 a language, 5 a page number, 6 a birthday,
// 7 a sex, 8 an insured person's number, 9 a time stamp, 10 a "1", 11 lines, 12 a package number, 13 a code, 14 a dose, 15 a sign.
#[tactic(auto, unfolding(crate::specs::Sets::in_set))]
pub fn keeps_rule(rule: u8, v: &[u8]) -> bool
    ensures { result ≡ obeys (rule_at rule) v.now }
{
    match rule {
        1 => fits(v, b"027"),
        2 => all_in(v, 0, DIGIT),
        3 => all_in(v, 0, HEX),
        4 => fits(v, b"aa-AA"),
        5 => all_in(v, 0, NUMBER),
        6 => is_birthday(v),
        7 => all_in(v, 0, SEX),
        8 => fits(v, b"A#########"),
        9 => is_stamp(v),
        10 => all_in(v, 0, b'1'),
        11 => has_lines(v),
        12 => is_package(v),
        13 => all_in(v, 0, CODE),
        14 => is_dose(v),
        15 => all_in(v, 0, SIGN),
        _ => true,
    }
}

// Whether a value has a length and a form that its field allows; most values are free text, which has no form.
pub fn keeps_form(limits: &[u64; FIELDS], id: usize, v: &[u8]) -> bool
    requires { (limits.now ≡ limit_column) × (id < field_count) }
    ensures { result ≡ formed (field_at id) v.now }
{
    let rule = rule_in(limits, id);
    least_in(limits, id) <= v.len()
        && v.len() <= most_in(limits, id)
        && (rule == 0 || keeps_rule(rule, v))
}

// Whether a present value keeps its field, with the limits of the table handed down by a caller that copies them once.
pub fn keeps_in(limits: &[u64; FIELDS], id: usize, v: &[u8]) -> bool
    requires { (limits.now ≡ limit_column) × (id < field_count) }
    ensures { result ≡ keeps (field_at id) v.now }
{
    is_text(v, tildes_in(limits, id)) && keeps_form(limits, id, v)
}

// What is wrong with the value from `from` up to `to` of a text: it breaks its field, or it must be present and is not, or nothing is.
pub fn value_flaw(
    limits: &[u64; FIELDS],
    id: usize,
    text: &[u8],
    from: usize,
    to: usize,
) -> Option<Cause>
    requires { (limits.now ≡ limit_column) × (id < field_count) × (from ≤ to) × (to ≤ length text.now) }
    ensures { flaw_number result ≡ field_flaw (field_at id) (slice from to text.now) }
{
    if from == to {
        must_in(limits, id).then_some(Cause::Incomplete)
    } else if keeps_in(limits, id, &text[from..to]) {
        None
    } else {
        Some(Cause::Value)
    }
}

// Whether a value keeps its field, with the limits of the table itself.
pub fn keeps_field(id: usize, v: &[u8]) -> bool
    requires { id < field_count }
    ensures { result ≡ keeps (field_at id) v.now }
{
    keeps_in(&limits(), id, v)
}
