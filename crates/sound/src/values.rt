// Values: whether a value is good for its field, and whether a span of the text shows such a one.
ghost use Rattle.std.specs.Prelude.{◌≡◌, not, ◌&&◌, ◌≤◌, ◌<◌, length};
ghost use Rattle.std.proofs.Math.Seq.{slice};
ghost use Rattle.paper.specs.Lists.{same};
ghost use Rattle.paper.specs.Values.{cut};
ghost use Rattle.paper.specs.Rules.{is_zero};
ghost use Rattle.paper.specs.Writing.{decimal, good_slot};
ghost use Rattle.fields.specs.Places.{rule_at, field_at, field_count};
ghost use Rattle.fields.specs.Columns.{limit_column};
ghost use Rattle.sound.specs.Judged.{good_value, fine_span};

use fields::dose::is_zero;
use fields::lookup::rule_in;
use fields::numbers::spell;
use fields::places::{FIELDS, M_P};
use fields::rules::value_flaw;
use room::wide;

// Whether a value ends with a space, which reading would cut.
#[tactic(auto, using(crate::proofs::ValueLaws::last_blank))]
fn ends_blank(v: &[u8]) -> bool
    requires { 0 < length v.now }
    ensures { result ≡ not (same (cut v.now) v.now) }
{
    v[v.len() - 1] == b' '
}

// Whether reading gives a present value of a rule as it is: it ends with no space, and is no dose of "0".
fn is_as_read(v: &[u8], rule: u8) -> bool
    requires { 0 < length v.now }
    ensures { result ≡ (same (cut v.now) v.now && not (is_zero (rule_at rule) v.now)) }
{
    !ends_blank(v) && !is_zero(rule, v)
}

// Whether the value from `from` up to `to` is good for the field at a place of the table, and is there if the field must be present.
fn good_value(text: &[u8], from: usize, to: usize, id: usize, limits: &[u64; FIELDS]) -> bool
    requires { (from ≤ to) × (to ≤ length text.now) × (id < field_count) × (limits.now ≡ limit_column) }
    ensures { result ≡ good_value (field_at id) (slice from to text.now) }
{
    value_flaw(limits, id, text, from, to).is_none()
        && (from == to || is_as_read(&text[from..to], rule_in(limits, id)))
}

// Whether a span lies within the text and shows a good value of the field at a place of the table; an absent one, whether the field may be absent.
pub fn fine_value(text: &[u8], at: u32, len: u32, id: usize, limits: &[u64; FIELDS]) -> bool
    requires { (id < field_count) × (limits.now ≡ limit_column) }
    ensures { result ≡ fine_span text.now (field_at id) (record { at = at; len = len }) }
{
    if len == 0 {
        return good_value(text, 0, 0, id, limits);
    }
    let from = wide(at);
    let to = from + wide(len);
    to <= text.len() && good_value(text, from, to, id, limits)
}

// Whether a package number is none, or one whose digits keep their field.
pub fn good_package(n: u32, limits: &[u64; FIELDS]) -> bool
    requires { limits.now ≡ limit_column }
    ensures { result ≡ good_slot (field_at 33) (decimal n) }
{
    let mut digits = [0u8; 9];
    let w = spell(n, &mut digits, 0);
    good_value(&digits, 0, w, M_P, limits)
}
