// Heads: whether the spans of a head, as numbers, are those of a sound head.
ghost use Rattle.std.specs.Prelude.{◌≡◌, ◌≤◌, length};
ghost use Rattle.fields.specs.Columns.{limit_column};
ghost use Rattle.sound.specs.Judged.{fine_head};

use crate::elements::{fine_element, fine_fields};
use fields::places::{A, FIELDS, MP_U, O, P};

// Whether l is present, and U, l, P, A and O are fine.
#[tactic(auto, unfolding(crate::specs::Judged::fine_head, fields::specs::Places::kind_at, fields::specs::Places::count_of, paper::specs::Fields::fields_of))]
pub fn fine_head(numbers: &[u32], text: &[u8], limits: &[u64; FIELDS]) -> bool
    requires { (56 ≤ length numbers.now) × (limits.now ≡ limit_column) }
    ensures { result ≡ fine_head text.now numbers.now }
{
    numbers[5] != 0
        && fine_fields(numbers, 0, MP_U, 2, text, limits)
        && fine_element(numbers, 2, P, text, limits)
        && fine_element(numbers, 10, A, text, limits)
        && fine_element(numbers, 20, O, text, limits)
}
