// Byte classes: document 01's one table of 256 entries, and the first byte of a slice that is not allowed.
#![tactic(auto)]

mod classes;

ghost use Rattle.std.specs.Prelude.{◌≡◌};
ghost use Rattle.paper.specs.Bytes.{class_of, class_number, first_refused};

use classes::CLASSES;

// The class of a byte as a number: 0 refused, 1 space, 2 digit, 3 capital letter, 4 small letter, 5 other mark.
pub fn class_of(b: u8) -> u8
    ensures { result ≡ class_number (class_of b) }
{
    CLASSES[b as usize]
}

// How many bytes stand before the first one that is not allowed; all of them if none is refused.
pub fn first_refused(s: &[u8]) -> usize
    ensures { result ≡ first_refused s.now }
{
    let classes = CLASSES;
    for (i, b) in s.iter().enumerate() {
        if classes[*b as usize] == 0 {
            return i;
        }
    }
    s.len()
}
