// Sets of bytes, runs of bytes of one set, and patterns. A set is named by one byte.
ghost use Rattle.std.specs.Prelude.{◌≡◌, ◌&&◌, not, ◌+◌, ◌≤◌, leb, length, drop};
ghost use Rattle.paper.specs.Lists.{every, until};
ghost use Rattle.paper.specs.Bytes.{is_digit, is_capital, is_small, is_letter, is_decoded};
ghost use Rattle.paper.specs.Rules.{shape, is_byte, is_hex_capital};
ghost use Rattle.fields.specs.Sets.{in_set, sets};

// A digit 0 to 9.
pub const DIGIT: u8 = b'#';
// A capital letter A to Z.
pub const CAPITAL: u8 = b'A';
// A small letter a to z.
pub const SMALL: u8 = b'a';
// A digit or a capital A to F.
pub const HEX: u8 = b'F';
// A digit 1 to 9.
pub const NUMBER: u8 = b'N';
// One of M W D X.
pub const SEX: u8 = b'S';
// A capital letter or a digit.
pub const CODE: u8 = b'C';
// A letter of either case or a digit.
pub const SIGN: u8 = b'L';

// Whether a byte may stand in a value once it is decoded: 32 to 126 and 160 to 255.
pub fn is_decoded(b: u8) -> bool
    ensures { result ≡ is_decoded b }
{
    matches!(b, 32..=126 | 160..=255)
}

// Whether a byte stands in a set.
#[tactic(auto, unfolding(crate::specs::Sets::in_set))]
pub fn in_set(k: u8, b: u8) -> bool
    ensures { result ≡ in_set k b }
{
    match k {
        DIGIT => matches!(b, b'0'..=b'9'),
        CAPITAL => matches!(b, b'A'..=b'Z'),
        SMALL => matches!(b, b'a'..=b'z'),
        HEX => matches!(b, b'0'..=b'9' | b'A'..=b'F'),
        NUMBER => matches!(b, b'1'..=b'9'),
        SEX => matches!(b, b'M' | b'W' | b'D' | b'X'),
        CODE => matches!(b, b'A'..=b'Z' | b'0'..=b'9'),
        SIGN => matches!(b, b'a'..=b'z' | b'A'..=b'Z' | b'0'..=b'9'),
        _ => b == k,
    }
}

// Where a run of bytes of one set ends that starts at `from`: at the first byte that is not in the set, or at the end.
#[tactic(auto, using(room::proofs::Runs::run_ends, room::proofs::Runs::run_on, room::proofs::Runs::run_over))]
pub fn run(v: &[u8], from: usize, k: u8) -> usize
    ensures { result ≡ from + until (in_set k) (drop from v.now) }
{
    for i in from..v.len() {
        if !in_set(k, v[i]) {
            return i;
        }
    }
    from.max(v.len())
}

// Whether all bytes from a place on stand in a set.
pub fn all_in(v: &[u8], from: usize, k: u8) -> bool
    ensures { result ≡ every (in_set k) (drop from v.now) }
{
    run(v, from, k) >= v.len()
}

// Whether some byte from a place on is not the digit 0: then digits show a number above zero.
pub fn above_zero(v: &[u8], from: usize) -> bool
    ensures { result ≡ not (every (is_byte 48) (drop from v.now)) }
{
    run(v, from, b'0') < v.len()
}

// Whether a value has just the bytes of a pattern, one after another.
#[tactic(auto, using(crate::proofs::SetLaws::fit_on, crate::proofs::SetLaws::fit_off, crate::proofs::SetLaws::fit_done, crate::proofs::SetLaws::fit_long))]
pub fn fits(v: &[u8], pattern: &[u8]) -> bool
    ensures { result ≡ shape (sets pattern.now) v.now }
{
    if v.len() != pattern.len() {
        return false;
    }
    for (i, b) in v.iter().enumerate() {
        if !in_set(pattern[i], *b) {
            return false;
        }
    }
    true
}
