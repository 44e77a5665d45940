// The elements of a sheet, each where it may stand, told by the innermost open one.
ghost use Rattle.std.specs.Prelude.{◌≡◌, ◌≤◌, ◌<◌, length, IfSome};
ghost use Rattle.quick.specs.Passed.{parent_of, Kid, NameAt};

use room::byte_or;

// The element whose name is that letter where `cur` is open, if there is one.
pub fn kid(cur: u8, b: u8) -> Option<u8>
    ensures { IfSome result (λ k. Kid cur b k) }
{
    match (cur, b) {
        (1, b'P') => Some(2),
        (1, b'A') => Some(3),
        (1, b'O') => Some(4),
        (1, b'S') => Some(5),
        (5, b'M') => Some(6),
        (5, b'R') => Some(8),
        (5, b'X') => Some(9),
        (6, b'W') => Some(7),
        _ => None,
    }
}

// The element around an element.
fn parent(cur: u8) -> u8
    ensures { result ≡ parent_of cur }
{
    match cur {
        0 | 1 => 0,
        2..=5 => 1,
        7 => 6,
        _ => 5,
    }
}

// The place behind the name of the open element, which begins at `at`, if no other stands there.
pub fn name_behind(page: &[u8], at: usize, cur: u8) -> Option<usize>
    requires { (at ≤ length page.now) × (cur ≡ 0 → ⊥) }
    ensures { IfSome result (λ r. NameAt page.now at cur r) }
{
    let b = byte_or(page, at);
    if cur == 1 {
        if b == b'M' && byte_or(page, at + 1) == b'P' {
            return Some(at + 2);
        }
        return None;
    }
    let k = kid(parent(cur), b)?;
    if k == cur { Some(at + 1) } else { None }
}
