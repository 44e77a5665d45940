// Numbers in digits: what digits show, and a number spelled without leading zeros.
ghost use Rattle.std.specs.Prelude.{◌≡◌, ◌++◌, ◌+◌, ◌-◌, ◌≤◌, length, take, drop};
ghost use Rattle.paper.specs.Lists.{number};
ghost use Rattle.paper.specs.Writing.{decimal, digits_of};

// What a digit shows; a byte below the digits shows 0.
pub fn digit(b: u8) -> u32
    ensures { (result ≡ b - 48) × (result ≤ 207) }
{
    u32::from(b.saturating_sub(b'0'))
}

// The number that the digits from one place up to another show, at most eight of them, and fewer where the value ends before.
#[tactic(auto, using(crate::proofs::NumberLaws::room_at, crate::proofs::NumberLaws::bound_at, crate::proofs::NumberLaws::number_on, crate::proofs::NumberLaws::number_over, crate::proofs::NumberLaws::number_done))]
pub fn shown(v: &[u8], from: usize, to: usize) -> u32
    requires { to ≤ from + 8 }
    ensures { result ≡ number 0 (take (to - from) (drop from v.now)) }
{
    let mut a = 0;
    for i in from..to.min(v.len()) {
        a = a * 10 + digit(v[i]);
    }
    a
}

// How many digits a number has, without leading zeros: none for 0, which is absent, and at most nine.
#[tactic(auto, using(crate::proofs::NumberLaws::decimal_up, crate::proofs::NumberLaws::width_now, crate::proofs::NumberLaws::width_on))]
pub fn width(n: u32) -> usize
    ensures { result ≡ length (decimal n) }
{
    if n == 0 {
        return 0;
    }
    let mut m = n;
    for w in 1..9 {
        if m < 10 {
            return w;
        }
        m /= 10;
    }
    9
}

// Spells a number without leading zeros into the lent bytes from a place on, and tells the place behind it. All other bytes stay.
#[tactic(auto, using(crate::proofs::NumberLaws::lay_on, crate::proofs::NumberLaws::lay_front, crate::proofs::NumberLaws::lay_done))]
pub fn spell(n: u32, out: &mut [u8], at: usize) -> usize
    requires { at + length (decimal n) ≤ length out.old }
    ensures { (result ≡ at + length (decimal n))
        × (out.new ≡ take at out.old ++ (decimal n ++ drop (at + length (decimal n)) out.old)) }
{
    let w = width(n);
    let mut m = n;
    for k in (0..w).rev() {
        out[at + k] = b'0' + (m % 10) as u8;
        m /= 10;
    }
    at + w
}
