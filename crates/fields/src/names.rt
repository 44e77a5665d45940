// Names from their keys, laid into lent bytes.
ghost use Rattle.std.specs.Prelude.{◌≡◌, ◌++◌, ◌+◌, ◌≤◌, length, take, drop};
ghost use Rattle.fields.specs.Places.{name_of};

// Lays the name of a key into the lent bytes from a place on, and tells the place behind it. All other bytes stay.
pub fn lay_name(key: u64, out: &mut [u8], at: usize) -> usize
    requires { at + length (name_of key) ≤ length out.old }
    ensures { (result ≡ at + length (name_of key))
        × (out.new ≡ take at out.old ++ (name_of key ++ drop (at + length (name_of key)) out.old)) }
{
    let mut k = key;
    let mut p = at;
    while k >= 256 {
        out[p] = (k % 256) as u8;
        k /= 256;
        p += 1;
    }
    p
}
