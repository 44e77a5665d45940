// Room: bytes and numbers laid into a lent room, bytes looked at and compared, whatever they are of.
#![tactic(auto)]

ghost use Rattle.std.specs.Prelude.{◌≡◌, ℕ, ◌+◌, ◌≤◌, ◌<◌, leb, length, get_or, take};
ghost use Rattle.std.proofs.Math.Seq.{slice};
ghost use Rattle.paper.specs.Lists.{same};
ghost use Rattle.room.specs.Laid.{laid};

// A number of 32 bits as one of the machine's width.
pub fn wide(x: u32) -> usize
    ensures { result ≡ x }
{
    x as usize
}

// Whether a part of that start and length lies in so many bytes. No start and no length is too large to ask for.
pub fn lies_in(size: usize, start: usize, len: usize) -> bool
    ensures { result ≡ leb (start + len) size }
{
    start <= size && len <= size - start
}

// The byte at `i`, or 0 behind the last one.
pub fn byte_or(s: &[u8], i: usize) -> u8
    ensures { result ≡ get_or s.now i 0 }
{
    s.get(i).copied().unwrap_or(0)
}

// Whether the bytes from `from` to `to` are those of the word.
pub fn spells(s: &[u8], from: usize, to: usize, word: &[u8]) -> bool
    requires { (from ≤ to) × (to ≤ length s.now) }
    ensures { result ≡ same (slice from to s.now) word.now }
{
    if to - from != word.len() {
        return false;
    }
    for i in 0..word.len() {
        if s[from + i] != word[i] {
            return false;
        }
    }
    true
}

// Writes a word into `out` from `n` on, bytes or numbers, and returns the place behind it. Nothing else in `out` changes. It is laid
// entry by entry: most values of a plan are short or absent, and the library's copy is a call, to a function that the archive for C would need besides.
pub fn lay<T: Copy>(out: &mut [T], n: usize, word: &[T]) -> usize
    requires { n + length word.now ≤ length out.old }
    ensures { (result ≡ n + length word.now) × (out.new ≡ laid out.old n word.now) }
{
    for i in 0..word.len() {
        out[n + i] = word[i];
    }
    n + word.len()
}

// Puts 0 at every place from one up to another. The numbers before stay.
pub fn clear(numbers: &mut [u16], from: usize, to: usize)
    requires { (from ≤ to) × (to ≤ length numbers.old) }
    ensures { (take from numbers.new ≡ take from numbers.old) × ((j : ℕ) → from ≤ j → j < to → get_or numbers.new j 0 ≡ 0) }
{
    numbers[from..to].fill(0);
}
