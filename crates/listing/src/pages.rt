// Pages: planlist's input split at its zero bytes.
ghost use Rattle.std.specs.Prelude.{◌≡◌, ◌+◌, ◌≤◌, length, drop, take};
ghost use Rattle.paper.specs.Listing.{parted};
ghost use Rattle.room.specs.Laid.{laid};
ghost use Rattle.listing.specs.Split.{to_zero, starts_from, lengths};

// Where the page that begins at `at` ends: at the next zero byte, or at the input's end.
#[tactic(auto, using(crate::proofs::Splits::zero_here, crate::proofs::Splits::zero_on, crate::proofs::Splits::zero_none))]
pub fn next_page(input: &[u8], at: usize) -> usize
    requires { at ≤ length input.now }
    ensures { (result ≡ at + to_zero (drop at input.now)) × (result ≤ length input.now) }
{
    for i in at..input.len() {
        if input[i] == 0 {
            return i;
        }
    }
    input.len()
}

// Splits the input into its pages: the starts and the lengths of the first ten, and how many there are; ten stands for ten or more. All other places stay.
pub fn split_pages(input: &[u8], starts: &mut [usize], lens: &mut [usize]) -> usize
    requires { (10 ≤ length starts.old) × (10 ≤ length lens.old) }
    ensures { (result ≡ length (take 10 (parted input.now)))
        × (starts.new ≡ laid starts.old 0 (take 10 (starts_from 0 (parted input.now))))
        × (lens.new ≡ laid lens.old 0 (take 10 (lengths (parted input.now)))) }
{
    let mut at = 0;
    for n in 0..10 {
        let e = next_page(input, at);
        starts[n] = at;
        lens[n] = e - at;
        if e == input.len() {
            return n + 1;
        }
        at = e + 1;
    }
    10
}
