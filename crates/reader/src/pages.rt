// The numbers of the pages handed in: one that comes twice, those that are missing, and where the page of a number stands.
//
// Numbers stand in an array of nine, of which the first n count. A mask has bit k for page number k; bit 0 is never set.
ghost use Rattle.std.specs.Prelude.{◌≡◌, List, [], ◌≤◌, ◌<◌, eqb, length, take, MatchOption};
ghost use Rattle.std.specs.Int.Bits.{bit_or};
ghost use Rattle.paper.specs.Judging.{Sheet};
ghost use Rattle.paper.specs.Reading.{page10};
ghost use Rattle.paper.specs.Collecting.{mask_of};
ghost use Rattle.reader.specs.Pages.{nos_of, place_of, picked, present, absent, numbers_in, first_in, Says};

// Where the page of number k stands, counted from 0, if a page has it.
pub fn page_of(nos: [u8; 9], n: usize, k: u8) -> Option<usize>
    requires { n ≤ 9 }
    ensures { (l : List Sheet) → nos_of l ≡ take n nos
        → MatchOption result (place_of k l ≡ n) (λ i. (i ≡ place_of k l) × (i < n)) }
{
    for place in 0..n {
        if nos[place] == k {
            return Some(place);
        }
    }
    None
}

// The first page, counted from 1, whose number an earlier one has, if there is one.
pub fn twice(nos: [u8; 9], n: usize) -> Option<usize>
    requires { n ≤ 9 }
    ensures { (l : List Sheet) → nos_of l ≡ take n nos → Says result (page10 [] 1 l) }
{
    for i in 0..n {
        if page_of(nos, i, nos[i]).is_some() {
            return Some(i + 1);
        }
    }
    None
}

// The mask of one number; of none, if it is no page's number.
pub fn bit(k: u8) -> u16
    ensures { result ≡ mask_of (picked (eqb k) 1 9) }
{
    match k {
        1..=9 => 1u16 << k,
        _ => 0,
    }
}

// A mask with one number more.
pub fn with_number(mask: u16, k: u8) -> u16
    ensures { result ≡ bit_or mask (mask_of (picked (eqb k) 1 9)) }
{
    mask | bit(k)
}

// The mask of the numbers that are there.
pub fn have(nos: [u8; 9], n: usize) -> u16
    requires { n ≤ 9 }
    ensures { (l : List Sheet) → nos_of l ≡ take n nos → result ≡ mask_of (present l) }
{
    let mut mask = 0u16;
    for i in 0..n {
        mask = with_number(mask, nos[i]);
    }
    mask
}

// The mask of those of the numbers 1 to z that are not there; of none, if z is no count of pages.
pub fn missing_mask(have: u16, z: u8) -> u16
    ensures { result ≡ mask_of (absent have z) }
{
    if z > 9 {
        return 0;
    }
    !have & ((2u16 << z) - 2)
}

// How many numbers a mask has.
pub fn missing_count(mask: u16) -> u32
    ensures { result ≡ length (numbers_in mask) }
{
    u16::count_ones(mask)
}

// The lowest number of a mask, if it has one.
pub fn lowest_missing(mask: u16) -> Option<u32>
    ensures { result ≡ first_in (numbers_in mask) }
{
    if mask == 0 {
        return None;
    }
    Some(u16::trailing_zeros(mask))
}
