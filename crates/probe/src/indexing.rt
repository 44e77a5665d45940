// The index of package numbers, for the tests.
use crate::collecting::collector_of;
use crate::tell_reading;
use index::answer::{Held, Nth, Refusal, number_of};
use index::ask::{all, first, nth};
use index::build::build;
use index::reading::{Indexed, read, read_collected};
use plan::Plan;

// What is told of rows that hold a number: how many, and the first. None does where `told` stays as it was.
fn tell_held(held: Result<Option<Held>, Refusal>, told: &mut [u32; 2]) -> u32 {
    if let Ok(Some(rows)) = held {
        told[0] = rows.count;
        told[1] = rows.first;
    }
    number_of(&held)
}

// Builds the index of rows: the number of the refusal, 0 for an index; in `told` how many pairs it has.
#[unsafe(no_mangle)]
pub extern "C" fn probe_build(
    rows: &[u32],
    count: u32,
    index: &mut [u32],
    told: &mut [u32; 1],
) -> u32 {
    let built = build(rows, count, index);
    if let Ok(pairs) = built {
        told[0] = pairs;
    }
    number_of(&built)
}

// The first row that holds a number: the number of the refusal; in `told` how many rows hold it, and the first. None does where `told` stays as it was.
#[unsafe(no_mangle)]
pub extern "C" fn probe_first<'a>(
    rows: &'a [u32],
    count: u32,
    index: &'a [u32],
    length: u32,
    number: u32,
    told: &mut [u32; 2],
) -> u32 {
    tell_held(first(rows, count, index, length, number), told)
}

// The k-th row that holds a number: the number of the refusal; in `told` 0 where the number is not on the plan, 1 where it has no k-th row, 2 for a row, and that
// row.
#[unsafe(no_mangle)]
pub extern "C" fn probe_nth<'a>(
    rows: &'a [u32],
    count: u32,
    index: &'a [u32],
    length: u32,
    number: u32,
    k: u32,
    told: &mut [u32; 2],
) -> u32 {
    let answer = nth(rows, count, index, length, number, k);
    match answer {
        Ok(Nth::Absent) => {
            told[0] = 0;
        }
        Ok(Nth::None) => {
            told[0] = 1;
        }
        Ok(Nth::Row(row)) => {
            told[0] = 2;
            told[1] = row;
        }
        Err(_) => {}
    }
    number_of(&answer)
}

// All rows that hold a number, laid into `list`; told as by `probe_first`.
#[unsafe(no_mangle)]
pub extern "C" fn probe_all<'a>(
    rows: &'a [u32],
    count: u32,
    index: &'a [u32],
    length: u32,
    number: u32,
    list: &mut [u32],
    told: &mut [u32; 2],
) -> u32 {
    tell_held(all(rows, count, index, length, number, list), told)
}

// What reading with the index gave: as of a reading, and in `pairs` how many pairs the index has; a refusal has none.
fn tell_indexed(
    indexed: Result<Indexed, reader::answer::Refusal>,
    told: &mut [u32; 58],
    pairs: &mut [u32; 1],
) -> u32 {
    match indexed {
        Ok(x) => {
            pairs[0] = x.pairs;
            tell_reading(Ok(x.plan), told)
        }
        Err(refusal) => {
            pairs[0] = 0;
            tell_reading(Err(refusal), told)
        }
    }
}

// Reads a call with its index, and answers as `probe_read`; in `pairs` how many pairs the index has.
#[unsafe(no_mangle)]
pub extern "C" fn probe_indexed<'a>(
    buffer: &'a [u8],
    starts: &'a [usize],
    lens: &'a [usize],
    rows: &mut [u32],
    text: &mut [u8],
    index: &mut [u32],
    told: &mut [u32; 58],
    pairs: &mut [u32; 1],
) -> u32 {
    tell_indexed(read(buffer, starts, lens, rows, text, index), told, pairs)
}

// Reads the collected pages with their index, and answers as `probe_indexed`.
#[unsafe(no_mangle)]
pub extern "C" fn probe_collected_indexed<'a>(
    pages: &'a [u8; Plan::PAGES],
    lens: &'a [u16; 9],
    numbers: &'a [u8; 2],
    rows: &mut [u32],
    text: &mut [u8],
    index: &mut [u32],
    told: &mut [u32; 58],
    pairs: &mut [u32; 1],
) -> u32 {
    let c = collector_of(pages, lens, numbers);
    tell_indexed(read_collected(c, rows, text, index), told, pairs)
}
