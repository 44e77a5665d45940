// The collector, for the tests. Its value crosses the border as its fields: the pages, their lengths, and two numbers, the count of pages and the number
// of the first.
use crate::tell_reading;
use collector::adding::{Kept, add};
use collector::lacks::{lowest_missing, missing_count, missing_numbers};
use collector::reading::read;
use collector::store::{Collector, clear};
use plan::Plan;

// The collector with these fields.
pub fn collector_of<'a>(
    pages: &'a [u8; Plan::PAGES],
    lens: &'a [u16; 9],
    numbers: &'a [u8; 2],
) -> Collector {
    Collector {
        pages: *pages,
        lens: *lens,
        z: numbers[0],
        first: numbers[1],
    }
}

// The fields of a collector.
fn put(c: Collector, pages: &mut [u8; Plan::PAGES], lens: &mut [u16; 9], numbers: &mut [u8; 2]) {
    // Tried without a variable for each array, and the proof didn't close: the borrow checker does not cover it.
    let p = c.pages;
    let l = c.lens;
    *pages = p;
    *lens = l;
    numbers[0] = c.z;
    numbers[1] = c.first;
}

// Adds a page of the buffer: 0 if it is added, 20 if it is already here, else the number of the refusal, with its page and place in `told`.
#[unsafe(no_mangle)]
pub extern "C" fn probe_add(
    pages: &mut [u8; Plan::PAGES],
    lens: &mut [u16; 9],
    numbers: &mut [u8; 2],
    buffer: &[u8],
    start: usize,
    len: usize,
    told: &mut [u32; 2],
) -> u32 {
    let c = collector_of(pages, lens, numbers);
    let r = add(c, buffer, start, len);
    put(r.collector, pages, lens, numbers);
    match r.answer {
        Ok(Kept::Added) => 0,
        Ok(Kept::AlreadyHere) => 20,
        Err(refusal) => {
            told[0] = refusal.page();
            told[1] = refusal.place();
            refusal.number()
        }
    }
}

// The mask of the missing numbers, how many they are, and the lowest; 0 where none is missing.
#[unsafe(no_mangle)]
pub extern "C" fn probe_missing<'a>(
    pages: &'a [u8; Plan::PAGES],
    lens: &'a [u16; 9],
    numbers: &'a [u8; 2],
    told: &mut [u32; 3],
) {
    let c = collector_of(pages, lens, numbers);
    told[0] = missing_numbers(c) as u32;
    told[1] = missing_count(c);
    told[2] = lowest_missing(c).unwrap_or(0);
}

// Reads the collected pages, and answers as `probe_read`.
#[unsafe(no_mangle)]
pub extern "C" fn probe_collected<'a>(
    pages: &'a [u8; Plan::PAGES],
    lens: &'a [u16; 9],
    numbers: &'a [u8; 2],
    rows: &mut [u32],
    text: &mut [u8],
    told: &mut [u32; 58],
) -> u32 {
    let c = collector_of(pages, lens, numbers);
    tell_reading(read(c, rows, text), told)
}

// Makes a collector empty.
#[unsafe(no_mangle)]
pub extern "C" fn probe_clear(
    pages: &mut [u8; Plan::PAGES],
    lens: &mut [u16; 9],
    numbers: &mut [u8; 2],
) {
    let c = collector_of(pages, lens, numbers);
    put(clear(c), pages, lens, numbers);
}
