// Reading what is collected: the pages by their numbers, handed in at once.
ghost use Rattle.reader.specs.Promise.{Promised};
ghost use Rattle.collector.specs.Keeping.{collected};

use crate::store::{Collector, count, page_at};
use reader::answer::Refusal;
use reader::call::room_fits;
use reader::reading::Reading;

// Reads the collected pages into the lent rooms: 1 where the room is too small or there is no page, 11 with the lowest missing number where one is missing,
// else as the same pages handed in at once.
pub fn read(c: Collector, rows: &mut [u32], text: &mut [u8]) -> Reading
    ensures { Promised (collected rows.old text.old c) rows.old text.old result rows.new text.new }
{
    if !room_fits(rows.len(), text.len()) {
        return Err(Refusal::NoRoom);
    }
    let z = count(c.z) as usize;
    let mut starts = [0usize; 9];
    let mut sizes = [0usize; 9];
    for k in 0..z {
        let n = k as u8 + 1;
        let Some(at) = page_at(c.lens, n) else {
            return Err(Refusal::NumberMissing(n as u32));
        };
        starts[k] = at.start;
        sizes[k] = at.len;
    }
    reader::reading::read(&c.pages, &starts[..z], &sizes[..z], rows, text)
}
