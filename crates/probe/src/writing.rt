// Writing, for the tests.
use plan::{Plan, Span};
use writer::writing::write;

// A plan in numbers: the patch, the number of rows, and the start and the length of each of the head's 27 spans.
fn plan_of(numbers: &[u32; 56]) -> Plan {
    let mut head = [Span { at: 0, len: 0 }; 27];
    for (j, s) in head.iter_mut().enumerate() {
        *s = Span {
            at: numbers[2 + 2 * j],
            len: numbers[3 + 2 * j],
        };
    }
    Plan {
        patch: numbers[0],
        rows: numbers[1],
        head,
    }
}

// Writes a plan as pages: the number of the refusal, 0 for pages; in `told` its place, the number of pages, and their lengths.
#[unsafe(no_mangle)]
pub extern "C" fn probe_write(
    numbers: &[u32; 56],
    rows: &[u32],
    text: &[u8],
    out: &mut [u8],
    told: &mut [u32; 11],
) -> u32 {
    match write(plan_of(numbers), rows, text, out) {
        Ok(pages) => {
            told[0] = 0;
            told[1] = pages.count;
            told[2..].copy_from_slice(&pages.lens);
            0
        }
        Err(refusal) => {
            told.fill(0);
            told[0] = refusal.place();
            refusal.number()
        }
    }
}
