// What the programs planlist, planfresh, planfind and plancell print for an input, for the tests.
use tollgilt::input::{cell_input, find_input, fresh_input, list_input};

// The number of the refusal, 0 if something is printed; in `told` its length.
fn tell(printed: Option<usize>, told: &mut [usize; 1]) -> u32 {
    match printed {
        Some(n) => {
            told[0] = n;
            0
        }
        None => 1,
    }
}

// What planlist prints for its input, laid at the beginning of `out`: the number of the refusal, 0 if something is printed; in `told` its length.
#[unsafe(no_mangle)]
pub extern "C" fn probe_planlist(input: &[u8], out: &mut [u8], told: &mut [usize; 1]) -> u32 {
    tell(list_input(input, out), told)
}

// What planfresh prints for its input, in the same way.
#[unsafe(no_mangle)]
pub extern "C" fn probe_planfresh(input: &[u8], out: &mut [u8], told: &mut [usize; 1]) -> u32 {
    tell(fresh_input(input, out), told)
}

// What planfind prints for its input, in the same way.
#[unsafe(no_mangle)]
pub extern "C" fn probe_planfind(input: &[u8], out: &mut [u8], told: &mut [usize; 1]) -> u32 {
    tell(find_input(input, out), told)
}

// What plancell prints for its input, in the same way.
#[unsafe(no_mangle)]
pub extern "C" fn probe_plancell(input: &[u8], out: &mut [u8], told: &mut [usize; 1]) -> u32 {
    tell(cell_input(input, out), told)
}
