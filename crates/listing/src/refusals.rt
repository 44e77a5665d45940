// Refusals: the three lines of a refusal.
ghost use Rattle.std.specs.Prelude.{◌≡◌, ◌≤◌, length};
ghost use Rattle.paper.specs.Listing.{refusal_lines};
ghost use Rattle.room.specs.Laid.{laid};

use crate::lines::count_line;

// Prints a refusal's number, page and place into `out`, and returns how many bytes these lines have. All other bytes of `out` stay.
pub fn list_refusal(number: u32, page: u32, place: u32, out: &mut [u8]) -> usize
    requires { length (refusal_lines number page place) ≤ length out.old }
    ensures { (result ≡ length (refusal_lines number page place)) × (out.new ≡ laid out.old 0 (refusal_lines number page place)) }
{
    let a = count_line(out, 0, b"refused", number);
    let b = count_line(out, a, b"page", page);
    count_line(out, b, b"place", place)
}
