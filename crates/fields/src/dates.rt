// Days of the calendar: birthdays and time stamps.
ghost use Rattle.std.specs.Prelude.{◌≡◌, ◌&&◌, leb};
ghost use Rattle.paper.specs.Rules.{leap, month_days, real_day, late_day, full_date, partial_date, birth_date, is_birthday, is_stamp};

use crate::numbers::shown;
use crate::sets::{DIGIT, all_in, fits};

// The year in which birth dates begin.
const FIRST_YEAR: u32 = 1875;

// Whether a year has a 29 February: each fourth, but of the full centuries only each fourth.
pub fn is_leap(y: u32) -> bool
    ensures { result ≡ leap y }
{
    y % 4 == 0 && (y % 100 != 0 || y % 400 == 0)
}

// How many days a month has; month 0 and months above 12 have none.
pub fn month_days(y: u32, m: u32) -> u32
    ensures { result ≡ month_days y m }
{
    match m {
        1 | 3 | 5 | 7 | 8 | 10 | 12 => 31,
        4 | 6 | 9 | 11 => 30,
        2 if is_leap(y) => 29,
        2 => 28,
        _ => 0,
    }
}

// Whether there is such a day, in the years 0001 to 9999.
pub fn real_day(y: u32, m: u32, d: u32) -> bool
    ensures { result ≡ real_day y m d }
{
    y >= 1 && d >= 1 && d <= month_days(y, m)
}

// Whether a day is after 1 January 1875.
fn late_day(y: u32, m: u32, d: u32) -> bool
    ensures { result ≡ late_day y m d }
{
    y > FIRST_YEAR || y == FIRST_YEAR && (m != 1 || d != 1)
}

// Whether there is such a day, and it is after 1 January 1875.
fn full_date(y: u32, m: u32, d: u32) -> bool
    ensures { result ≡ full_date y m d }
{
    real_day(y, m, d) && late_day(y, m, d)
}

// Whether a date is a year and month, or a year alone, that may be a birth date: 00 stands for what nobody knows.
fn partial_date(y: u32, m: u32, d: u32) -> bool
    ensures { result ≡ partial_date y m d }
{
    d == 0 && m <= 12 && y >= FIRST_YEAR
}

// Whether a date may be a birth date.
fn born(y: u32, m: u32, d: u32) -> bool
    ensures { result ≡ birth_date y m d }
{
    full_date(y, m, d) || partial_date(y, m, d)
}

// Whether a value is eight digits that show a birth date. (That there are eight is the field's length.)
#[tactic(auto, unfolding(crate::specs::Sets::in_set))]
pub fn is_birthday(v: &[u8]) -> bool
    ensures { result ≡ is_birthday v.now }
{
    all_in(v, 0, DIGIT) && born(shown(v, 0, 4), shown(v, 4, 6), shown(v, 6, 8))
}

// Whether there is such a time of day: 00:00:00 to 23:59:59.
fn is_time(h: u32, m: u32, s: u32) -> bool
    ensures { result ≡ (leb h 23 && leb m 59 && leb s 59) }
{
    h <= 23 && m <= 59 && s <= 59
}

// Whether a value is a time stamp, YYYY-MM-DDThh:mm:ss, on a real day.
#[tactic(auto, unfolding(crate::specs::Sets::in_set))]
pub fn is_stamp(v: &[u8]) -> bool
    ensures { result ≡ is_stamp v.now }
{
    fits(v, b"####-##-##T##:##:##")
        && real_day(shown(v, 0, 4), shown(v, 5, 7), shown(v, 8, 10))
        && is_time(shown(v, 11, 13), shown(v, 14, 16), shown(v, 17, 19))
}
