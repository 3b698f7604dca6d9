// R-11's calendar: dates as numbers yyyymmdd, 1 January 2000 to 31 December 2099, and the days on which a dated sheet serves.
#![tactic(auto)]

ghost use Rattle.std.specs.Prelude.{◌≡◌, true, ◌≤◌};
ghost use Rattle.calendar.specs.Dates.{leap_year, month_length, valid_date, next_day};
ghost use Rattle.calendar.specs.Term.{serves as Term·serves};

// By 400, or by 4 and not by 100.
#[tactic(auto, unfolding(crate::specs::Dates::leap_year))]
fn leap(y: u32) -> bool
    ensures { result ≡ leap_year y }
{
    y % 4 == 0 && y % 100 != 0 || y % 400 == 0
}

// February has 28 days or 29; April, June, September and November have 30.
#[tactic(auto, unfolding(crate::specs::Dates::month_days))]
fn month_length(y: u32, m: u32) -> u32
    ensures { result ≡ month_length y m }
{
    match m {
        2 if leap(y) => 29,
        2 => 28,
        4 | 6 | 9 | 11 => 30,
        _ => 31,
    }
}

// A date of the calendar.
#[tactic(auto, unfolding(crate::specs::Dates::valid_date))]
pub fn valid(d: u32) -> bool
    ensures { result ≡ valid_date d }
{
    let y = d / 10000;
    let m = d / 100 % 100;
    let k = d % 100;
    match (y, m, k) {
        (2000..=2099, 1..=12, 1..) => k <= month_length(y, m),
        _ => false,
    }
}

// The next day, from any number up to the calendar's last.
#[tactic(auto, unfolding(crate::specs::Dates::next_day))]
pub fn next(d: u32) -> u32
    requires { d ≤ 20991231 }
    ensures { result ≡ next_day d }
{
    let y = d / 10000;
    let m = d / 100 % 100;
    if d % 100 < month_length(y, m) {
        d + 1
    } else if m < 12 {
        y * 10000 + (m + 1) * 100 + 1
    } else {
        (y + 1) * 10000 + 101
    }
}

// A sheet of this issue date serves from it to the day before the same date two years on, one of 29 February to 28 February. As numbers:
// below the issue date and 20000, which for a 29 February is no date.
#[tactic(auto, using(crate::proofs::Term::serves_is))]
pub fn serves(issue: u32, day: u32) -> bool
    requires { (valid_date issue ≡ true) × (valid_date day ≡ true) }
    ensures { result ≡ Term·serves issue day }
{
    issue <= day && day - issue < 20000
}
