// The calendar of a store's day D: which dates are real, the day after D, and the slot that a report's day and hour name.
#![tactic(auto)]

ghost use Rattle.std.specs.Prelude.{◌≡◌, ◌==◌};
ghost use Rattle.std.specs.List.{position};
ghost use Rattle.calendar.specs.Dates.{leap, days_in, is_date, next_day};
ghost use Rattle.calendar.specs.Slots.{slot_of};

// A day, by its numbers; `is_date` tells whether it is one.
#[derive(Clone, Copy)]
pub struct Date {
    pub year: u32,
    pub month: u32,
    pub day: u32,
}

fn is_leap(year: u32) -> bool
    ensures { result ≡ leap year }
{
    year % 4 == 0 && (year % 100 != 0 || year % 400 == 0)
}

// The number of days of a month: each arm is a line of the calendar's table.
#[tactic(auto, unfolding(crate::specs::Dates::days_in))]
fn days_in(year: u32, month: u32) -> u32
    ensures { result ≡ days_in year month }
{
    match month {
        2 if is_leap(year) => 29,
        2 => 28,
        4 | 6 | 9 | 11 => 30,
        _ => 31,
    }
}

// Whether a store can have this date: a real one of the years 2000 to 2099.
#[tactic(auto, unfolding(crate::specs::Dates::is_date))]
pub fn is_date(date: Date) -> bool
    ensures { result ≡ is_date date.year date.month date.day }
{
    let last = days_in(date.year, date.month);
    matches!(date.year, 2000..=2099)
        && matches!(date.month, 1..=12)
        && 1 <= date.day
        && date.day <= last
}

// The day of the month of the day after.
#[tactic(auto, using(crate::proofs::Dates::days_within), unfolding(crate::specs::Dates::next_day))]
fn next_day(date: Date) -> u32
    ensures { result ≡ next_day date.year date.month date.day }
{
    if date.day < days_in(date.year, date.month) {
        return date.day + 1;
    }
    1
}

// The place of an hour among the hours of a day's slots. One call of std, as `texts::bytes::find` is: a function for both would be std's own.
fn place_of(hours: &[u32], gg: u32) -> Option<usize>
    ensures { result ≡ position (λ hour. gg == hour) hours.now }
{
    hours.iter().position(|&hour| gg == hour)
}

// The slot of D that a report's day of the month and hour name.
#[tactic(auto, unfolding(crate::specs::Slots::slot_of))]
pub fn slot_of(date: Date, yy: u32, gg: u32) -> Option<usize>
    ensures { result ≡ slot_of date.year date.month date.day yy gg }
{
    if yy == date.day {
        return place_of(&[6, 9, 12, 15, 18, 21], gg);
    }
    if yy == next_day(date) {
        let place = place_of(&[0, 3, 6], gg)?;
        return Some(6 + place);
    }
    None
}
