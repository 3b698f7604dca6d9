// R-11, term dates: what the engine knows of time, and what follows from it. The clock and check 19; what a span and a sample need once the
// clock is told, check 20.
#![tactic(auto)]

ghost use Rattle.std.specs.Prelude.{◌≡◌, true, ◌≤◌, nat_abs};
ghost use Rattle.calendar.specs.Dates.{valid_date};
ghost use Rattle.timing.specs.Clock.{is_minute, not_earlier, takes_clock};
ghost use Rattle.timing.specs.Needs.{issue_within, clock_within, times_within, in_hours, sheet_serves, span_needs_met, spanned_today, sample_needs_met};
ghost use Rattle.timing.specs.Times.{loaded_times, told_at, spanned_at};

use calendar::{serves, valid};

// A date yyyymmdd and a minute of that day. Earlier ones come before later ones.
#[derive(Clone, Copy, PartialEq, Eq, PartialOrd, Ord)]
pub struct Moment {
    pub date: u32,
    pub minute: u32,
}

// The day of the last span since the load: none was set, one was set before the clock was told, or on a date.
#[derive(Clone, Copy)]
pub enum SpanDay {
    Unset,
    BeforeClock,
    On(u32),
}

// The loaded sheet's issue date, 0 for an undated one, the clock, once it is told, and the span's day.
#[derive(Clone, Copy)]
pub struct Times {
    pub issued: u32,
    pub clock: Option<Moment>,
    pub spanned: SpanDay,
}

// What a load of a sheet with this issue date leaves: the clock is untold, and no span is set.
pub fn loaded_times(issued: u32) -> Times
    ensures { result ≡ loaded_times issued }
{
    Times {
        issued,
        clock: None,
        spanned: SpanDay::Unset,
    }
}

// The clock is told: all else stays.
pub fn told_at(times: Times, date: u32, minute: i32) -> Times
    requires { nat_abs minute ≤ 1439 }
    ensures { result ≡ told_at times date minute }
{
    Times {
        clock: Some(Moment {
            date,
            minute: minute.unsigned_abs(),
        }),
        ..times
    }
}

// A span is set: on the clock's day, or before the clock was told. All else stays.
pub fn spanned_at(times: Times) -> Times
    ensures { result ≡ spanned_at times }
{
    Times {
        spanned: times
            .clock
            .map_or(SpanDay::BeforeClock, |now| SpanDay::On(now.date)),
        ..times
    }
}

// Check 19: a date of the calendar and a minute of a day, not earlier than the clock that stands.
#[tactic(auto, unfolding(crate::specs::Clock::takes_clock))]
pub fn takes_clock(clock: Option<Moment>, date: u32, minute: i32) -> bool
    ensures { result ≡ takes_clock clock date minute }
{
    let now = Moment {
        date,
        minute: minute.unsigned_abs(),
    };
    valid(date) && is_minute(minute) && not_earlier(clock, now)
}

fn is_minute(minute: i32) -> bool
    ensures { result ≡ is_minute minute }
{
    matches!(minute, 0..=1439)
}

// By the date, then by the minute. An equal one is not earlier.
fn not_earlier(clock: Option<Moment>, now: Moment) -> bool
    ensures { result ≡ not_earlier clock now.date now.minute }
{
    clock.is_none_or(|before| before <= now)
}

// No date, or a date of the calendar.
pub fn issue_within(issued: u32) -> bool
    ensures { result ≡ issue_within issued }
{
    issued == 0 || valid(issued)
}

// The issue date and the clock's date are dates of the calendar.
#[tactic(auto, unfolding(crate::specs::Needs::times_within))]
pub fn times_within(times: Times) -> bool
    ensures { result ≡ times_within times }
{
    issue_within(times.issued) && clock_within(times.clock)
}

fn clock_within(clock: Option<Moment>) -> bool
    ensures { result ≡ clock_within clock }
{
    clock.is_none_or(|now| valid(now.date))
}

// Check 20 of a span: once the clock is told, a minute within the hours and a serving sheet.
#[tactic(auto, unfolding(crate::specs::Needs::span_needs_met, crate::specs::Needs::times_within))]
pub fn span_needs_met(times: Times) -> bool
    requires { times_within times ≡ true }
    ensures { result ≡ span_needs_met times }
{
    times.clock.is_none_or(|now| in_hours(now.minute) && sheet_serves(times.issued, now.date))
}

// A minute of 480 to 1,019.
fn in_hours(minute: u32) -> bool
    ensures { result ≡ in_hours minute }
{
    matches!(minute, 480..=1019)
}

// An undated sheet always serves.
fn sheet_serves(issued: u32, day: u32) -> bool
    requires { (issue_within issued ≡ true) × (valid_date day ≡ true) }
    ensures { result ≡ sheet_serves issued day }
{
    issued == 0 || serves(issued, day)
}

// Check 20 of a sample: that of a span, and the last span set today, if any was set since the load.
#[tactic(auto, unfolding(crate::specs::Needs::sample_needs_met))]
pub fn sample_needs_met(times: Times) -> bool
    requires { times_within times ≡ true }
    ensures { result ≡ sample_needs_met times }
{
    span_needs_met(times) && spanned_today(times.clock, times.spanned)
}

fn spanned_today(clock: Option<Moment>, spanned: SpanDay) -> bool
    ensures { result ≡ spanned_today clock spanned }
{
    match (clock, spanned) {
        (None, _) | (_, SpanDay::Unset) => true,
        (_, SpanDay::BeforeClock) => false,
        (Some(now), SpanDay::On(day)) => day == now.date,
    }
}
