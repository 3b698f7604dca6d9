// Document 01, "Reference signal and span": from a cylinder back to its signal, and the settings that rest on it.
#![tactic(auto)]

ghost use Rattle.std.specs.Prelude.{◌≡◌, ℕ, ◌-◌, ◌≤◌, nat_abs};
ghost use Rattle.curve.specs.Limits.{SheetOk, AirOk};
ghost use Rattle.reference.specs.Search.{least, serves, reference_of, span_of};
ghost use Rattle.reference.specs.Sought.{SoughtOk, sought_reading};

use crate::signal::from_raw;
use curve::{Air, OutOfRange, Sheet};
use rounding::signed::{difference, positive};

pub mod signal;

// What a search runs over: signals, or the spans under which raw is read with the zero q.
#[derive(Clone, Copy)]
pub enum Sought {
    Signal,
    Span { raw: i64, q: i64 },
}

// The reference signal of a cylinder, if there is one, in air that has the cylinder's vapour pressure.
pub fn reference_signal(s: Sheet, cylinder: u64, a: Air) -> Option<u64>
    requires { SheetOk s × AirOk a × (cylinder ≤ 3000000000) }
    ensures { result ≡ reference_of s cylinder a }
{
    search(s, cylinder, a, Sought::Signal, 0, 150000001)
}

// The span at which raw reads the cylinder, under the zero q, if there is one.
pub fn span_setting(s: Sheet, raw: i64, q: i64, cylinder: u64, a: Air) -> Option<u64>
    requires { SheetOk s × AirOk a × (nat_abs raw ≤ 150000000) × (nat_abs q ≤ 20000000) × (1 ≤ cylinder) × (cylinder ≤ 3000000000) }
    ensures { result ≡ span_of s raw q cylinder a }
{
    // At or below the zero no span lifts the signal above 0.
    if difference(raw, q) < 1 {
        return None;
    }
    let sought = Sought::Span { raw, q };
    // Whether 499,999 would serve as well: then the gas reads too high for the range.
    if search(s, cylinder, a, sought, 499999, 500000).is_some() {
        return None;
    }
    search(s, cylinder, a, sought, 500000, 2000001)
}

// The first number from low up to, not at, high that serves, if any does. Above one over range there is none, and below one that reads
// too low there is none either.
fn search(s: Sheet, cylinder: u64, a: Air, sought: Sought, low: u64, high: u64) -> Option<u64>
    requires { SheetOk s × AirOk a × (cylinder ≤ 3000000000) × SoughtOk sought (high - 1) × (low ≤ high) }
    ensures { result ≡ least (λ (n : ℕ). serves cylinder (sought_reading s a sought n)) low (high - low) }
{
    if low == high {
        return None;
    }
    let middle = low + (high - low) / 2;
    let Ok(c) = reading_at(s, a, sought, middle) else {
        return search(s, cylinder, a, sought, low, middle);
    };
    if c >= cylinder as i64 {
        return search(s, cylinder, a, sought, low, middle).or(Some(middle));
    }
    search(s, cylinder, a, sought, middle + 1, high)
}

// The absolute reading of the signal n, or of raw under the span n.
fn reading_at(s: Sheet, a: Air, sought: Sought, n: u64) -> Result<i64, OutOfRange>
    requires { SheetOk s × AirOk a × SoughtOk sought n }
    ensures { result ≡ sought_reading s a sought n }
{
    match sought {
        Sought::Signal => curve::absolute(s, positive(n), a),
        Sought::Span { raw, q } => curve::absolute(s, from_raw(raw, q, n), a),
    }
}
