// Document 01, "Curve and absolute reading": from a signal to its wet and dry value.
#![tactic(auto)]

ghost use Rattle.std.specs.Prelude.{◌≡◌};
ghost use Rattle.curve.specs.Limits.{SheetOk, AirOk};
ghost use Rattle.curve.specs.Absolute.{absolute_of};

use crate::steps::{reduced, wet};

pub mod limits;
pub mod steps;

// An analyser's calibration sheet: coefficients A1, A2, A3, temperature T0 and K, in document 01's units.
#[derive(Clone, Copy)]
pub struct Sheet {
    pub a1: u64,
    pub a2: u64,
    pub a3: u64,
    pub t0: u64,
    pub k: u64,
}

// The air in the cell: pressure P and vapour pressure e in Pa, temperature T in hundredths of a kelvin.
#[derive(Clone, Copy)]
pub struct Air {
    pub p: u64,
    pub t: u64,
    pub e: u64,
}

// Why a signal has no reading.
#[derive(Clone, Copy, PartialEq, Eq)]
pub enum OutOfRange {
    // Below −2,000,000.
    BelowZero,
    // Above one of four limits, of the signal, of K, of the reduced signal and of the wet value.
    OverRange,
}

#[tactic(auto, unfolding(crate::specs::Absolute::absolute_of))]
// The absolute reading of the signal v: the wet value in pmol/mol.
pub fn absolute(s: Sheet, v: i64, a: Air) -> Result<i64, OutOfRange>
    requires { SheetOk s × AirOk a }
    ensures { result ≡ absolute_of s v a }
{
    // Both ends of V are tested before z is computed, so that its product fits.
    if v < -2000000 {
        return Err(OutOfRange::BelowZero);
    }
    if v > 150000000 {
        return Err(OutOfRange::OverRange);
    }
    if v >= s.k as i64 {
        return Err(OutOfRange::OverRange);
    }
    let z = reduced(v, a);
    if z > 100000000 {
        return Err(OutOfRange::OverRange);
    }
    let c = wet(s, v, z, a);
    if c > 3000000000 {
        return Err(OutOfRange::OverRange);
    }
    Ok(c)
}
