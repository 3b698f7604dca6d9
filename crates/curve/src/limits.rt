// The limits of a sheet and of the air, ends included.
ghost use Rattle.std.specs.Prelude.{◌≡◌};
ghost use Rattle.curve.specs.Limits.{sheet_within, air_within};
ghost use Rattle.curve.specs.Limits.{within as Limits·within};

use crate::{Air, Sheet};

pub fn within(low: u64, high: u64, n: u64) -> bool
    ensures { result ≡ Limits·within low high n }
{
    low <= n && n <= high
}

#[tactic(auto, unfolding(crate::specs::Limits::sheet_within))]
pub fn sheet_within(s: Sheet) -> bool
    ensures { result ≡ sheet_within s }
{
    within(1, 1000000000, s.a1)
        && s.a2 <= 100000000
        && s.a3 <= 10000000
        && within(27315, 32315, s.t0)
        && within(10000000, 400000000, s.k)
}

#[tactic(auto, using(crate::proofs::Tenth::tenth), unfolding(crate::specs::Limits::air_within))]
pub fn air_within(a: Air) -> bool
    ensures { result ≡ air_within a }
{
    // 10e ≤ P for any e, with no product that could overflow.
    within(60000, 115000, a.p) && within(27315, 32315, a.t) && a.e <= a.p / 10
}
