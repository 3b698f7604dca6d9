// Rounding to the nearest whole number, and the signed arithmetic that the crates above build on.
#![tactic(auto)]

ghost use Rattle.std.specs.Prelude.{◌≡◌, ◌*◌, ◌<◌, ◌≤◌, nat_abs, pos, ◌*ℤ◌};
ghost use Rattle.rounding.specs.Near.{nearest, nearest_size};

use crate::signed::{negative, positive, product};

pub mod signed;

// Document 01's near(a/b) with R-6's halves: the nearest whole number to a / b, a half going away from zero.
pub fn near(a: i64, b: u64) -> i64
    requires { (nat_abs a ≤ 4000000000000000000) × (0 < b) × (b ≤ 1000000000000000000) }
    ensures { result ≡ nearest a b }
{
    // The size is taken where the sign is known, so that the compiler need not test it again.
    if a < 0 {
        negative(quotient(a.unsigned_abs(), b))
    } else {
        positive(quotient(a.unsigned_abs(), b))
    }
}

// The size m / b rounded, a half going up: the one division of a rounding, for both signs.
fn quotient(m: u64, b: u64) -> u64
    requires { (m ≤ 4000000000000000000) × (0 < b) × (b ≤ 1000000000000000000) }
    ensures { result ≡ nearest_size m b }
{
    (2 * m + b) / (2 * b)
}

// a b / d rounded, the form of every rounded step of document 01.
pub fn near_product(a: i64, b: i64, d: u64) -> i64
    requires { (nat_abs a * nat_abs b ≤ 4000000000000000000) × (0 < d) × (d ≤ 1000000000000000000) }
    ensures { result ≡ nearest (a *ℤ b) d }
{
    near(product(a, b), d)
}

// The same where the second factor is unsigned.
pub fn near_scaled(a: i64, n: u64, d: u64) -> i64
    requires { (nat_abs a * n ≤ 4000000000000000000) × (n ≤ 4000000000000000000) × (0 < d) × (d ≤ 1000000000000000000) }
    ensures { result ≡ nearest (a *ℤ pos n) d }
{
    near_product(a, positive(n), d)
}
