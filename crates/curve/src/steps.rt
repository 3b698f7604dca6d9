// The rounded steps of document 01, a function each.
ghost use Rattle.std.specs.Prelude.{◌≡◌, ◌≤◌, nat_abs};
ghost use Rattle.curve.specs.Limits.{SheetOk, AirOk};
ghost use Rattle.curve.specs.Curve.{broadening_of, reduced_of, slope2_of, slope1_of, cubic_of, straight_of, curve_of, moist_of, warm_of, wet_of, dry_of};

use crate::{Air, Sheet};
use rounding::signed::{positive, sum};
use rounding::{near_product, near_scaled};

// D
fn broadening(a: Air) -> u64
    requires { AirOk a }
    ensures { result ≡ broadening_of a }
{
    100 * a.p + 57 * a.e
}

// z
pub fn reduced(v: i64, a: Air) -> i64
    requires { (nat_abs v ≤ 150000000) × AirOk a }
    ensures { result ≡ reduced_of v a }
{
    near_scaled(v, 10130000, broadening(a))
}

// h2
fn slope2(s: Sheet, z: i64) -> i64
    requires { SheetOk s × (nat_abs z ≤ 100000000) }
    ensures { result ≡ slope2_of s z }
{
    sum(positive(s.a2), near_scaled(z, s.a3, 10000000))
}

// h1
fn slope1(s: Sheet, z: i64) -> i64
    requires { SheetOk s × (nat_abs z ≤ 100000000) }
    ensures { result ≡ slope1_of s z }
{
    sum(positive(s.a1), near_product(z, slope2(s, z), 10000000))
}

// f of a signal from 0 on
fn cubic(s: Sheet, z: i64) -> i64
    requires { SheetOk s × (nat_abs z ≤ 100000000) }
    ensures { result ≡ cubic_of s z }
{
    near_product(z, slope1(s, z), 10000000)
}

// f of a signal below 0
fn straight(s: Sheet, z: i64) -> i64
    requires { SheetOk s × (nat_abs z ≤ 100000000) }
    ensures { result ≡ straight_of s z }
{
    near_scaled(z, s.a1, 10000000)
}

// f, by the sign of the signal v that is reduced to z
fn curve(s: Sheet, v: i64, z: i64) -> i64
    requires { SheetOk s × (nat_abs z ≤ 100000000) }
    ensures { result ≡ curve_of s v z }
{
    if v < 0 { straight(s, z) } else { cubic(s, z) }
}

// g
fn moist(f: i64, a: Air) -> i64
    requires { (nat_abs f ≤ 30000000000) × AirOk a }
    ensures { result ≡ moist_of f a }
{
    near_scaled(f, broadening(a), 100 * a.p)
}

// c, of g
fn warm(s: Sheet, g: i64, a: Air) -> i64
    requires { SheetOk s × (nat_abs g ≤ 40000000000) × AirOk a }
    ensures { result ≡ warm_of s g a }
{
    near_scaled(g, a.t, s.t0)
}

// c, of the signal v that is reduced to z
pub fn wet(s: Sheet, v: i64, z: i64, a: Air) -> i64
    requires { SheetOk s × (nat_abs z ≤ 100000000) × AirOk a }
    ensures { result ≡ wet_of s v z a }
{
    warm(s, moist(curve(s, v, z), a), a)
}

// The dry value of the wet value c.
pub fn dry(c: i64, a: Air) -> i64
    requires { (nat_abs c ≤ 3000000000) × AirOk a }
    ensures { result ≡ dry_of c a }
{
    near_scaled(c, a.p, a.p - a.e)
}
