// The signal from raw, and against a reference.
ghost use Rattle.std.specs.Prelude.{◌≡◌, ◌<◌, ◌≤◌, nat_abs};
ghost use Rattle.reference.specs.Signal.{signal_of, against_of};

use rounding::near_scaled;
use rounding::signed::{difference, positive, sum};

// V, from raw under the zero q and the span s.
pub fn from_raw(raw: i64, q: i64, s: u64) -> i64
    requires { (nat_abs raw ≤ 150000000) × (nat_abs q ≤ 20000000) × (s ≤ 2000000) }
    ensures { result ≡ signal_of raw q s }
{
    near_scaled(difference(raw, q), s, 1000000)
}

// The signal v against the reference signal r: what the two cells let through multiplies.
pub fn against(v: i64, r: u64, k: u64) -> i64
    requires { (nat_abs v ≤ 340000000) × (r ≤ 150000000) × (0 < k) × (k ≤ 400000000) }
    ensures { result ≡ against_of v r k }
{
    difference(sum(positive(r), v), near_scaled(v, r, k))
}
