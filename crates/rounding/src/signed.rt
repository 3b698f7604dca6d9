// Signed machine numbers, an operation each: what it gives on the whole numbers, and how large its operands may be.
ghost use Rattle.std.specs.Prelude.{◌≡◌, ◌+◌, ◌*◌, ◌≤◌, nat_abs, pos, neg_ℤ, ◌+ℤ◌, ◌-ℤ◌, ◌*ℤ◌};

// m as a signed number.
pub fn positive(m: u64) -> i64
    requires { m ≤ 9000000000000000000 }
    ensures { result ≡ pos m }
{
    m as i64
}

// m with a minus sign.
pub fn negative(m: u64) -> i64
    requires { m ≤ 9000000000000000000 }
    ensures { result ≡ neg_ℤ (pos m) }
{
    0 - (m as i64)
}

pub fn sum(a: i64, b: i64) -> i64
    requires { nat_abs a + nat_abs b ≤ 9000000000000000000 }
    ensures { result ≡ a +ℤ b }
{
    a + b
}

pub fn difference(a: i64, b: i64) -> i64
    requires { nat_abs a + nat_abs b ≤ 9000000000000000000 }
    ensures { result ≡ a -ℤ b }
{
    a - b
}

pub fn product(a: i64, b: i64) -> i64
    requires { nat_abs a * nat_abs b ≤ 9000000000000000000 }
    ensures { result ≡ a *ℤ b }
{
    a * b
}
