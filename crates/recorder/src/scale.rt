// The scale of a channel, from the value X0 at its lower end to XF above it, and a value's code on it.
ghost use Rattle.std.specs.Prelude.{◌≡◌, true, ◌≤◌, nat_abs, is_some, IfSome};
ghost use Rattle.std.specs.Int.Signed.{lt_z};
ghost use Rattle.recorder.specs.Recorder.{in_range, scales, ratio_of, code_of};

use crate::ChannelKind;
use rounding::near_scaled;

#[derive(Clone, Copy)]
pub struct Scale {
    x0: i64,
    xf: i64,
    ghost x0_size: { nat_abs x0 ≤ 4000000000 },
    ghost xf_size: { nat_abs xf ≤ 4000000000 },
    ghost rises: { lt_z x0 xf ≡ true },
}

// A value from −4,000,000,000 to 4,000,000,000 pmol/mol.
pub fn in_range(x: i64) -> bool
    ensures { result ≡ in_range x }
{
    x.unsigned_abs() <= 4000000000
}

impl Scale {
    // The scale with these ends, if both are in range and the upper one is above the lower.
    pub fn new(x0: i64, xf: i64) -> Option<Scale>
        ensures made { is_some result ≡ scales x0 xf }
        ensures ends { IfSome result (λ s. (s.x0 ≡ x0) × (s.xf ≡ xf)) }
    {
        if in_range(x0) && in_range(xf) && x0 < xf {
            Some(Scale { x0, xf })
        } else {
            None
        }
    }

    // The code of a value: its ratio, held within the codes that the channel has.
    pub fn code(self, kind: ChannelKind, x: i64) -> i64
        requires { nat_abs x ≤ 4000000000 }
        ensures { result ≡ code_of kind x self.x0 self.xf }
    {
        match kind {
            ChannelKind::Voltage => self.ratio(2048, x).clamp(-2048, 2047),
            ChannelKind::Current => self.ratio(4096, x).clamp(0, 4095),
        }
    }

    // steps (x − x0) / (xf − x0), rounded.
    fn ratio(self, steps: u64, x: i64) -> i64
        requires { (steps ≤ 4096) × (nat_abs x ≤ 4000000000) }
        ensures { result ≡ ratio_of steps x self.x0 self.xf }
    {
        near_scaled(x - self.x0, steps, self.xf.abs_diff(self.x0))
    }
}
