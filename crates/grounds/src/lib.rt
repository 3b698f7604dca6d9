// R-9: why a sample is over range, so that a teacher turns the right knob.
#![tactic(auto)]

ghost use Rattle.std.specs.Prelude.{◌≡◌};
ghost use Rattle.grounds.specs.Grounds.{ground_number};

pub mod naming;

// The four grounds of refusal 8, each with its number in document 02's order.
#[derive(Clone, Copy)]
pub enum Ground {
    // The signal is above 150,000,000.
    SignalHigh = 1,
    // The signal is at or above K.
    SignalAtK = 2,
    // z, the signal reduced to P0 and dry air, is above 10^8.
    ReducedHigh = 3,
    // The wet value is above 3,000,000,000.
    WetHigh = 4,
}

// The number of a ground, 0 for none.
pub fn number_of(g: Option<Ground>) -> u8
    ensures { result ≡ ground_number g }
{
    g.map_or(0, |ground| ground as u8)
}
