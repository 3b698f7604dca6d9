// Document 01's refusals of an event, each with its number.
#![tactic(auto)]

ghost use Rattle.std.specs.Prelude.{◌≡◌};
ghost use Rattle.refusals.specs.Numbers.{refusal_number, refusal_of_reading};

use curve::OutOfRange;

// Why an event is refused. The numbers are document 01's, as its answer record has them.
#[derive(Clone, Copy, PartialEq, Eq)]
pub enum Refusal {
    // No sheet is loaded; of a load, the list has none at its index.
    NoSheet = 1,
    // The sheet at a load's index is outside its limits.
    BadSheet = 2,
    // A zero's raw signal is outside its limits.
    BadZero = 3,
    // A cylinder is outside its limits.
    BadCylinder = 4,
    // No span reads the cylinder.
    NoSpan = 5,
    // What was measured is outside its limits.
    BadInput = 6,
    // The signal is below −2,000,000.
    BelowZero = 7,
    OverRange = 8,
    // No signal reads the reference's cylinder.
    NoReference = 9,
    // The event is not for this mode, or not for how the integration stands.
    NotNow = 10,
    // The record is no event.
    Malformed = 11,
}

impl Refusal {
    pub fn number(self) -> u8
        ensures { result ≡ refusal_number self }
    {
        self as u8
    }
}

// A reading is refused for its own reason.
impl From<OutOfRange> for Refusal {
    ghost from_gives = { λ why refusal. refusal ≡ refusal_of_reading why };

    fn from(why: OutOfRange) -> Refusal {
        match why {
            OutOfRange::BelowZero => Refusal::BelowZero,
            OutOfRange::OverRange => Refusal::OverRange,
        }
    }
}
