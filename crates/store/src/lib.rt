// R-7: what the engine keeps of its last search for a reference signal. Pressure and temperature rarely move, so most samples take what is
// stored and search for nothing.
#![tactic(auto)]

ghost use Rattle.std.specs.Prelude.{◌≡◌, true};
ghost use Rattle.curve.specs.Limits.{SheetOk};
ghost use Rattle.sampling.specs.Sample.{mode_within};
ghost use Rattle.store.specs.Store.{is_at, finding_in, stored_on, stored_within};

use curve::Sheet;
use sampling::{Measurement, Mode, air_of, inputs_within, searched};

// What the last search found: R, or nothing (refusal 9), at its P and T.
#[derive(Clone, Copy)]
pub struct Finding {
    pub p: u32,
    pub t: u32,
    pub r: Option<u64>,
}

// The limits of what is stored.
pub fn stored_within(stored: Option<Finding>) -> bool
    ensures { result ≡ stored_within stored }
{
    match finding_in(stored) {
        Some(r) => r <= 150000000,
        None => true,
    }
}

// The finding that a sample goes by.
pub fn finding_in(stored: Option<Finding>) -> Option<u64>
    ensures { result ≡ finding_in stored }
{
    stored?.r
}

// What stands stored after a sample under a sheet and a mode. It searches only against a reference, with nothing stored or at another P or
// T, for inputs that pass check 6. Whether the finding is of this P and T is asked before check 6, since mostly it is.
pub fn stored_after(
    s: Sheet,
    mode: Mode,
    at: Measurement,
    stored: Option<Finding>,
) -> Option<Finding>
    requires { SheetOk s × (mode_within mode ≡ true) }
    ensures { result ≡ stored_on s mode at stored }
{
    let Mode::Against(_) = mode else {
        return stored;
    };
    if is_at(stored, at) {
        return stored;
    }
    if !inputs_within(mode, at) {
        return stored;
    }
    Some(Finding {
        p: at.p,
        t: at.t,
        r: searched(s, mode, air_of(at)),
    })
}

// Whether what is stored was found at the sample's P and T.
fn is_at(stored: Option<Finding>, at: Measurement) -> bool
    ensures { result ≡ is_at stored at }
{
    match stored {
        Some(f) => f.p == at.p && f.t == at.t,
        None => false,
    }
}
