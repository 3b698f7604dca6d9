// An answer record as doubles: the host's answer.
#![tactic(auto)]

pub mod answers;

// A reading as doubles, each the whole number exactly. The signal is R.
#[derive(Clone, Copy)]
pub struct Doubles {
    pub wet: f64,
    pub dry: f64,
    pub signal: f64,
}

// An answer that is neither a reading nor an area, with the number of its refusal: the record's own, or 11.
#[derive(Clone, Copy)]
pub struct Refused {
    pub number: u8,
}
