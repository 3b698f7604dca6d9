// Document 01, "Engine and events": the state, the nine kinds of event and R-10's kind 10, with their answers, and the rules of kinds 1 to 5.
#![tactic(auto)]

ghost use Rattle.std.specs.Prelude.{◌≡◌};
ghost use Rattle.rules.specs.Rules.{fresh};

use counting::Integration;
use curve::Sheet;
use sampling::{Measurement, Mode};
use store::Finding;

pub mod kinds;

// The loaded sheet, if any; zero is q, span is s; and what is stored of the last search.
#[derive(Clone, Copy)]
pub struct State {
    pub loaded: Option<Sheet>,
    pub q: i64,
    pub s: u64,
    pub mode: Mode,
    pub stored: Option<Finding>,
    pub integration: Integration,
}

// The kinds 1 to 10 in their order, each with its own fields at the file's widths. A short start is for a short chart (R-10).
#[derive(Clone, Copy)]
pub enum Event {
    Load { index: u32 },
    Zero { raw: i32 },
    Span { at: Measurement, cylinder: u32 },
    Reference { cylinder: u32, e: u32 },
    Absolute,
    Sample { at: Measurement },
    Start,
    Stop,
    Area,
    StartShort,
}

// An element of a list of events: a known event, or one that is malformed, of which the kind byte is known.
#[derive(Clone, Copy)]
pub enum Entry {
    Known(Event),
    Malformed(u8),
}

#[derive(Clone, Copy)]
pub enum Answer {
    Done,
    // The zero that was set.
    Zeroed(i64),
    // The span that was set.
    Spanned(u64),
    // The reference signal, 0 in absolute mode, and the wet and the dry value.
    Reading { r: u64, wet: i64, dry: i64 },
    Area { n: u64, area: i64 },
    Refused(u8),
}

#[derive(Clone, Copy)]
pub struct Stepped {
    pub answer: Answer,
    pub state: State,
}

// The state in which a run starts.
pub fn fresh_state() -> State
    ensures { result ≡ fresh }
{
    State {
        loaded: None,
        q: 0,
        s: 1000000,
        mode: Mode::Absolute,
        stored: None,
        integration: Integration::Idle,
    }
}
