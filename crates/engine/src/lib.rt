// Document 01, "Engine and events": one step.
#![tactic(auto)]

ghost use Rattle.std.specs.Prelude.{◌≡◌, true};
ghost use Rattle.events.specs.Events.{event_rule};
ghost use Rattle.rules.specs.Limits.{workable as Limits·workable};
ghost use Rattle.engine.specs.Step.{step_of};

use crate::limits::workable;
use counting::Chart;
use events::{area, malformed, sample, start, stop};
use refusals::Refusal;
use rules::kinds::{absolute, load, reference, refuse, span, zero};
use rules::{Entry, Event, State, Stepped};

mod limits;

// One step, over the bytes of the list of sheets: the answer and the next state. A record may hold numbers too large for the
// arithmetic, which no list of events leaves: it is tested once, here, refused with 1 and kept.
pub fn step(sheets: &[u8], state: State, entry: Entry) -> Stepped
    ensures { result ≡ step_of sheets.now state entry }
{
    if !workable(state) {
        return refuse(state, Refusal::NoSheet.number());
    }
    match entry {
        Entry::Known(event) => known(sheets, state, event),
        Entry::Malformed(kind) => malformed(state, kind),
    }
}

// The rule of each kind.
fn known(sheets: &[u8], st: State, event: Event) -> Stepped
    requires { Limits·workable st ≡ true }
    ensures { result ≡ event_rule sheets.now st event }
{
    match event {
        Event::Load { index } => load(sheets, st, index),
        Event::Zero { raw } => zero(st, raw),
        Event::Span { at, cylinder } => span(st, at, cylinder),
        Event::Reference { cylinder, e } => reference(st, cylinder, e),
        Event::Absolute => absolute(st),
        Event::Sample { at } => sample(st, at),
        Event::Start => start(st, Chart::Long),
        Event::Stop => stop(st),
        Event::Area => area(st),
        Event::StartShort => start(st, Chart::Short),
    }
}
