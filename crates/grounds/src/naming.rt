// The ground of a sample. The engine is asked, and where it answers with 8 its tests are made again in their order, to see which was the first that
// held.
ghost use Rattle.std.specs.Prelude.{◌≡◌, true, ◌≤◌, eqb, nat_abs, Err};
ghost use Rattle.curve.specs.Limits.{SheetOk, AirOk};
ghost use Rattle.curve.specs.declared.OutOfRange.{OutOfRange};
ghost use Rattle.curve.specs.Absolute.{absolute_of};
ghost use Rattle.reference.specs.Search.{found_value};
ghost use Rattle.refusals.specs.declared.Refusal.{Refusal};
ghost use Rattle.sampling.specs.Sample.{signal_read};
ghost use Rattle.rules.specs.Answer.{refusal_of};
ghost use Rattle.rules.specs.Limits.{loaded_within};
ghost use Rattle.events.specs.Sample.{sampled_of};
ghost use Rattle.engine.specs.Step.{SteppedBy};
ghost use Rattle.grounds.specs.Grounds.{first_ground, ground_under, ground_of, entry_ground};

use crate::Ground;
use curve::steps::reduced;
use curve::{Air, Sheet};
use engine::step;
use reference::signal::{against, from_raw};
use refusals::Refusal;
use rules::{Answer, Entry, Event, State, Stepped};
use sampling::{Measurement, Mode, air_of};
use store::finding_in;

// The ground on which the engine would refuse a sample with 8 at this state, or none.
pub fn ground(st: State, at: Measurement) -> Option<Ground>
    ensures { result ≡ ground_of st at }
{
    // A sample sees no sheets.
    let entry = Entry::Known(Event::Sample { at });
    ground_of(st, entry, step(&[], st, entry))
}

// The same of an entry that was stepped already, as a run over a file has it. What the sample went by is in the state after it: what is set stays, and
// the finding stands stored. The state before it is there for the contract alone, so that the compiled run need not keep it.
pub fn ground_of(st: State, entry: Entry, next: Stepped) -> Option<Ground>
    requires { SteppedBy st entry next }
    ensures { result ≡ entry_ground st entry }
{
    if !over_range(next.answer) {
        return None;
    }
    let Entry::Known(Event::Sample { at }) = entry else {
        return None;
    };
    let after = next.state;
    named(after, at, finding_in(after.stored))
}

fn over_range(a: Answer) -> bool
    ensures { result ≡ eqb (refusal_of a) 8 }
{
    matches!(a, Answer::Refused(number) if number == Refusal::OverRange.number())
}

// The ground of a sample that is refused with 8, with what it went by.
fn named(st: State, at: Measurement, finding: Option<u64>) -> Option<Ground>
    requires { (loaded_within st.loaded ≡ true) × (nat_abs st.q ≤ 20000000) × (st.s ≤ 2000000) × (sampled_of st at finding ≡ Err Refusal.OverRange) × (found_value finding ≤ 150000000) }
    ensures { result ≡ ground_under st.loaded st.q st.s st.mode at finding }
{
    let Some(s) = st.loaded else {
        return None;
    };
    let v = from_raw(i64::from(at.raw), st.q, st.s);
    first_ground(s, signal(s, st.mode, finding, v), air_of(at))
}

// The signal that is read: v itself, or against what was found for the reference.
fn signal(s: Sheet, mode: Mode, finding: Option<u64>, v: i64) -> i64
    requires { SheetOk s × (found_value finding ≤ 150000000) × (nat_abs v ≤ 340000000) }
    ensures { result ≡ signal_read s mode finding v }
{
    let Mode::Against(_) = mode else {
        return v;
    };
    match finding {
        Some(r) => against(v, r, s.k),
        None => against(v, 0, s.k),
    }
}

// The first ground that holds of a signal that is refused with 8: where the first three do not, it is the last.
fn first_ground(s: Sheet, v: i64, a: Air) -> Option<Ground>
    requires { SheetOk s × AirOk a × (absolute_of s v a ≡ Err OutOfRange.OverRange) }
    ensures { result ≡ first_ground s v a }
{
    if v > 150000000 {
        return Some(Ground::SignalHigh);
    }
    if v >= s.k as i64 {
        return Some(Ground::SignalAtK);
    }
    if reduced(v, a) > 100000000 {
        return Some(Ground::ReducedHigh);
    }
    Some(Ground::WetHigh)
}
