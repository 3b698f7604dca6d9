// Event records as entries: an event of one of the kinds 1 to 10, or a malformed one, which is refusal 11.
#![tactic(auto)]

ghost use Rattle.std.specs.Prelude.{◌≡◌, ◌&&◌, eqb};
ghost use Rattle.std.specs.Option.{option_map_or};
ghost use Rattle.rules.specs.declared.Entry.TheVariants.{Known, Malformed};
ghost use Rattle.entries.specs.Entries.{no_raw, no_cylinder, no_air, no_fields, measured as Entries·measured, entry_of};

use layout::EventRecord;
use rules::{Entry, Event};
use sampling::Measurement;

// The entry of a record, whatever its bytes were.
pub fn entry_of(r: EventRecord) -> Entry
    ensures { result ≡ entry_of r }
{
    event_of(r).map_or(Entry::Malformed(r.kind), Entry::Known)
}

// The event of the record's kind, if the three bytes after the kind are zero, and the fields that the kind lacks.
#[tactic(auto, unfolding(crate::specs::Entries::entry_of))]
fn event_of(r: EventRecord) -> Option<Event>
    ensures { option_map_or (λ e. Known e) result (Malformed r.kind) ≡ entry_of r }
{
    if r.pad != 0 {
        return None;
    }
    match r.kind {
        1 => (no_raw(r) && no_air(r)).then_some(Event::Load { index: r.cylinder }),
        2 => (no_cylinder(r) && no_air(r)).then_some(Event::Zero { raw: r.raw }),
        3 => Some(Event::Span {
            at: measured(r),
            cylinder: r.cylinder,
        }),
        4 => reference_only(r).then_some(Event::Reference {
            cylinder: r.cylinder,
            e: r.e,
        }),
        5 => no_fields(r).then_some(Event::Absolute),
        6 => no_cylinder(r).then_some(Event::Sample { at: measured(r) }),
        7 => no_fields(r).then_some(Event::Start),
        8 => no_fields(r).then_some(Event::Stop),
        9 => no_fields(r).then_some(Event::Area),
        10 => no_fields(r).then_some(Event::StartShort),
        _ => None,
    }
}

fn no_raw(r: EventRecord) -> bool
    ensures { result ≡ no_raw r }
{
    r.raw == 0
}

fn no_cylinder(r: EventRecord) -> bool
    ensures { result ≡ no_cylinder r }
{
    r.cylinder == 0
}

fn no_air(r: EventRecord) -> bool
    ensures { result ≡ no_air r }
{
    r.p == 0 && r.t == 0 && r.e == 0
}

// A reference has C and e.
fn reference_only(r: EventRecord) -> bool
    ensures { result ≡ (no_raw r && eqb r.p 0 && eqb r.t 0) }
{
    no_raw(r) && r.p == 0 && r.t == 0
}

fn no_fields(r: EventRecord) -> bool
    ensures { result ≡ no_fields r }
{
    no_raw(r) && no_cylinder(r) && no_air(r)
}

fn measured(r: EventRecord) -> Measurement
    ensures { result ≡ Entries·measured r }
{
    Measurement {
        raw: r.raw,
        p: r.p,
        t: r.t,
        e: r.e,
    }
}
