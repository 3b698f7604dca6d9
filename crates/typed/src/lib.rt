// Typed sheets and events, as a lesson plan has them, as the records of a session file.
#![tactic(auto)]

ghost use Rattle.std.specs.Prelude.{◌≡◌};
ghost use Rattle.layout.specs.Records.{SheetFits, EventFits};
ghost use Rattle.entries.specs.Entries.{event_with, record_of_event};
ghost use Rattle.contents.specs.Plan.{record_of_sheet};

use contents::PlannedSheet;
use layout::{EventRecord, SheetRecord};
use rules::Event;

// The record of a sheet: its last four bytes are zero.
pub fn sheet_record(s: PlannedSheet) -> SheetRecord
    ensures { (result ≡ record_of_sheet s) × SheetFits result }
{
    SheetRecord {
        a1: s.a1,
        a2: s.a2,
        a3: s.a3,
        t0: s.t0,
        k: s.k,
        rest: 0,
    }
}

// The record that is read back as this event: zero where its kind has no field.
pub fn event_record(event: Event) -> EventRecord
    ensures { (result ≡ record_of_event event) × EventFits result }
{
    match event {
        Event::Load { index } => event_with(1, 0, index, 0, 0, 0),
        Event::Zero { raw } => event_with(2, raw, 0, 0, 0, 0),
        Event::Span { at, cylinder } => event_with(3, at.raw, cylinder, at.p, at.t, at.e),
        Event::Reference { cylinder, e } => event_with(4, 0, cylinder, 0, 0, e),
        Event::Absolute => event_with(5, 0, 0, 0, 0, 0),
        Event::Sample { at } => event_with(6, at.raw, 0, at.p, at.t, at.e),
        Event::Start => event_with(7, 0, 0, 0, 0, 0),
        Event::Stop => event_with(8, 0, 0, 0, 0, 0),
        Event::Area => event_with(9, 0, 0, 0, 0, 0),
        Event::StartShort => event_with(10, 0, 0, 0, 0, 0),
    }
}

// A record with its three zero bytes.
fn event_with(kind: u8, raw: i32, cylinder: u32, p: u32, t: u32, e: u32) -> EventRecord
    ensures { (result ≡ event_with kind raw cylinder p t e) × EventFits result }
{
    EventRecord {
        kind,
        pad: 0,
        raw,
        cylinder,
        p,
        t,
        e,
    }
}
