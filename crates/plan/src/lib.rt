// Lesson plans: typed sheets and events, written as a session file into a lent buffer.
#![tactic(auto)]

ghost use Rattle.std.specs.Prelude.{ℕ, List, ◌≡◌, ◌+◌, ◌*◌, ◌≤◌, length, take};
ghost use mathlib.Core.List.{flat_map};
ghost use Rattle.layout.specs.Lent.{Puts};
ghost use Rattle.layout.specs.Ended.{status_of, written_of};
ghost use Rattle.layout.proofs.RoundTrips.{length_sheet, length_event};
ghost use Rattle.entries.specs.Entries.{record_of_event};
ghost use Rattle.format.specs.File.{Each};
ghost use Rattle.contents.specs.Plan.{record_of_sheet, planned_bytes, typed_bytes, PlannedFits, TypedFits, plan_status};
ghost use Rattle.contents.specs.Contents.{HoldsPlan};
ghost use Rattle.plan.specs.Write.{FillsPlan};

use contents::PlannedSheet;
use heading::put_header;
use layout::TurnedAway;
use layout::records::{put_event, put_sheet};
use rules::Event;
use typed::{event_record, sheet_record};

// Writes the session file of these sheets and events at the start of a lent buffer, and tells how many bytes it has; or turns them away with
// 14 or 15, which leaves the buffer as it was.
pub fn write(sheets: &[PlannedSheet], events: &[Event], out: &mut [u8]) -> Result<usize, TurnedAway>
    ensures fills_plan { FillsPlan sheets.now events.now out.old (status_of result) (written_of result) out.new }
    ensures holds_plan { status_of result ≡ 0 → HoldsPlan (take (written_of result) out.new) sheets.now events.now }
{
    accept(sheets.len(), events.len(), out.len())?;
    put_header(out, sheets.len(), events.len());
    let at = put_all(sheets, out, 16);
    let written = put_all(events, out, at);
    Ok(written)
}

// Whether so many sheets and events are written to a buffer of this length, or turned away: 14 before 15.
#[tactic(auto, unfolding(contents::specs::Plan::plan_status))]
fn accept(sheets: usize, events: usize, room: usize) -> Result<(), TurnedAway>
    ensures { status_of result ≡ plan_status sheets events room }
{
    if 16 < sheets || 2700 < events {
        return Err(TurnedAway::TooMany);
    }
    if room < 16 + 24 * sheets + 24 * events {
        return Err(TurnedAway::NoRoomForFile);
    }
    Ok(())
}

// What a plan has many of, each of which is a record of the file.
trait Planned {
    // Its record's bytes, and that its numbers have the file's widths.
    ghost bytes: { Self → List ℕ };

    ghost fits: { Self → Type 0 };

    // Puts its record at an offset. All other bytes stay.
    fn put(&self, out: &mut [u8], at: usize)
        requires { at + 24 ≤ length out.old }
        ensures { Puts out.old at (bytes self.now) out.new (at + 24) × fits self.now };

    ghost sized: { (x : Self) → length (bytes x) ≡ 24 };
}

impl Planned for PlannedSheet {
    ghost bytes = { planned_bytes };

    ghost fits = { PlannedFits };

    ghost sized = { λ s. length_sheet (record_of_sheet s) };

    fn put(&self, out: &mut [u8], at: usize) {
        put_sheet(out, at, sheet_record(*self));
    }
}

impl Planned for Event {
    ghost bytes = { typed_bytes };

    ghost fits = { TypedFits };

    ghost sized = { λ e. length_event (record_of_event e) };

    fn put(&self, out: &mut [u8], at: usize) {
        put_event(out, at, event_record(*self));
    }
}

// Puts all of them one after the other, from an offset on, and answers the position past them.
fn put_all<T: Planned>(all: &[T], out: &mut [u8], at: usize) -> usize
    requires { at + 24 * length all.now ≤ length out.old }
    ensures { Puts out.old at (flat_map T.bytes all.now) out.new result × Each T.fits all.now }
{
    for (i, one) in all.iter().enumerate() {
        one.put(out, at + 24 * i);
    }
    at + 24 * all.len()
}
