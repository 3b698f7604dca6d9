// The writer of lesson plans for sheets and events that are handed over as the bytes of their records, as a C program has them. Its stack is
// small: nothing is copied but into the lent buffer.
#![tactic(auto)]

ghost use Rattle.std.specs.Prelude.{ℕ, List, ◌≡◌, ◌+◌, ◌≤◌, length};
ghost use mathlib.Core.List.{flat_map};
ghost use Rattle.fields.specs.Fields.{splice};
ghost use Rattle.layout.specs.Records.{record_at, sheet_of, sheet_bytes, event_of, event_bytes};
ghost use Rattle.layout.specs.Lent.{Puts};
ghost use Rattle.layout.proofs.RoundTrips.{length_sheet, length_event};
ghost use Rattle.layout.specs.Ended.{status_of, written_of};
ghost use Rattle.contents.specs.Packed.{packed_status};
ghost use Rattle.validation.specs.Parts.{pieces_in};
ghost use Rattle.packing.specs.Write.{FillsPacked};

use heading::put_header;
use layout::records::{event_at, put_event, put_sheet, sheet_at};
use layout::{EventRecord, SheetRecord, TurnedAway};
use validation::is_packed;

// Writes the session file of these sheets and events at the start of a lent buffer, and tells how many bytes it has; or turns them away with
// 14, 11 or 15, which leaves the buffer as it was.
pub fn write_records(sheets: &[u8], events: &[u8], out: &mut [u8]) -> Result<usize, TurnedAway>
    ensures { FillsPacked sheets.now events.now out.old (status_of result) (written_of result) out.new }
{
    accept(sheets, events, out.len())?;
    put_header(out, sheets.len() / 24, events.len() / 24);
    let at = put_records::<SheetRecord>(sheets, out, 16);
    let written = put_records::<EventRecord>(events, out, at);
    Ok(written)
}

// Whether these records are written to a buffer of this length, or turned away: 14 before 11 before 15.
#[tactic(auto, unfolding(contents::specs::Packed::packed_status))]
fn accept(sheets: &[u8], events: &[u8], room: usize) -> Result<(), TurnedAway>
    ensures { status_of result ≡ packed_status sheets.now events.now room }
{
    // 16 and 2,700 records.
    if 384 < sheets.len() || 64800 < events.len() {
        return Err(TurnedAway::TooMany);
    }
    if !is_packed(sheets, events) {
        return Err(TurnedAway::Malformed);
    }
    if room < 16 + sheets.len() + events.len() {
        return Err(TurnedAway::NoRoomForFile);
    }
    Ok(())
}

// What a slice holds the records of.
trait Part {
    // A record's bytes, read and put.
    ghost bytes: { List ℕ → List ℕ };

    // Puts the record that stands at an offset of a slice. All other bytes stay.
    fn put(s: &[u8], from: usize, out: &mut [u8], at: usize)
        requires { (from + 24 ≤ length s.now) × (at + 24 ≤ length out.old) }
        ensures { out.new ≡ splice out.old at (bytes (record_at s.now from)) };

    ghost sized: { (piece : List ℕ) → length (bytes piece) ≡ 24 };
}

impl Part for SheetRecord {
    ghost bytes = { λ piece. sheet_bytes (sheet_of piece) };

    ghost sized = { λ piece. length_sheet (sheet_of piece) };

    fn put(s: &[u8], from: usize, out: &mut [u8], at: usize) {
        put_sheet(out, at, sheet_at(s, from));
    }
}

impl Part for EventRecord {
    ghost bytes = { λ piece. event_bytes (event_of piece) };

    ghost sized = { λ piece. length_event (event_of piece) };

    fn put(s: &[u8], from: usize, out: &mut [u8], at: usize) {
        put_event(out, at, event_at(s, from));
    }
}

// Puts the records of a slice one after the other, from an offset on, and answers the position past them.
fn put_records<P: Part>(s: &[u8], out: &mut [u8], at: usize) -> usize
    requires { at + length s.now ≤ length out.old }
    ensures { Puts out.old at (flat_map P.bytes (pieces_in s.now)) out.new result }
{
    let count = s.len() / 24;
    for i in 0..count {
        P::put(s, 24 * i, out, at + 24 * i);
    }
    at + 24 * count
}
