// Whether sheets and events that are handed over as the bytes of their records, as a C program has them, can be written as a session file.
#![tactic(auto)]

ghost use Rattle.std.specs.Prelude.{◌≡◌, map};
ghost use Rattle.entries.specs.Entries.{entry_of};
ghost use Rattle.contents.specs.Contents.{every, is_plain, is_known, sheets_in};
ghost use Rattle.contents.specs.Packed.{packed, events_in};

use entries::entry_of;
use layout::records::{event_at, sheet_at};
use rules::Entry;

// Whole records, each of them right: a sheet with its zero bytes, an event of a known kind with its.
#[tactic(auto, unfolding(contents::specs::Packed::packed))]
pub fn is_packed(sheets: &[u8], events: &[u8]) -> bool
    ensures { result ≡ packed sheets.now events.now }
{
    sheets.len() % 24 == 0 && events.len() % 24 == 0 && are_plain(sheets) && are_known(events)
}

// The last four bytes of each sheet are zero.
fn are_plain(sheets: &[u8]) -> bool
    ensures { result ≡ every is_plain (sheets_in sheets.now) }
{
    sheets
        .chunks_exact(24)
        .all(|sheet| sheet_at(sheet, 0).rest == 0)
}

// Each event is of a known kind, and zero where it must be.
fn are_known(events: &[u8]) -> bool
    ensures { result ≡ every is_known (map entry_of (events_in events.now)) }
{
    events.chunks_exact(24).all(|event| matches!(entry_of(event_at(event, 0)), Entry::Known(_)))
}
