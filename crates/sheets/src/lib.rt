// The list of sheets, as the bytes of its records, and what a load finds there.
#![tactic(auto)]

ghost use Rattle.std.specs.Prelude.{◌≡◌};
ghost use Rattle.sheets.specs.Sheets.{as_sheet, record_within, lookup_of};

use curve::Sheet;
use curve::limits::sheet_within;
use layout::SheetRecord;
use layout::records::sheet_at;
use refusals::Refusal;

// The sheet that a load finds at its index.
pub fn find_sheet(sheets: &[u8], index: u32) -> Result<Sheet, Refusal>
    ensures { result ≡ lookup_of sheets.now index }
{
    let i = index as usize;
    if sheets.len() / 24 <= i {
        return Err(Refusal::NoSheet);
    }
    let record = sheet_at(sheets, 24 * i);
    if !record_within(record) {
        return Err(Refusal::BadSheet);
    }
    Ok(sheet_of(record))
}

// A record's numbers as a sheet, for coefficients that are not below 0.
fn sheet_of(r: SheetRecord) -> Sheet
    ensures { result ≡ as_sheet r }
{
    Sheet {
        a1: u64::from(r.a1.unsigned_abs()),
        a2: u64::from(r.a2.unsigned_abs()),
        a3: u64::from(r.a3.unsigned_abs()),
        t0: r.t0 as u64,
        k: r.k as u64,
    }
}

fn record_within(r: SheetRecord) -> bool
    ensures { result ≡ record_within r }
{
    r.a1 >= 0 && r.a2 >= 0 && r.a3 >= 0 && sheet_within(sheet_of(r)) && r.rest == 0
}
