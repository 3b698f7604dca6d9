// The header of a session file: four u32, and what they must be.
ghost use Rattle.std.specs.Prelude.{◌≡◌, ◌≤◌, length};
ghost use Rattle.format.specs.Header.{sheet_count, event_count, first_event, well_formed};

use fields::u32_at;

// How many sheets the header says.
pub fn sheet_count(file: &[u8]) -> usize
    requires { 16 ≤ length file.now }
    ensures { result ≡ sheet_count file.now }
{
    u32_at(file, 0) as usize
}

// How many events the header says.
pub fn event_count(file: &[u8]) -> usize
    requires { 16 ≤ length file.now }
    ensures { result ≡ event_count file.now }
{
    u32_at(file, 8) as usize
}

// Where the first event stands: after the sheets.
pub fn first_event(file: &[u8]) -> usize
    requires { 16 ≤ length file.now }
    ensures { result ≡ first_event file.now }
{
    16 + 24 * u32_at(file, 0) as usize
}

// The counts are within their limits, the offsets are what they must be, and the file ends with its last event.
pub fn well_formed(file: &[u8]) -> bool
    ensures { result ≡ well_formed file.now }
{
    // There is a header to read.
    if file.len() < 16 {
        return false;
    }
    // Words of 32 bits, so that no sum below overflows.
    let sheets = u32_at(file, 0) as usize;
    let events = u32_at(file, 8) as usize;
    let from = 16 + 24 * sheets;
    (sheets <= 16)
        & (u32_at(file, 4) == 16)
        & (events <= 2700)
        & (u32_at(file, 12) as usize == from)
        & (file.len() == from + 24 * events)
}
