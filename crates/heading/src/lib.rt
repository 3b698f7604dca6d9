// The header of a session file that is written.
#![tactic(auto)]

ghost use Rattle.std.specs.Prelude.{◌≤◌, length};
ghost use Rattle.layout.specs.Lent.{Puts};
ghost use Rattle.format.specs.File.{header_bytes};

use fields::put_words;

// Puts the header of a file of so many sheets and events at the start of a lent buffer. All other bytes stay.
pub fn put_header(out: &mut [u8], sheets: usize, events: usize)
    requires { (sheets ≤ 16) × (events ≤ 2700) × (16 ≤ length out.old) }
    ensures { Puts out.old 0 (header_bytes sheets events) out.new 16 }
{
    let n = sheets as u32;
    let m = events as u32;
    let header = [n, 16, m, 16 + 24 * n];
    put_words(out, 0, &header);
}
