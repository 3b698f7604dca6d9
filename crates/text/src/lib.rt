// Text in ASCII, put into a lent buffer: an answer as a line, and what its line is made of.
#![tactic(auto)]

ghost use Rattle.std.specs.Prelude.{◌≡◌, length};
ghost use Rattle.text.specs.Line.{decimal};

pub mod writer;

// How many digits a number has in decimal, so that it can be set to the right of a column before it is put.
pub fn digits(n: u64) -> usize
    ensures { result ≡ length (decimal n) }
{
    if n >= 10 { 1 + digits(n / 10) } else { 1 }
}
