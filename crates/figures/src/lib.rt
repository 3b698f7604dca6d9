// Figures and ordinals at the right end of their columns, in ASCII, put by a writer. All other bytes of its buffer stay.
#![tactic(auto)]

ghost use Rattle.std.specs.Prelude.{◌≡◌, ◌∷◌, ◌+◌, ◌≤◌, ◌<◌, nat_abs, length};
ghost use Rattle.text.specs.Line.{decimal};
ghost use Rattle.text.specs.Writing.{Writes};
ghost use Rattle.figures.specs.Figures.{right, pointed, figure, sign_byte};

use rounding::near;
use text::digits;
use text::writer::Writer;

// Puts a value in µmol/mol with two decimals at the right end of 14 columns. The sign is that of the rounded figure, so that what rounds to
// nothing has none.
pub fn put_figure(to: &mut Writer<'_>, x: i64)
    requires { (to.old.at + 14 ≤ length to.old.out.now) × (nat_abs x ≤ 9990000000000000) }
    ensures puts { Writes to.old (right 14 (figure x)) to.new }
    ensures value { to.new.at ≡ to.old.at + 14 }
{
    let hundredths = near(x, 10000);
    put_hundredths(to, sign_of(hundredths), hundredths.unsigned_abs());
}

// What stands before the digits.
fn sign_of(x: i64) -> u8
    ensures { result ≡ sign_byte x }
{
    if x < 0 { b'-' } else { b' ' }
}

// Puts so many hundredths, with their sign's byte before them, at the right end of 14 columns.
fn put_hundredths(to: &mut Writer<'_>, sign: u8, n: u64)
    requires { (to.old.at + 14 ≤ length to.old.out.now) × (n < 1000000000000) }
    ensures puts { Writes to.old (right 14 (sign ∷ pointed n)) to.new }
    ensures value { to.new.at ≡ to.old.at + 14 }
{
    put_text(to, b"              ");
    to.at -= 4 + digits(n / 100);
    to.byte(sign);
    put_pointed(to, n);
}

// Puts hundredths as a number with two decimals.
fn put_pointed(to: &mut Writer<'_>, n: u64)
    requires { to.old.at + length (pointed n) ≤ length to.old.out.now }
    ensures { Writes to.old (pointed n) to.new }
{
    to.decimal(n / 100);
    to.byte(b'.');
    to.byte(b'0' + (n % 100 / 10) as u8);
    to.byte(b'0' + (n % 10) as u8);
}

// Puts an ordinal at the right end of 6 columns.
pub fn put_ordinal(to: &mut Writer<'_>, n: u64)
    requires { (to.old.at + 6 ≤ length to.old.out.now) × (n < 1000000) }
    ensures puts { Writes to.old (right 6 (decimal n)) to.new }
    ensures value { to.new.at ≡ to.old.at + 6 }
{
    put_text(to, b"      ");
    to.at -= digits(n);
    to.decimal(n);
}

// Puts a text, which is to be a literal, as are the spaces that fill a column: of a copy of unknown length, and of a loop that fills, a
// compiler makes a call of the C library, and a host without one could not link it.
pub fn put_text(to: &mut Writer<'_>, text: &[u8])
    requires { to.old.at + length text.now ≤ length to.old.out.now }
    ensures { Writes to.old text.now to.new }
{
    to.out[to.at..to.at + text.len()].copy_from_slice(text);
    to.at += text.len();
}
