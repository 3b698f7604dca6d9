// A lent buffer with the place where the next piece goes. Each method puts its piece there and moves the place past it, and all other bytes
// stay.
#![tactic(auto)]

ghost use Rattle.std.specs.Prelude.{◌≡◌, [], ◌∷◌, ◌+◌, ◌≤◌, ◌<◌, length};
ghost use Rattle.text.specs.Writing.{Writes};
ghost use Rattle.text.specs.Line.{decimal, signed_decimal, line_of, line_room};

use layout::AnswerRecord;

#[derive(Drop)]
pub struct Writer<'a> {
    pub out: &'a mut [u8],
    pub at: usize,
}

impl<'a> Writer<'a> {
    // Puts the line of an answer: ordinal, kind, refusal, m, x, y.
    pub fn line(&mut self, ordinal: u32, a: AnswerRecord)
        requires { self.old.at + line_room ≤ length self.old.out.now }
        ensures puts { Writes self.old (line_of ordinal a) self.new }
        ensures upper_bound { self.new.at ≤ self.old.at + line_room }
    {
        self.decimal(ordinal as u64);
        self.spaced(a.kind as i64);
        self.spaced(a.refusal as i64);
        self.spaced(a.m as i64);
        self.spaced(a.x);
        self.spaced(a.y);
        self.byte(b'\n');
    }

    // Puts a number, with a space before it.
    fn spaced(&mut self, x: i64)
        requires { self.old.at + length (32 ∷ signed_decimal x) ≤ length self.old.out.now }
        ensures { Writes self.old (32 ∷ signed_decimal x) self.new }
    {
        self.byte(b' ');
        self.signed(x);
    }

    // Puts a signed number in decimal: a minus sign below 0, then how far it is from 0.
    fn signed(&mut self, x: i64)
        requires { self.old.at + length (signed_decimal x) ≤ length self.old.out.now }
        ensures { Writes self.old (signed_decimal x) self.new }
    {
        let size = x.unsigned_abs();
        if x < 0 {
            self.byte(b'-');
            self.decimal(size);
        } else {
            self.decimal(size);
        }
    }

    // Puts a number in decimal, with no leading zeros: the digits of its tenth, then its last one.
    pub fn decimal(&mut self, n: u64)
        requires { self.old.at + length (decimal n) ≤ length self.old.out.now }
        ensures { Writes self.old (decimal n) self.new }
    {
        if n < 10 {
            self.byte(b'0' + n as u8);
        } else {
            self.decimal(n / 10);
            self.byte(b'0' + (n % 10) as u8);
        }
    }

    // Puts a byte.
    pub fn byte(&mut self, b: u8)
        requires { self.old.at < length self.old.out.now }
        ensures { Writes self.old (b ∷ []) self.new }
    {
        self.out[self.at] = b;
        self.at += 1;
    }
}
