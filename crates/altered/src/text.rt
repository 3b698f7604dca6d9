// What the program prints of a finding, of what stands stored, and of an answer.
use refusals::Refusal;
use rules::Answer;
use sampling::SampleValues;
use std::fmt;
use store::Finding;

// The signal that was found, or nothing.
#[derive(Clone, Copy)]
pub(crate) struct FoundSignal(pub(crate) Option<u64>);

impl fmt::Display for FoundSignal {
    fn fmt<W: fmt::Write>(&self, f: &mut fmt::Formatter<W>) -> fmt::Result {
        match self.0 {
            Some(r) => write!(f, "{r}"),
            None => f.write_str("nothing"),
        }
    }
}

// What stands stored: P and T, and what was found there.
#[derive(Clone, Copy)]
pub(crate) struct Kept(pub(crate) Option<Finding>);

impl fmt::Display for Kept {
    fn fmt<W: fmt::Write>(&self, f: &mut fmt::Formatter<W>) -> fmt::Result {
        match self.0 {
            Some(found) => write!(f, "{} {} {}", found.p, found.t, FoundSignal(found.r)),
            None => f.write_str("empty"),
        }
    }
}

// Refusal, m, x and y of an answer.
#[derive(Clone, Copy)]
pub(crate) struct Figures {
    refusal: u8,
    m: u64,
    x: i64,
    y: i64,
}

impl Figures {
    fn accepted(m: u64, x: i64, y: i64) -> Self {
        Figures {
            refusal: 0,
            m,
            x,
            y,
        }
    }

    fn refused(refusal: u8) -> Self {
        Figures {
            refusal,
            m: 0,
            x: 0,
            y: 0,
        }
    }
}

impl From<Answer> for Figures {
    fn from(a: Answer) -> Self {
        match a {
            Answer::Done => Figures::accepted(0, 0, 0),
            Answer::Zeroed(q) => Figures::accepted(0, q, 0),
            Answer::Spanned(s) => Figures::accepted(s, 0, 0),
            Answer::Reading { r, wet, dry } => Figures::accepted(r, wet, dry),
            Answer::Area { n, area } => Figures::accepted(n, area, 0),
            Answer::Refused(number) => Figures::refused(number),
        }
    }
}

impl From<Result<SampleValues, Refusal>> for Figures {
    fn from(x: Result<SampleValues, Refusal>) -> Self {
        match x {
            Ok(v) => Figures::accepted(v.r, v.wet, v.dry),
            Err(why) => Figures::refused(why.number()),
        }
    }
}

impl fmt::Display for Figures {
    fn fmt<W: fmt::Write>(&self, f: &mut fmt::Formatter<W>) -> fmt::Result {
        write!(f, "{} {} {} {}", self.refusal, self.m, self.x, self.y)
    }
}
