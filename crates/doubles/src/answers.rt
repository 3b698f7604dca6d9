// Answer records as doubles. A whole number below 2^53 in size becomes a double by `as`, and nothing is lost.
ghost use Rattle.std.specs.Prelude.{◌≡◌};
ghost use Rattle.layout.specs.Records.{answer_at};
ghost use Rattle.doubles.specs.Doubles.{below_limit, double_in, value_as, host_sample, host_area, ExactReading, ExactArea, record_in, host_sample_in, host_area_in};

use crate::{Doubles, Refused};
use layout::AnswerRecord;
use layout::records::answer_at;

const RECORD_BYTES: usize = 24;

// What the record of a sample's answer has for its kind, and of an area event's.
const SAMPLE: u8 = 6;

const AREA: u8 = 9;

const MALFORMED: Refused = Refused { number: 11 };

// The answer to a sample. A refused record keeps its number; one that is no accepted sample's is malformed.
pub fn of_sample(a: AnswerRecord) -> Result<Doubles, Refused>
    ensures value { result ≡ host_sample a }
    ensures exactly { ExactReading result a }
{
    Ok(Doubles {
        wet: value_as(SAMPLE, a)?,
        dry: double(a.y)?,
        signal: a.m as f64,
    })
}

// The answer to an area event, in the same way.
pub fn of_area(a: AnswerRecord) -> Result<f64, Refused>
    ensures value { result ≡ host_area a }
    ensures exactly { ExactArea result a }
{
    value_as(AREA, a)
}

// The answer to a sample from the bytes of its record. What stands after them is not read.
pub fn sample_in(answer: &[u8]) -> Result<Doubles, Refused>
    ensures value { result ≡ host_sample_in answer.now }
    ensures exactly { ExactReading result (answer_at answer.now 0) }
{
    of_sample(record_in(answer)?)
}

// The answer to an area event from the bytes of its record.
pub fn area_in(answer: &[u8]) -> Result<f64, Refused>
    ensures value { result ≡ host_area_in answer.now }
    ensures exactly { ExactArea result (answer_at answer.now 0) }
{
    of_area(record_in(answer)?)
}

// The record that the bytes begin with. Fewer than its 24 are malformed.
fn record_in(answer: &[u8]) -> Result<AnswerRecord, Refused>
    ensures { result ≡ record_in answer.now }
{
    if answer.len() < RECORD_BYTES {
        return Err(MALFORMED);
    }
    Ok(answer_at(answer, 0))
}

// The value x of an accepted answer of a kind.
fn value_as(kind: u8, a: AnswerRecord) -> Result<f64, Refused>
    ensures { result ≡ value_as kind a }
{
    if a.refusal != 0 {
        return Err(Refused { number: a.refusal });
    }
    if a.kind != kind {
        return Err(MALFORMED);
    }
    double(a.x)
}

// A whole number as a double. One that is too large is malformed.
fn double(x: i64) -> Result<f64, Refused>
    ensures { result ≡ double_in x }
{
    if below_limit(x) {
        Ok(x as f64)
    } else {
        Err(MALFORMED)
    }
}

// Below 2^53 in size: every whole number so small is a double.
fn below_limit(x: i64) -> bool
    ensures { result ≡ below_limit x }
{
    x.unsigned_abs() < 9007199254740992
}
