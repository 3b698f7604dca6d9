// A sample under a sheet, a zero, a span and a mode: check 6, the reference signal, and the reading. And the span setting under
// a sheet and a zero.
#![tactic(auto)]

ghost use Rattle.std.specs.Prelude.{◌≡◌, true, ◌≤◌, nat_abs};
ghost use Rattle.curve.specs.Limits.{SheetOk, AirOk};
ghost use Rattle.curve.specs.Absolute.{absolute_of};
ghost use Rattle.reference.specs.Search.{found_value};
ghost use Rattle.sampling.specs.Sample.{air_of, mode_within, input_within, vapour_within, checked_on, searched_of, values_of, read_of, sampled_on};
ghost use Rattle.sampling.specs.Span.{spanned_on};

use curve::limits::{air_within, within};
use curve::steps::dry;
use curve::{Air, Sheet};
use reference::signal::{against, from_raw};
use reference::{reference_signal, span_setting};
use refusals::Refusal;

// A reference gas: the cylinder Cr and its vapour pressure er.
#[derive(Clone, Copy)]
pub struct Cylinder {
    pub c: u64,
    pub e: u64,
}

#[derive(Clone, Copy)]
pub enum Mode {
    Absolute,
    Against(Cylinder),
}

// What the analyser and the room give, at the file's widths.
#[derive(Clone, Copy)]
pub struct Measurement {
    pub raw: i32,
    pub p: u32,
    pub t: u32,
    pub e: u32,
}

// What an accepted sample gives: the reference signal, 0 in absolute mode, and the wet and the dry value.
#[derive(Clone, Copy)]
pub struct SampleValues {
    pub r: u64,
    pub wet: i64,
    pub dry: i64,
}

// The limits of a mode.
pub fn mode_within(mode: Mode) -> bool
    ensures { result ≡ mode_within mode }
{
    match mode {
        Mode::Absolute => true,
        Mode::Against(gas) => gas.c <= 3000000000 && gas.e <= 11500,
    }
}

// The values of a sample under a sheet, zero, span and mode, with what was found for the reference.
pub fn sample_on(
    s: Sheet,
    q: i64,
    span: u64,
    mode: Mode,
    at: Measurement,
    finding: Option<u64>,
) -> Result<SampleValues, Refusal>
    requires { SheetOk s × (nat_abs q ≤ 20000000) × (span ≤ 2000000) × (mode_within mode ≡ true) × (found_value finding ≤ 150000000) }
    ensures { result ≡ sampled_on s q span mode at finding }
{
    if !inputs_within(mode, at) {
        return Err(Refusal::BadInput);
    }
    let a = air_of(at);
    let v = from_raw(i64::from(at.raw), q, span);
    read(s, mode, v, a, finding)
}

// Check 6 of a sample: raw, P, T and e, and the reference's vapour pressure.
pub fn inputs_within(mode: Mode, at: Measurement) -> bool
    requires { mode_within mode ≡ true }
    ensures { result ≡ checked_on mode at }
{
    input_within(at) && vapour_within(mode, air_of(at))
}

// Check 6 of a span and a sample: raw, P, T and e.
fn input_within(at: Measurement) -> bool
    ensures { result ≡ input_within at }
{
    at.raw.unsigned_abs() <= 150000000 && air_within(air_of(at))
}

fn vapour_within(mode: Mode, a: Air) -> bool
    requires { mode_within mode ≡ true }
    ensures { result ≡ vapour_within mode a }
{
    match mode {
        Mode::Absolute => true,
        Mode::Against(gas) => 10 * gas.e <= a.p,
    }
}

pub fn air_of(at: Measurement) -> Air
    ensures { result ≡ air_of at }
{
    Air {
        p: at.p as u64,
        t: at.t as u64,
        e: at.e as u64,
    }
}

// The reference signal is that of this P and T, in air with the cylinder's vapour pressure. In absolute mode nothing is
// searched for.
pub fn searched(s: Sheet, mode: Mode, a: Air) -> Option<u64>
    requires { SheetOk s × AirOk a × (mode_within mode ≡ true) × (vapour_within mode a ≡ true) }
    ensures { result ≡ searched_of s mode a }
{
    match mode {
        Mode::Absolute => None,
        Mode::Against(gas) => {
            let air = Air {
                p: a.p,
                t: a.t,
                e: gas.e,
            };
            reference_signal(s, gas.c, air)
        }
    }
}

// The signal v by the mode, with what was found for the reference.
fn read(s: Sheet, mode: Mode, v: i64, a: Air, finding: Option<u64>) -> Result<SampleValues, Refusal>
    requires { SheetOk s × AirOk a × (nat_abs v ≤ 340000000) × (found_value finding ≤ 150000000) }
    ensures { result ≡ read_of s mode v a finding }
{
    match mode {
        Mode::Absolute => values(0, s, v, a),
        Mode::Against(_) => {
            let r = finding.ok_or(Refusal::NoReference)?;
            values(r, s, against(v, r, s.k), a)
        }
    }
}

// The wet and the dry value of the signal v, beside the reference signal r.
fn values(r: u64, s: Sheet, v: i64, a: Air) -> Result<SampleValues, Refusal>
    requires { SheetOk s × AirOk a }
    ensures { result ≡ values_of r a (absolute_of s v a) }
{
    let wet = curve::absolute(s, v, a)?;
    Ok(SampleValues {
        r,
        wet,
        dry: dry(wet, a),
    })
}

// The span that reads a cylinder, under a sheet and a zero. Only inputs and cylinders that pass checks 6 and 4 are searched for.
pub fn span_on(s: Sheet, q: i64, at: Measurement, cylinder: u32) -> Result<u64, Refusal>
    requires { SheetOk s × (nat_abs q ≤ 20000000) }
    ensures { result ≡ spanned_on s q at cylinder }
{
    if !input_within(at) {
        return Err(Refusal::BadInput);
    }
    if !within(1, 3000000000, cylinder as u64) {
        return Err(Refusal::BadCylinder);
    }
    span_setting(s, i64::from(at.raw), q, cylinder as u64, air_of(at)).ok_or(Refusal::NoSpan)
}
