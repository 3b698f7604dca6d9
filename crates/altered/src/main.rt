// R-7: records whose stored finding was altered, handed to `step` and, for R-9, to `ground`. Document 01's bench sheet and cylinder, 1,000,000,000 with er
// 0, unless said; samples with e 0 unless said.
//
// What `stdout` holds, and where it comes from. First, for two values of K, what `step` answers to a sample at the stored P and T (refusal, R,
// wet, dry), beside it what the rules give with that R, by the reading alone, and the number of the ground that `ground` names, 0 for none. Then
// what an event does to a stored 30,000,000 (under K 10,000,000 a stored 3,000,000), which no search finds there: its answer, what stands stored
// after it, and the answer of a sample at that P and T. Last, grounds at other places, where a search is made, and in absolute mode. All of it was
// computed by the independent implementation in tests/, which works from documents 01 and 02 alone, and a test holds the file to it; but for the two
// lines of R 150,000,001, a record that the engine does not work with, whose refusal 1 and ground 0 are ours.
#![tactic(auto)]

ghost use Rattle.std.specs.Prelude.{◌≡◌, true, ◌≤◌};
ghost use Rattle.curve.specs.Limits.{SheetOk};
ghost use Rattle.reference.specs.Search.{found_value};
ghost use Rattle.sampling.specs.Sample.{mode_within};

use crate::text::{Figures, FoundSignal, Kept};
use counting::Integration;
use curve::Sheet;
use engine::step;
use grounds::naming::ground;
use grounds::number_of;
use rules::{Entry, Event, State};
use sampling::{Cylinder, Measurement, Mode, sample_on};
use std::io;
use store::Finding;

mod text;

// The list of sheets: the bench sheet as a file has it.
const SHEETS: [u8; 24] = [
    128, 209, 240, 8, 64, 75, 76, 0, 64, 75, 76, 0, 119, 116, 0, 0, 0, 194, 235, 11, 0, 0, 0, 0,
];

fn main(rt: HostRuntime) -> io::Result<()> {
    println!(rt; "K R raw | step | the rules with that R | ground")?;
    findings(&rt, 200000000)?;
    findings(&rt, 10000000)?;
    println!(rt; "event | its answer | stored after it | a sample at P 101300, T 29815")?;
    settings(&rt)?;
    samples(&rt)?;
    others(&rt)?;
    println!(rt; "a sample where 150000000 is stored at P 101300, T 29815 | ground")?;
    places(&rt)
}

// Reference signals from 0 to 150,000,000, at the smaller K and above it too, and nothing.
fn findings(rt: &impl Print, k: u64) -> io::Result<()>
    requires { (10000000 ≤ k) × (k ≤ 400000000) }
{
    for found in [
        Some(0),
        Some(1),
        Some(9999999),
        Some(10000000),
        Some(10000001),
        Some(39999999),
        Some(40000000),
        Some(40000001),
        Some(80000000),
        Some(149999999),
        Some(150000000),
        None,
    ] {
        for raw in [-20000000, 0, 10000000, 10500000] {
            row(rt, k, found, raw)?;
        }
    }
    Ok(())
}

// What `step` answers, what the rules give, and the ground, 0 for none.
fn row(rt: &impl Print, k: u64, found: Option<u64>, raw: i32) -> io::Result<()>
    requires { (10000000 ≤ k) × (k ≤ 400000000) × (found_value found ≤ 150000000) }
{
    let at = measured(raw, 101300, 29815);
    let mode = reference_mode(0);
    let st = holding(k, found, mode);
    let stepped = step(&SHEETS, st, Entry::Known(Event::Sample { at }));
    let ruled = sample_on(bench_sheet(k), 0, 1000000, mode, at, found);
    println!(rt;
        "{k} {} {raw} | {} | {} | {}",
        FoundSignal(found),
        Figures::from(stepped.answer),
        Figures::from(ruled),
        number_of(ground(st, at))
    )
}

// At the stored P and T the stored signal is over range; elsewhere a search finds one that is not, unless raw is high; in absolute mode neither counts.
// The last record is one that the engine does not work with.
fn places(rt: &impl Print) -> io::Result<()> {
    let stored = holding(200000000, Some(150000000), reference_mode(0));
    let absolute = holding(200000000, Some(150000000), Mode::Absolute);
    let beyond = holding(200000000, Some(150000001), reference_mode(0));
    let high = measured(150000000, 101299, 29815);
    for (label, st, at) in [
        ("raw 0", stored, measured(0, 101300, 29815)),
        ("raw 0, P 101299", stored, measured(0, 101299, 29815)),
        ("raw 0, T 29814", stored, measured(0, 101300, 29814)),
        ("raw 0, P 59999", stored, measured(0, 59999, 29815)),
        ("raw 150000000, P 101299", stored, high),
        ("absolute mode, raw 0", absolute, measured(0, 101300, 29815)),
        (
            "absolute mode, raw 70000000",
            absolute,
            measured(70000000, 101300, 29815),
        ),
        ("R 150000001, raw 0", beyond, measured(0, 101300, 29815)),
    ] {
        println!(rt; "{label} | {}", number_of(ground(st, at)))?;
    }
    Ok(())
}

// The bench sheet with this K in this mode, altered to hold this finding at P 101,300 and T 29,815.
fn holding(k: u64, found: Option<u64>, mode: Mode) -> State
    requires { (10000000 ≤ k) × (k ≤ 400000000) }
{
    State {
        loaded: Some(bench_sheet(k)),
        q: 0,
        s: 1000000,
        mode,
        stored: Some(Finding {
            p: 101300,
            t: 29815,
            r: found,
        }),
        integration: Integration::Idle,
    }
}

fn bench_sheet(k: u64) -> Sheet
    requires { (10000000 ≤ k) × (k ≤ 400000000) }
    ensures { SheetOk result }
{
    Sheet {
        a1: 150000000,
        a2: 5000000,
        a3: 5000000,
        t0: 29815,
        k,
    }
}

// Against the cylinder 1,000,000,000 with this vapour pressure.
fn reference_mode(e: u64) -> Mode
    requires { e ≤ 11500 }
    ensures { mode_within result ≡ true }
{
    Mode::Against(Cylinder { c: 1000000000, e })
}

fn measured(raw: i32, p: u32, t: u32) -> Measurement {
    Measurement { raw, p, t, e: 0 }
}

fn sampled(raw: i32, p: u32, t: u32) -> Event {
    Event::Sample {
        at: measured(raw, p, t),
    }
}

// A span at the stored P and T.
fn spanned() -> Event {
    Event::Span {
        at: measured(50000000, 101300, 29815),
        cylinder: 1000000000,
    }
}

// Against the cylinder 1,000,000,000 with this vapour pressure, as an event.
fn referred(e: u32) -> Event {
    Event::Reference {
        cylinder: 1000000000,
        e,
    }
}

// At the stored P and T, with another vapour pressure, which is the sample's alone.
fn damp_sample(e: u32) -> Event {
    let at = Measurement {
        raw: 0,
        p: 101300,
        t: 29815,
        e,
    };
    Event::Sample { at }
}

// Events other than samples, of which a load, a reference and an absolute empty the store where they are accepted.
fn settings(rt: &impl Print) -> io::Result<()> {
    for (label, event) in [
        ("zero 0", Event::Zero { raw: 0 }),
        ("zero 20000001", Event::Zero { raw: 20000001 }),
        ("span", spanned()),
        ("reference", referred(0)),
        ("reference e 11501", referred(11501)),
        ("absolute", Event::Absolute),
        ("load 0", Event::Load { index: 0 }),
        ("load 1", Event::Load { index: 1 }),
        ("start", Event::Start),
        ("stop", Event::Stop),
        ("area", Event::Area),
        ("short start", Event::StartShort),
    ] {
        shows(rt, label, bench_holding(), Entry::Known(event))?;
    }
    Ok(())
}

// Samples at the stored P and T, and at others: what is found there stays stored, also where the sample is refused, unless it is with 6.
fn samples(rt: &impl Print) -> io::Result<()> {
    for (label, event) in [
        ("sample", sampled(0, 101300, 29815)),
        ("raw -100000000", sampled(-100000000, 101300, 29815)),
        ("raw 150000001", sampled(150000001, 101300, 29815)),
        ("P 101299", sampled(0, 101299, 29815)),
        ("T 29814", sampled(0, 101300, 29814)),
        (
            "P 101299, raw -100000000",
            sampled(-100000000, 101299, 29815),
        ),
        ("P 101299, raw 150000000", sampled(150000000, 101299, 29815)),
        ("P 101299, raw 150000001", sampled(150000001, 101299, 29815)),
        ("P 59999", sampled(0, 59999, 29815)),
        ("T 32316", sampled(0, 101300, 32316)),
    ] {
        shows(rt, label, bench_holding(), Entry::Known(event))?;
    }
    Ok(())
}

// Damp air; malformed events; a damp cylinder, whose 10er is above P; K 10,000,000, under which nothing is found; absolute mode, in which no list of
// events leaves a finding; and a signal that the engine does not work with.
fn others(rt: &impl Print) -> io::Result<()> {
    let bench = bench_holding();
    let damp = holding(200000000, Some(30000000), reference_mode(6001));
    let narrow = holding(10000000, Some(3000000), reference_mode(0));
    let absolute = holding(200000000, Some(30000000), Mode::Absolute);
    let beyond = holding(200000000, Some(150000001), reference_mode(0));
    let elsewhere = sampled(0, 101299, 29815);
    for (label, st, entry) in [
        ("e 2000", bench, Entry::Known(damp_sample(2000))),
        ("malformed, kind 6", bench, Entry::Malformed(6)),
        ("malformed, kind 1", bench, Entry::Malformed(1)),
        (
            "er 6001, P 60010",
            damp,
            Entry::Known(sampled(0, 60010, 29815)),
        ),
        (
            "er 6001, P 60009",
            damp,
            Entry::Known(sampled(0, 60009, 29815)),
        ),
        ("K 10000000, P 101299", narrow, Entry::Known(elsewhere)),
        ("absolute mode, P 101299", absolute, Entry::Known(elsewhere)),
        ("absolute mode, span", absolute, Entry::Known(spanned())),
        ("R 150000001, start", beyond, Entry::Known(Event::Start)),
    ] {
        shows(rt, label, st, entry)?;
    }
    Ok(())
}

fn bench_holding() -> State {
    holding(200000000, Some(30000000), reference_mode(0))
}

// An entry at a record: its answer, what stands stored after it, and the answer of a sample then.
fn shows(rt: &impl Print, label: &str, st: State, entry: Entry) -> io::Result<()> {
    let one = step(&SHEETS, st, entry);
    let after = one.state;
    let two = step(&SHEETS, after, Entry::Known(sampled(0, 101300, 29815)));
    println!(rt;
        "{label} | {} | {} | {}",
        Figures::from(one.answer),
        Kept(after.stored),
        Figures::from(two.answer)
    )
}
