// R-10: integrations past the limits of both charts, which no session file of 2,700 events reaches, by `step` itself. Document 01's bench sheet,
// absolute mode; sample i of a row, from 1, has raw 45,000,000 − 30 i + 700 (i mod 11), P 101,300, T 29,815, e 0.
//
// What `stdout` holds, and where it comes from. First, after a start of each kind and samples up to its limit and beyond, the area (n and area) and how
// the integration stands: idle, running, with its n and its limit, or closed, with its n. Then, for what may stand before it, an event that starts, stops,
// closes or discards one, or leaves it: its answer, how the integration stands after it, and the area after 600,001 samples more: its n is where the
// integration closed, and it is refused where none stands. The refused sample has raw 150,000,001, the zero raw 0; a malformed event has the kind byte that is
// named. All of it was computed by the independent implementation in tests/, which works from documents 01 and 02 alone, and a test holds the file to it.
#![tactic(auto)]

ghost use Rattle.std.specs.Prelude.{◌≤◌};

use counting::Integration;
use engine::step;
use layout::SheetRecord;
use layout::records::put_sheet;
use rules::{Answer, Entry, Event, State, Stepped, fresh_state};
use sampling::Measurement;
use std::{fmt, io};

fn main(rt: HostRuntime) -> io::Result<()> {
    let bench = Bench::new();
    println!(rt; "kind | samples | area | integration")?;
    bench.limits(&rt)?;
    println!(rt; "before | event | answer | integration | area after 600001 samples more")?;
    bench.tables(&rt)
}

// What may stand before an event: how a row calls it, the state, and how many samples led to it.
#[derive(Drop)]
struct Before<'a> {
    label: &'a str,
    state: State,
    samples: u32,
    ghost few: { samples ≤ 10000 },
}

// The engine under a list of the bench sheet alone.
#[derive(Drop)]
struct Bench {
    sheets: [u8; 24],
}

impl Bench {
    fn new() -> Self {
        let mut sheets = [0; 24];
        put_sheet(
            &mut sheets,
            0,
            SheetRecord {
                a1: 150000000,
                a2: 5000000,
                a3: 5000000,
                t0: 29815,
                k: 200000000,
                rest: 0,
            },
        );
        Bench { sheets }
    }

    // One sample short of each limit, at it and beyond it; what closes a short one does not close a long one.
    fn limits(&self, rt: &impl Print) -> io::Result<()> {
        for (kind, start, first) in [
            (10, Event::StartShort, 5999),
            (7, Event::Start, 5999),
            (7, Event::Start, 599999),
        ] {
            for samples in first..first + 3 {
                self.limit(rt, kind, start, samples)?;
            }
        }
        Ok(())
    }

    fn limit(&self, rt: &impl Print, kind: u8, start: Event, samples: u32) -> io::Result<()>
        requires { samples ≤ 1000000 }
    {
        let st = self.sampled(self.started(start), 0, samples);
        println!(rt;
            "{kind} | {samples} | {} | {}",
            Said(self.area(st)),
            Standing(st.integration)
        )
    }

    fn tables(&self, rt: &impl Print) -> io::Result<()> {
        for (label, state) in [("no sheet", fresh_state()), ("idle", self.loaded())] {
            let before = Before {
                label,
                state,
                samples: 0,
            };
            self.starts(rt, &before)?;
        }
        for (label, start) in [
            ("kind 7, 3 samples", Event::Start),
            ("kind 10, 3 samples", Event::StartShort),
        ] {
            self.events(rt, &self.running(label, start, 3))?;
        }
        let closed = self.running("kind 10, 6000 samples", Event::StartShort, 6000);
        self.starts(rt, &closed)?;
        self.ends(rt, &closed)?;
        // More than a short one can count: that n must not stay.
        let longer = self.running("kind 7, 6001 samples", Event::Start, 6001);
        self.starts(rt, &longer)
    }

    // A start of this kind, and so many samples.
    fn running<'a>(&self, label: &'a str, start: Event, samples: u32) -> Before<'a>
        requires { samples ≤ 10000 }
    {
        Before {
            label,
            state: self.sampled(self.started(start), 0, samples),
            samples,
        }
    }

    // Both starts, what closes a running one, what discards it, and what leaves it.
    fn events(&self, rt: &impl Print, before: &Before) -> io::Result<()> {
        self.starts(rt, before)?;
        self.ends(rt, before)?;
        for (label, entry) in [
            ("refused sample", sample(150000001)),
            ("malformed 6", Entry::Malformed(6)),
            ("malformed 10", Entry::Malformed(10)),
            ("zero", Entry::Known(Event::Zero { raw: 0 })),
        ] {
            self.row(rt, before, label, entry)?;
        }
        Ok(())
    }

    fn starts(&self, rt: &impl Print, before: &Before) -> io::Result<()> {
        self.row(rt, before, "kind 7", Entry::Known(Event::Start))?;
        self.row(rt, before, "kind 10", Entry::Known(Event::StartShort))
    }

    // A stop, and the area, which leaves it.
    fn ends(&self, rt: &impl Print, before: &Before) -> io::Result<()> {
        self.row(rt, before, "stop", Entry::Known(Event::Stop))?;
        self.row(rt, before, "area", Entry::Known(Event::Area))
    }

    fn row(&self, rt: &impl Print, before: &Before, label: &str, entry: Entry) -> io::Result<()> {
        let next = self.step(before.state, entry);
        let after = next.state;
        let more = self.sampled(after, before.samples, before.samples + 600001);
        println!(rt;
            "{} | {label} | {} | {} | {}",
            before.label,
            Said(next.answer),
            Standing(after.integration),
            Said(self.area(more))
        )
    }

    fn step(&self, st: State, entry: Entry) -> Stepped {
        step(&self.sheets, st, entry)
    }

    fn loaded(&self) -> State {
        self.step(fresh_state(), Entry::Known(Event::Load { index: 0 }))
            .state
    }

    fn started(&self, start: Event) -> State {
        self.step(self.loaded(), Entry::Known(start)).state
    }

    fn area(&self, st: State) -> Answer {
        self.step(st, Entry::Known(Event::Area)).answer
    }

    // The state after the samples beyond `from`, up to `to`.
    fn sampled(&self, st: State, from: u32, to: u32) -> State
        requires { to ≤ 1000000 }
    {
        let mut state = st;
        for i in from..to {
            state = self.step(state, sample(raw_of(i + 1))).state;
        }
        state
    }
}

fn raw_of(i: u32) -> i32
    requires { i ≤ 1000000 }
{
    (45000000 - 30 * i + 700 * (i % 11)) as i32
}

fn sample(raw: i32) -> Entry {
    let at = Measurement {
        raw,
        p: 101300,
        t: 29815,
        e: 0,
    };
    Entry::Known(Event::Sample { at })
}

// An answer as a row has it: n and area, or the number of the refusal; other answers are only said to be accepted.
#[derive(Clone, Copy)]
struct Said(Answer);

impl fmt::Display for Said {
    fn fmt<W: fmt::Write>(&self, f: &mut fmt::Formatter<W>) -> fmt::Result {
        match self.0 {
            Answer::Area { n, area } => write!(f, "{n} {area}"),
            Answer::Refused(number) => write!(f, "refused {number}"),
            _ => f.write_str("accepted"),
        }
    }
}

// How an integration stands.
#[derive(Clone, Copy)]
struct Standing(Integration);

impl fmt::Display for Standing {
    fn fmt<W: fmt::Write>(&self, f: &mut fmt::Formatter<W>) -> fmt::Result {
        match self.0 {
            Integration::Idle => f.write_str("idle"),
            Integration::Running(chart, t) => write!(f, "running {} of {}", t.n, chart.limit()),
            Integration::Closed(t) => write!(f, "closed {}", t.n),
        }
    }
}
