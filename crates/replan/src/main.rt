// A session file planned again: its sheets and events, typed, go through the writer of lesson plans, and what it makes is written to
// standard output. A file that the writer makes comes out byte for byte; of any other nothing is written. `stdin` is the session of
// document 01's "Session file and program", and `stdout` the same bytes.
#![tactic(auto)]

ghost use Rattle.std.specs.Prelude.{ℕ, List, ◌≡◌, ◌+◌, ◌*◌, ◌≤◌, length};
ghost use Rattle.layout.specs.Records.{record_at, sheet_of, event_of};
ghost use Rattle.layout.specs.Ended.{status_of, written_of};
ghost use Rattle.format.specs.Header.{records_from};
ghost use Rattle.entries.specs.Entries.{entry_of};
ghost use Rattle.contents.specs.Contents.{numbers_of, known_event};
ghost use Rattle.replan.specs.Again.{FillsAgain};

use contents::PlannedSheet;
use entries::entry_of;
use format::header::{event_count, sheet_count, well_formed};
use layout::TurnedAway;
use layout::records::{event_at, sheet_at};
use reader::first;
use rules::{Entry, Event};
use std::io;
use std::io::Read;
use std::process::ExitCode;
use streams::{read_full, status_after};
use validation::is_packed;

fn main(rt: HostRuntime) -> ExitCode {
    status_after(plan_again(&rt, &mut rt.stdin()))
}

// Reads a file, plans it again and writes what comes of it.
fn plan_again(rt: &(impl Print + Alloc), input: &mut impl Read) -> io::Result<()> {
    // On the heap, so that the sheets and events and the other buffer have room on a small stack. Where there is no memory for it nothing comes out, as
    // of an input that cannot be read.
    let mut bytes = vec![in rt.alloc(); 0u8; 65537]?;
    let n = read_full(input, bytes.as_mut_slice());
    let mut out = [0u8; 65200];
    match replan(&bytes.as_slice()[..n], &mut out) {
        Ok(written) => rt.write_all(&out[..written]),
        Err(_) => Ok(()),
    }
}

// Puts a file that the writer makes at the start of a lent buffer, and tells how many bytes it has; or turns it away with 12, 11 or 15, which
// leaves the buffer as it was.
#[tactic(auto, using(format::proofs::Shape::shape))]
fn replan(file: &[u8], out: &mut [u8]) -> Result<usize, TurnedAway>
    ensures { FillsAgain file.now out.old (status_of result) (written_of result) out.new }
{
    if !well_formed(file) {
        return Err(TurnedAway::NoSession);
    }
    let from = first(file);
    if !is_packed(&file[16..from], &file[from..]) {
        return Err(TurnedAway::Malformed);
    }
    let mut sheets = [PlannedSheet::default(); 16];
    let sheets = &mut sheets[..sheet_count(file)];
    read_all(file, 16, sheets);
    let mut events = [Event::Start; 2700];
    let events = &mut events[..event_count(file)];
    read_all(file, from, events);
    plan::write(sheets, events, out)
}

// What a file has many of, each of which is said by a record.
trait Said: Copy {
    ghost said: { List ℕ → Self };

    // What the record at an offset says.
    fn at(file: &[u8], at: usize) -> Self
        requires { at + 24 ≤ length file.now }
        ensures { result ≡ said (record_at file.now at) };
}

impl Said for PlannedSheet {
    ghost said = { λ b. numbers_of (sheet_of b) };

    fn at(file: &[u8], at: usize) -> PlannedSheet {
        let sheet = sheet_at(file, at);
        PlannedSheet {
            a1: sheet.a1,
            a2: sheet.a2,
            a3: sheet.a3,
            t0: sheet.t0,
            k: sheet.k,
        }
    }
}

impl Said for Event {
    ghost said = { λ b. known_event (entry_of (event_of b)) };

    // A malformed entry has no event; `replan` has no such entry.
    fn at(file: &[u8], at: usize) -> Event {
        match entry_of(event_at(file, at)) {
            Entry::Known(event) => event,
            Entry::Malformed(_) => Event::Start,
        }
    }
}

// Reads as many as there is room for, one after the other, from an offset on.
fn read_all<T: Said>(file: &[u8], from: usize, all: &mut [T])
    requires { from + 24 * length all.old ≤ length file.now }
    ensures { all.new ≡ records_from T.said file.now from (length all.old) }
{
    for (i, one) in all.iter_mut().enumerate() {
        *one = T::at(file, from + 24 * i);
    }
}
