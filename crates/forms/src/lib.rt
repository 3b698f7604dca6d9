// What is put of each event of a session file of which every event has its piece, in each form. `outputs` asks here, once for an event: another form
// that goes by the event's ordinal and its line of the transcript is another case of `room_of` and `emit`.
#![tactic(auto)]

ghost use Rattle.std.specs.Prelude.{◌≡◌, ◌+◌, ◌≤◌, ◌<◌, length};
ghost use Rattle.text.specs.Writing.{Writes};
ghost use Rattle.rules.specs.Answer.{m_of};
ghost use Rattle.engine.specs.Step.{SteppedBy};
ghost use Rattle.engine.specs.Transcript.{line_at, record_with};
ghost use Rattle.entries.specs.Entries.{entry_of};
ghost use Rattle.forms.specs.Forms.{emitted, room_of};

use entries::entry_of;
use grounds::naming::ground_of;
use grounds::number_of;
use layout::records::put_answer;
use layout::{AnswerRecord, EventRecord};
use rules::{Answer, State, Stepped};
use text::writer::Writer;

// The answers of a file as records of 24 bytes, or as printed lines; or the grounds of those that are over range, a byte each (R-9).
#[derive(Clone, Copy)]
pub enum Form {
    Records,
    Lines,
    Grounds,
}

// The room that an event asks.
pub fn room_of(form: Form) -> usize
    ensures { result ≡ room_of form }
{
    match form {
        Form::Records => 24,
        Form::Lines => 72,
        Form::Grounds => 1,
    }
}

// Puts what a form has of event i, counted from 0: the event found the engine at `before`, and gave `next`.
pub fn emit(
    form: Form,
    to: &mut Writer<'_>,
    i: usize,
    before: State,
    event: EventRecord,
    next: Stepped,
)
    requires { (i < 2700) × (to.old.at + room_of form ≤ length to.old.out.now) × (m_of next.answer < 4294967296) × SteppedBy before (entry_of event) next }
    ensures puts { Writes to.old (emitted form (i + 1) (line_at before (entry_of event) next)) to.new }
    ensures upper_bound { to.new.at ≤ to.old.at + room_of form }
{
    let answer = next.answer;
    let a = record_of(event.kind, answer);
    match form {
        Form::Records => {
            put_answer(to.out, to.at, a);
            to.at += 24;
        }
        Form::Lines => to.line(i as u32 + 1, a),
        Form::Grounds => {
            let ground = ground_of(before, entry_of(event), next);
            to.byte(number_of(ground));
        }
    }
}

// The record of an answer with the kind byte as given. The engine counts in 64 bits where the record has 32.
fn record_of(kind: u8, a: Answer) -> AnswerRecord
    requires { m_of a < 4294967296 }
    ensures { result ≡ record_with kind a }
{
    match a {
        Answer::Done => accepted(kind, 0, 0, 0),
        Answer::Zeroed(q) => accepted(kind, 0, q, 0),
        Answer::Spanned(span) => accepted(kind, span as u32, 0, 0),
        Answer::Reading { r, wet, dry } => accepted(kind, r as u32, wet, dry),
        Answer::Area { n, area } => accepted(kind, n as u32, area, 0),
        Answer::Refused(refusal) => AnswerRecord {
            kind,
            refusal,
            m: 0,
            x: 0,
            y: 0,
        },
    }
}

fn accepted(kind: u8, m: u32, x: i64, y: i64) -> AnswerRecord
    ensures { result ≡ record { kind = kind; refusal = 0; m = m; x = x; y = y } }
{
    AnswerRecord {
        kind,
        refusal: 0,
        m,
        x,
        y,
    }
}
