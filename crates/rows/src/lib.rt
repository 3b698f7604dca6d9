// The lines of a page for the lab book, put by a writer: a line for an accepted sample, and a header line before it where one is due. All
// other bytes of its buffer stay.
#![tactic(auto)]

ghost use Rattle.std.specs.Prelude.{◌≡◌, true, ◌+◌, ◌≤◌, ◌<◌, nat_abs, length, Some};
ghost use Rattle.sampling.specs.Sample.{mode_within};
ghost use Rattle.text.specs.Writing.{Writes};
ghost use Rattle.figures.specs.Figures.{right};
ghost use Rattle.rows.specs.Rows.{Columned, shown_of, third_of, sample_line, header_due, rows_of, under_headers, joined};

use figures::{put_figure, put_ordinal, put_text};
use rules::Answer;
use sampling::Mode;
use text::writer::Writer;

// The values of an accepted sample, as a line shows them.
#[derive(Clone, Copy)]
pub struct Shown {
    pub wet: i64,
    pub dry: i64,
}

// What the page shows of an answer: the values of an accepted sample, and of anything else nothing.
pub fn shown_of(answer: Answer) -> Option<Shown>
    ensures { result ≡ shown_of answer }
{
    match answer {
        Answer::Reading { r: _, wet, dry } => Some(Shown { wet, dry }),
        _ => None,
    }
}

// Puts the lines of an event, which is answered in this mode, with so many sample lines on the page already and a header line at every so
// many of them.
pub fn put_rows(
    to: &mut Writer<'_>,
    every: usize,
    samples: usize,
    ordinal: u64,
    mode: Mode,
    shown: Option<Shown>,
)
    requires { (0 < every) × (ordinal < 1000000) × Columned mode shown × (to.old.at + length (joined (under_headers every samples (rows_of ordinal mode shown))) ≤ length to.old.out.now) }
    ensures { Writes to.old (joined (under_headers every samples (rows_of ordinal mode shown))) to.new }
{
    if let Some(sample) = shown {
        put_header_due(to, every, samples);
        put_sample(to, ordinal, mode, sample);
    }
}

// Puts the header line where one is due before a sample line that so many others precede.
fn put_header_due(to: &mut Writer<'_>, every: usize, samples: usize)
    requires { (0 < every) × (to.old.at + length (joined (header_due every samples)) ≤ length to.old.out.now) }
    ensures { Writes to.old (joined (header_due every samples)) to.new }
{
    if samples % every == 0 {
        put_text(
            to,
            b"    no           wet           dry          diff                        \n",
        );
    }
}

// Puts the line of a sample: its event's ordinal, wet, dry, and wet less the reference's cylinder.
fn put_sample(to: &mut Writer<'_>, ordinal: u64, mode: Mode, sample: Shown)
    requires { (to.old.at + 73 ≤ length to.old.out.now) × (ordinal < 1000000) × Columned mode (Some sample) }
    ensures { Writes to.old (sample_line ordinal mode sample.wet sample.dry) to.new }
{
    put_ordinal(to, ordinal);
    put_figure(to, sample.wet);
    put_figure(to, sample.dry);
    put_third(to, mode, sample.wet);
    put_text(to, b"                        \n");
}

// Puts wet less the reference's cylinder at the right end of 14 columns, which are blank in absolute mode. The difference is rounded, and not
// the two that it is of.
fn put_third(to: &mut Writer<'_>, mode: Mode, wet: i64)
    requires { (to.old.at + 14 ≤ length to.old.out.now) × (mode_within mode ≡ true) × (nat_abs wet < 9007199254740992) }
    ensures puts { Writes to.old (right 14 (third_of mode wet)) to.new }
    ensures value { to.new.at ≡ to.old.at + 14 }
{
    match mode {
        Mode::Absolute => put_text(to, b"              "),
        Mode::Against(gas) => put_figure(to, wet - gas.c as i64),
    }
}
