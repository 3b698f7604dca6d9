// The answers of a session file in a lent buffer, as records or in any other form.
#![tactic(auto)]

ghost use Rattle.std.specs.Prelude.{◌≡◌};
ghost use Rattle.layout.specs.Ended.{status_of, written_of};
ghost use Rattle.answers.specs.Run.{status_as, FillsAs};

use format::header::{event_count, well_formed};
use forms::{Form, room_of};
use layout::TurnedAway;
use outputs::Output;
use session::run::over;

// Answers a whole file, and tells how many bytes it wrote. A refused file, 12 or 13, leaves the output as it was.
pub fn run(file: &[u8], out: &mut [u8]) -> Result<usize, TurnedAway>
    ensures { FillsAs Form.Records file.now out.old (status_of result) (written_of result) out.new }
{
    fill(Form::Records, file, out)
}

// The same in any form.
pub fn fill(form: Form, file: &[u8], out: &mut [u8]) -> Result<usize, TurnedAway>
    ensures { FillsAs form file.now out.old (status_of result) (written_of result) out.new }
{
    accept(form, file, out.len())?;
    let ran = over(Output::Answers(form), file, out);
    Ok(ran.written)
}

// Whether a file is accepted for an output that is to hold its answers in this form, or refused with 12 or 13.
#[tactic(auto, using(format::proofs::Shape::shape, forms::proofs::Emitting::room_most), unfolding(crate::specs::Run::status_as))]
fn accept(form: Form, file: &[u8], room: usize) -> Result<(), TurnedAway>
    ensures { status_of result ≡ status_as form file.now room }
{
    if !well_formed(file) {
        return Err(TurnedAway::NoSession);
    }
    if room < room_of(form) * event_count(file) {
        return Err(TurnedAway::NoRoomForAnswers);
    }
    Ok(())
}
