// The printed lines of a session file, as document 01's program writes them.
#![tactic(auto)]

ghost use Rattle.std.specs.Prelude.{◌≤◌, length};
ghost use Rattle.layout.specs.Lent.{Puts};
ghost use Rattle.layout.specs.Ended.{status_of, written_of};
ghost use Rattle.text.specs.Line.{line_room};
ghost use Rattle.answers.specs.Run.{FillsAs};
ghost use Rattle.printing.specs.Text.{refused_line, printed_of};

use answers::fill;
use forms::Form;
use layout::{AnswerRecord, TurnedAway};
use text::writer::Writer;

// Puts what the program prints for a file at the start of out, which has room for the longest line of each of 2,700 events, and
// answers how long it is. A refused file has one line.
pub fn print(file: &[u8], out: &mut [u8; 194400]) -> usize
    ensures { Puts out.old 0 (printed_of file.now) out.new result }
{
    if 65536 < file.len() {
        return put_refused(out);
    }
    match lines(file, out) {
        Ok(written) => written,
        Err(_) => put_refused(out),
    }
}

// Puts a line for each event of a file at the start of a lent buffer. A refused file leaves it as it was.
pub fn lines(file: &[u8], out: &mut [u8]) -> Result<usize, TurnedAway>
    ensures { FillsAs Form.Lines file.now out.old (status_of result) (written_of result) out.new }
{
    fill(Form::Lines, file, out)
}

// Puts the line of a refused file at the start.
fn put_refused(out: &mut [u8]) -> usize
    requires { line_room ≤ length out.old }
    ensures { Puts out.old 0 refused_line out.new result }
{
    let refused = AnswerRecord {
        kind: 0,
        refusal: 12,
        m: 0,
        x: 0,
        y: 0,
    };
    let mut writer = Writer { out, at: 0 };
    writer.line(0, refused);
    writer.at
}
