// The functions that C calls. A slice is a pointer and a length; none of them asks anything of what it is lent.
ghost use Rattle.std.specs.Prelude.{◌≡◌, get_or};
ghost use Rattle.layout.specs.Ended.{status_of, written_of};
ghost use Rattle.forms.specs.declared.Form.{Form};
ghost use Rattle.answers.specs.Run.{FillsAs};
ghost use Rattle.packing.specs.Write.{FillsPacked};
ghost use Rattle.page.specs.Page.{FillsPage};
ghost use Rattle.doubles.specs.Doubles.{host_refusal, reading_values, area_values, host_sample_in, host_area_in};
ghost use Rattle.recorder.specs.Recorder.{packed_refusal, packed_word};
ghost use Rattle.pens.specs.Pens.{pack_for, unpack_for, unpacked_refusal, code_left, channel_left};

use answers::{fill, run};
use doubles::answers::{area_in, sample_in};
use forms::Form;
use layout::TurnedAway;
use packing::write_records;
use page::page;
use pens::{pack_into, unpack_into};
use printing::lines;

// Answers a whole session file into `out`: 0, or refusal 12 or 13, which leaves `out` as it was. `written` becomes the count of
// bytes that it wrote, 0 with a refusal.
#[unsafe(no_mangle)]
pub extern "C" fn irga_run(file: &[u8], out: &mut [u8], written: &mut usize) -> u8
    ensures { FillsAs Form.Records file.now out.old result written.new out.new }
{
    told(run(file, out), written)
}

// Puts the printed lines of a session file into `out`: 0, or refusal 12 or 13, which leaves `out` as it was. `written` becomes the
// length of the text, 0 with a refusal.
#[unsafe(no_mangle)]
pub extern "C" fn irga_lines(file: &[u8], out: &mut [u8], written: &mut usize) -> u8
    ensures { FillsAs Form.Lines file.now out.old result written.new out.new }
{
    told(lines(file, out), written)
}

// Puts the page for the lab book of a session file into `out`, with a header line at every so many sample lines: 0, or 12, 16 or 17, which
// leaves `out` as it was. `written` becomes the length of the page, 0 if it was turned away.
#[unsafe(no_mangle)]
pub extern "C" fn irga_page(file: &[u8], every: u32, out: &mut [u8], written: &mut usize) -> u8
    ensures { FillsPage file.now every out.old result written.new out.new }
{
    told(page(file, every, out), written)
}

// Puts the ground of each event of a session file into `out`, a byte each: 1 to 4 where a run answers the event with 8, and 0 elsewhere. Answers 0, or
// refusal 12 or 13, which leaves `out` as it was. `written` becomes the count of bytes that it wrote, 0 with a refusal.
#[unsafe(no_mangle)]
pub extern "C" fn irga_grounds(file: &[u8], out: &mut [u8], written: &mut usize) -> u8
    ensures { FillsAs Form.Grounds file.now out.old result written.new out.new }
{
    told(fill(Form::Grounds, file, out), written)
}

// What a host is told of how a tool ended: the status, with the count of bytes that it wrote.
fn told(ended: Result<usize, TurnedAway>, written: &mut usize) -> u8
    ensures { (result ≡ status_of ended) × (written.new ≡ written_of ended) }
{
    match ended {
        Ok(count) => {
            *written = count;
            0
        }
        Err(away) => {
            *written = 0;
            away.number()
        }
    }
}

// The answer to a sample, from its 24 bytes: 0 with wet, dry and signal, or a refusal, which leaves all three as they were.
#[unsafe(no_mangle)]
pub extern "C" fn irga_reading(answer: &[u8], wet: &mut f64, dry: &mut f64, signal: &mut f64) -> u8
    ensures value { result ≡ host_refusal (host_sample_in answer.now) }
    ensures wet_after { wet.new ≡ get_or (reading_values (host_sample_in answer.now)) 0 wet.old }
    ensures dry_after { dry.new ≡ get_or (reading_values (host_sample_in answer.now)) 1 dry.old }
    ensures signal_after { signal.new ≡ get_or (reading_values (host_sample_in answer.now)) 2 signal.old }
{
    match sample_in(answer) {
        Ok(d) => {
            *wet = d.wet;
            *dry = d.dry;
            *signal = d.signal;
            0
        }
        Err(refused) => refused.number,
    }
}

// The answer to an area event, from its 24 bytes: 0 with the area, or a refusal, which leaves it as it was.
#[unsafe(no_mangle)]
pub extern "C" fn irga_area(answer: &[u8], area: &mut f64) -> u8
    ensures value { result ≡ host_refusal (host_area_in answer.now) }
    ensures area_after { area.new ≡ get_or (area_values (host_area_in answer.now)) 0 area.old }
{
    match area_in(answer) {
        Ok(v) => {
            *area = v;
            0
        }
        Err(refused) => refused.number,
    }
}

// Writes the session file of sheets and events, the bytes of their records, into `out`: 0, or 14, 11 or 15, which leaves `out` as it was.
// `written` becomes the length of the file, 0 if it was turned away.
#[unsafe(no_mangle)]
pub extern "C" fn irga_write(
    sheets: &[u8],
    events: &[u8],
    out: &mut [u8],
    written: &mut usize,
) -> u8
    ensures { FillsPacked sheets.now events.now out.old result written.new out.new }
{
    told(write_records(sheets, events, out), written)
}

// The word that moves a chart recorder's pen to a value, on a scale from low to high: 0, or 18, and then the word is 0. Kind 0 is voltage and 1
// current.
#[unsafe(no_mangle)]
pub extern "C" fn irga_pack(
    kind: u8,
    value: i64,
    low: i64,
    high: i64,
    channel: u32,
    word: &mut u16,
) -> u8
    ensures value { result ≡ packed_refusal (pack_for kind value low high channel) }
    ensures word_after { word.new ≡ packed_word (pack_for kind value low high channel) }
{
    pack_into(kind, value, low, high, channel, word)
}

// Code and channel number of any word: 0, or 18 for another kind, which leaves both places as they were.
#[unsafe(no_mangle)]
pub extern "C" fn irga_unpack(kind: u8, word: u16, code: &mut i16, channel: &mut u8) -> u8
    ensures value { result ≡ unpacked_refusal (unpack_for kind word) }
    ensures code_after { code.new ≡ code_left (unpack_for kind word) code.old }
    ensures channel_after { channel.new ≡ channel_left (unpack_for kind word) channel.old }
{
    unpack_into(kind, word, code, channel)
}
