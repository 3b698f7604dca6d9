// Document 02's R-8, chart recorder output: a wet value as the twelve-bit code of a channel, and code and channel number as one word.
#![tactic(auto)]

ghost use Rattle.std.specs.Prelude.{◌≡◌, ◌≤◌, ◌<◌, nat_abs};
ghost use Rattle.std.specs.Result.{result_ok};
ghost use Rattle.recorder.specs.Recorder.{kind_of, word_of, pack_of, code_in, unpack_of};

mod scale;

use scale::{Scale, in_range};

// What a channel drives its pen with.
#[derive(Clone, Copy)]
pub enum ChannelKind {
    Voltage,
    Current,
}

// A byte that names no kind of channel.
#[derive(Clone, Copy)]
pub struct UnknownKind;

impl TryFrom<u8> for ChannelKind {
    type Error = UnknownKind;

    ghost try_from_gives = { λ code r. result_ok r ≡ kind_of code };

    fn try_from(code: u8) -> Result<Self, UnknownKind> {
        match code {
            0 => Ok(ChannelKind::Voltage),
            1 => Ok(ChannelKind::Current),
            _ => Err(UnknownKind),
        }
    }
}

// What a word holds.
#[derive(Clone, Copy)]
pub struct Unpacked {
    pub code: i16,
    pub channel: u8,
}

// The word of the value x on a scale from x0 to xf, or none, which is refusal 18.
pub fn pack(kind: ChannelKind, x: i64, x0: i64, xf: i64, channel: u32) -> Option<u16>
    ensures { result ≡ pack_of kind x x0 xf channel }
{
    let scale = Scale::new(x0, xf)?;
    if in_range(x) && channel < 16 {
        Some(word(scale.code(kind, x), channel))
    } else {
        None
    }
}

// Code and channel of any word, whoever made it.
pub fn unpack(kind: ChannelKind, word: u16) -> Unpacked
    ensures { result ≡ unpack_of kind word }
{
    Unpacked {
        code: code_in(kind, word & 0xFFF),
        channel: (word >> 12) as u8,
    }
}

// The code's twelve bits below the channel's four. The mask leaves a negative code in two's complement.
fn word(code: i64, channel: u32) -> u16
    requires { (nat_abs code ≤ 4095) × (channel < 16) }
    ensures { result ≡ word_of code channel }
{
    let low = (code & 0xFFF) as u16;
    ((channel as u16) << 12) | low
}

// The code that twelve bits stand for: of a voltage, negative from 2048 on.
fn code_in(kind: ChannelKind, bits: u16) -> i16
    requires { bits < 4096 }
    ensures { result ≡ code_in kind bits }
{
    match kind {
        ChannelKind::Voltage if 2048 <= bits => bits as i16 - 4096,
        _ => bits as i16,
    }
}
