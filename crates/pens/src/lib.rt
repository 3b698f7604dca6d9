// A chart recorder for a host, which names the kind of a channel by a byte and lends the places for what comes out.
#![tactic(auto)]

ghost use Rattle.std.specs.Prelude.{◌≡◌};
ghost use Rattle.recorder.specs.Recorder.{packed_refusal, packed_word};
ghost use Rattle.pens.specs.Pens.{pack_for, unpack_for, unpacked_refusal, code_left, channel_left};

use recorder::{ChannelKind, Unpacked, pack, unpack};

// Puts the word of a value into its place and answers 0, or 18, and then the word is 0. Kind 0 is voltage and 1 current.
pub fn pack_into(kind: u8, x: i64, x0: i64, xf: i64, channel: u32, word: &mut u16) -> u8
    ensures value { result ≡ packed_refusal (pack_for kind x x0 xf channel) }
    ensures word_after { word.new ≡ packed_word (pack_for kind x x0 xf channel) }
{
    match pack_for(kind, x, x0, xf, channel) {
        Some(packed) => {
            *word = packed;
            0
        }
        None => {
            *word = 0;
            18
        }
    }
}

// Puts code and channel of a word into their places and answers 0, or 18 for another kind, which leaves both as they were.
pub fn unpack_into(kind: u8, word: u16, code: &mut i16, channel: &mut u8) -> u8
    ensures value { result ≡ unpacked_refusal (unpack_for kind word) }
    ensures code_after { code.new ≡ code_left (unpack_for kind word) code.old }
    ensures channel_after { channel.new ≡ channel_left (unpack_for kind word) channel.old }
{
    let Some(held) = unpack_for(kind, word) else {
        return 18;
    };
    *code = held.code;
    *channel = held.channel;
    0
}

// The word of a value, or none for what the recorder turns away and for a byte that names no kind.
fn pack_for(kind: u8, x: i64, x0: i64, xf: i64, channel: u32) -> Option<u16>
    ensures { result ≡ pack_for kind x x0 xf channel }
{
    let named = ChannelKind::try_from(kind).ok()?;
    pack(named, x, x0, xf, channel)
}

// What a word holds, or none for a byte that names no kind.
fn unpack_for(kind: u8, word: u16) -> Option<Unpacked>
    ensures { result ≡ unpack_for kind word }
{
    ChannelKind::try_from(kind)
        .ok()
        .map(|named| unpack(named, word))
}
