// Little-endian numbers in a slice of bytes, and signed ones by two's complement: read at an index, and put at one.
#![tactic(auto)]

ghost use Rattle.std.specs.Prelude.{◌≡◌, ◌+◌, ◌*◌, ◌≤◌, length, take, drop};
ghost use Rattle.fields.specs.Fields.{u32_at, u64_at, words_bytes, signed32, signed64, splice};

// The N bytes at an index.
fn bytes_at<const N: usize>(s: &[u8], at: usize) -> [u8; N]
    requires { at + N ≤ length s.now }
    ensures { result ≡ take N (drop at s.now) }
{
    *s[at..at + N].as_array().unwrap()
}

// The u32 at an index.
pub fn u32_at(s: &[u8], at: usize) -> u32
    requires { at + 4 ≤ length s.now }
    ensures { result ≡ u32_at s.now at }
{
    u32::from_le_bytes(bytes_at(s, at))
}

// The i32 at an index.
pub fn i32_at(s: &[u8], at: usize) -> i32
    requires { at + 4 ≤ length s.now }
    ensures { result ≡ signed32 (u32_at s.now at) }
{
    i32::from_le_bytes(bytes_at(s, at))
}

// The i64 at an index.
pub fn i64_at(s: &[u8], at: usize) -> i64
    requires { at + 8 ≤ length s.now }
    ensures { result ≡ signed64 (u64_at s.now at) }
{
    i64::from_le_bytes(bytes_at(s, at))
}

// Puts N bytes at an index. All other bytes stay.
pub fn put_bytes<const N: usize>(out: &mut [u8], at: usize, bytes: &[u8; N])
    requires { at + N ≤ length out.old }
    ensures { out.new ≡ splice out.old at bytes.now }
{
    out[at..at + N].copy_from_slice(bytes);
}

// Puts words of 32 bits one after the other, from an index on. All other bytes stay.
pub fn put_words(out: &mut [u8], at: usize, words: &[u32])
    requires { at + 4 * length words.now ≤ length out.old }
    ensures { out.new ≡ splice out.old at (words_bytes words.now) }
{
    for (i, word) in words.iter().enumerate() {
        put_bytes(out, at + 4 * i, &word.to_le_bytes());
    }
}
