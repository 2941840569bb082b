// What stands at a place of a stream, for programs that show lists: bytes, numbers, the texts of strings, where lengths and values end. Every stream
// and every place is taken; past the end stand zeros and empty texts. A stream and a place stand side by side, as in the definitions and in the laws of
// `peeked`: a struct of both would be made and taken apart at each call.
#![tactic(auto)]

ghost use Rattle.std.specs.Prelude.{ℕ, ◌-◌, ◌<◌, ◌≡◌, slice_index};
ghost use Rattle.peeking.specs.Peeking.{onward, byte_at, two_at, four_at, eight_at, string_span, after_string};
ghost use Rattle.peeking.specs.Peeking.{after_lengths, char_size, fixed_size, after_value, is_plain, hidden_by, hidden_at, plain_end};

use format::Span;

// ---- places

// The place n bytes on, never past the end.
pub fn on(s: &[u8], at: usize, n: usize) -> usize
    ensures { result ≡ onward s.now at n }
{
    at.saturating_add(n).min(s.len())
}

// The place n bytes before, never before the first.
pub fn back(at: usize, n: usize) -> usize
    ensures { result ≡ at - n }
{
    at.saturating_sub(n)
}

// The place after the rank of an array and so many lengths.
pub fn after_lengths(s: &[u8], at: usize, rank: u32) -> usize
    ensures { result ≡ after_lengths s.now at rank }
{
    on(s, at, 4 + 4 * (rank as usize))
}

// The byte at a place.
pub fn byte_at(s: &[u8], at: usize) -> u8
    ensures { result ≡ byte_at s.now at }
{
    s.get(at).copied().unwrap_or(0)
}

// ---- numbers

// So many bytes from a place on, with zeros for those past the end. Of `array::from_fn` no clause says that each byte is what the same closure gives.
fn bytes_at<const N: usize>(s: &[u8], at: usize) -> [u8; N]
    ensures { (i : ℕ) → i < N → slice_index result i ≡ byte_at s.now (onward s.now at i) }
{
    let mut bytes = [0; N];
    for i in 0..N {
        bytes[i] = byte_at(s, on(s, at, i));
    }
    bytes
}

// The number of two, four and eight bytes at a place, the low byte first.
pub fn u16_at(s: &[u8], at: usize) -> u16
    ensures { result ≡ two_at s.now at }
{
    u16::from_le_bytes(bytes_at(s, at))
}

pub fn u32_at(s: &[u8], at: usize) -> u32
    ensures { result ≡ four_at s.now at }
{
    u32::from_le_bytes(bytes_at(s, at))
}

pub fn u64_at(s: &[u8], at: usize) -> u64
    ensures { result ≡ eight_at s.now at }
{
    u64::from_le_bytes(bytes_at(s, at))
}

// ---- the texts of strings

// Where the text of a prefixed string begins and ends, whatever form its prefix has; an empty text where it is not all there.
pub fn string_at(s: &[u8], at: usize) -> Span
    ensures { result ≡ string_span s.now at }
{
    spans::span_at(s, on(s, at, 0))
}

// The place after a prefixed string.
pub fn after_string(s: &[u8], at: usize) -> usize
    ensures { result ≡ after_string s.now at }
{
    let t = string_at(s, at);
    t.to
}

// Whether a byte of a text is shown as it is, whatever stands behind it: no control character, no quotation mark of a text (34) or of a name (96), no
// backslash (92), and not the first byte of a character that may be hidden (194 and 226).
pub fn is_plain(b: u8) -> bool
    ensures { result ≡ is_plain b }
{
    !matches!(b, 0..=31 | 34 | 92 | 96 | 127 | 194 | 226)
}

// How many bytes a character has that is not shown as it is, by the number of its first three bytes; 0 where it is shown. Not shown are control
// characters of one byte and of two (C2 80 to C2 9F), the ends of lines and paragraphs and the marks that turn the direction of writing (E2 80 A8 to
// E2 80 AE, E2 81 A6 to E2 81 A9).
fn hidden(n: u32) -> usize
    ensures { result ≡ hidden_by n }
{
    match n {
        0..=0xC27FFF => 1,
        0xC28000..=0xC29FFF => 2,
        0xE280A8..=0xE280AE => 3,
        0xE281A6..=0xE281A9 => 3,
        _ => 0,
    }
}

// The same of the character at a place whose first byte is not plain.
pub fn hidden_at(s: &[u8], at: usize) -> usize
    ensures { result ≡ hidden_at s.now at }
{
    let [a, b, c] = bytes_at::<3>(s, at);
    hidden(u32::from_be_bytes([0, a, b, c]))
}

// Where the bytes from a place on that are shown as they are end; a place past the end itself.
pub fn plain_end(s: &[u8], at: usize) -> usize
    ensures { result ≡ plain_end s.now at }
{
    match s.get(at..) {
        Some(rest) => at + rest.iter().take_while(|b| is_plain(**b)).count(),
        None => at,
    }
}

// ---- primitive values

// How many bytes a Char has, by the first of them.
fn char_size(b: u8) -> usize
    ensures { result ≡ char_size b }
{
    match b {
        0..=127 => 1,
        128..=223 => 2,
        224..=239 => 3,
        _ => 4,
    }
}

// How many bytes a value has whose code alone says so.
fn fixed_size(code: u8) -> usize
    ensures { result ≡ fixed_size code }
{
    match code {
        1 | 2 | 10 => 1,
        7 | 14 => 2,
        8 | 11 | 15 => 4,
        _ => 8,
    }
}

// The place after a value.
pub fn after_value(s: &[u8], at: usize, code: u8) -> usize
    ensures { result ≡ after_value s.now at code }
{
    match code {
        3 => on(s, at, char_size(byte_at(s, at))),
        5 => after_string(s, at),
        _ => on(s, at, fixed_size(code)),
    }
}
