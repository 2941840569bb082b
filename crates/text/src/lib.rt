// Well-formed UTF-8 (Unicode 5.0, table 3-7), a scalar at a time, and text of a known length at a place.
#![tactic(auto)]

ghost use Rattle.std.specs.Prelude.{◌≡◌, ◌≤◌, ◌<◌, length, drop};
ghost use Rattle.format.specs.Text.{need_of, well_formed, text_at};
ghost use Rattle.text.specs.Scalars.{width_at};

use format::Refusal;

// How many bytes the scalar at i has; 0 where none stands there. The rows stand in the order of the table; no first byte is in two of them.
//
//     Unicode 5.0, table 3-7: well-formed UTF-8
//     row  code points         first   second  third   fourth
//     1    U+0000..U+007F      00..7F
//     2    U+0080..U+07FF      C2..DF  80..BF
//     3    U+0800..U+0FFF      E0      A0..BF  80..BF
//     4    U+1000..U+CFFF      E1..EC  80..BF  80..BF
//     5    U+D000..U+D7FF      ED      80..9F  80..BF
//     6    U+E000..U+FFFF      EE..EF  80..BF  80..BF
//     7    U+10000..U+3FFFF    F0      90..BF  80..BF  80..BF
//     8    U+40000..U+FFFFF    F1..F3  80..BF  80..BF  80..BF
//     9    U+100000..U+10FFFF  F4      80..8F  80..BF  80..BF
fn width_at(s: &[u8], i: usize) -> usize
    requires { i < length s.now }
    ensures { result ≡ width_at s.now i }
{
    let rest = &s[i + 1..];
    match s[i] {
        0x00..=0x7F => 1, // row 1
        0xC2..=0xDF if matches!(rest, [0x80..=0xBF, ..]) => 2, // row 2
        0xE0 if matches!(rest, [0xA0..=0xBF, 0x80..=0xBF, ..]) => 3, // row 3
        0xE1..=0xEC if matches!(rest, [0x80..=0xBF, 0x80..=0xBF, ..]) => 3, // row 4
        0xED if matches!(rest, [0x80..=0x9F, 0x80..=0xBF, ..]) => 3, // row 5
        0xEE..=0xEF if matches!(rest, [0x80..=0xBF, 0x80..=0xBF, ..]) => 3, // row 6
        0xF0 if matches!(rest, [0x90..=0xBF, 0x80..=0xBF, 0x80..=0xBF, ..]) => 4, // row 7
        0xF1..=0xF3 if matches!(rest, [0x80..=0xBF, 0x80..=0xBF, 0x80..=0xBF, ..]) => 4, // row 8
        0xF4 if matches!(rest, [0x80..=0x8F, 0x80..=0xBF, 0x80..=0xBF, ..]) => 4, // row 9
        _ => 0,
    }
}

// How many bytes of row 1 s begins with, rounded down to a multiple of four: most texts have hardly any others, and this is the quick way through
// them. The or of four bytes is over 7F exactly where one of them is, so one test does for four. It is inlined always: called, it would make texts
// in which other scalars stand between single bytes take half as long again.
#[inline(always)]
fn plain(s: &[u8]) -> usize
    ensures { (result ≤ length s.now) × (well_formed s.now ≡ well_formed (drop result s.now)) }
{
    let mut n: usize = 0;
    while let &[a, b, c, d, ..] = &s[n..] {
        if (a | b | c | d) > 0x7F {
            return n;
        }
        n += 4;
    }
    n
}

// Whether all of s is text; a scalar that s breaks off is not.
pub fn well_formed(s: &[u8]) -> bool
    ensures { result ≡ well_formed s.now }
{
    let mut i: usize = plain(s);
    // A step is as wide as a scalar, so no range counts it. Behind a byte of row 1 there may be more of them, which go the quick way again.
    while i < s.len() {
        let n = width_at(s, i);
        if n == 0 {
            return false;
        }
        i += n;
        if n == 1 {
            i += plain(&s[i..]);
        }
    }
    true
}

// The n bytes of text at a place: bytes that are missing go before bad text.
pub fn text_at(s: &[u8], at: usize, n: usize) -> Result<usize, Refusal>
    ensures { result ≡ text_at s.now at n }
{
    let text = fields::part_at(s, at, n).ok_or(Refusal::CutShort)?;
    if well_formed(text) {
        Ok(at + n)
    } else {
        Err(Refusal::BadText)
    }
}

// How many bytes follow a first byte; 4 for a byte that is none, as the definition has it (`need_of`): no Option. For the length of a Char; the text check does not ask it.
pub fn need_of(b: u8) -> u8
    ensures { result ≡ need_of b }
{
    match b {
        0x00..=0x7F => 0,
        0xC2..=0xDF => 1,
        0xE0..=0xEF => 2,
        0xF0..=0xF4 => 3,
        _ => 4,
    }
}
