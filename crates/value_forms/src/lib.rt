// The forms of a value: bytes, a Boolean, a Char, a Decimal, a DateTime.
#![tactic(auto)]

ghost use Rattle.std.specs.Prelude.{◌≡◌};
ghost use Rattle.format.specs.Values.{bytes_at, boolean_at, scalar_at, char_at, decimal_text, decimal_at, date_time_at};

use format::{Refusal, Setting};

// n bytes, whatever they are.
pub fn bytes_at(s: &[u8], at: usize, n: usize) -> Result<usize, Refusal>
    ensures { result ≡ bytes_at s.now at n }
{
    fields::part_at(s, at, n).ok_or(Refusal::CutShort)?;
    Ok(at + n)
}

pub fn boolean_at(s: &[u8], at: usize) -> Result<usize, Refusal>
    ensures { result ≡ boolean_at s.now at }
{
    if s.len() <= at {
        return Err(Refusal::CutShort);
    }
    if s[at] > 1 {
        return Err(Refusal::BadValue);
    }
    Ok(at + 1)
}

// A scalar of so many bytes.
fn scalar_at(s: &[u8], at: usize, size: usize) -> Result<usize, Refusal>
    ensures { result ≡ scalar_at s.now at size }
{
    let scalar = fields::part_at(s, at, size).ok_or(Refusal::CutShort)?;
    if text::well_formed(scalar) {
        Ok(at + size)
    } else {
        Err(Refusal::BadValue)
    }
}

// A first byte that is none is bad at once, also where nothing follows it.
pub fn char_at(s: &[u8], at: usize) -> Result<usize, Refusal>
    ensures { result ≡ char_at s.now at }
{
    if s.len() <= at {
        return Err(Refusal::CutShort);
    }
    let more = text::need_of(s[at]);
    if more == 4 {
        return Err(Refusal::BadValue);
    }
    scalar_at(s, at, (more as usize) + 1)
}

// So many bytes of Decimal text; they are never judged as UTF-8.
fn decimal_text(s: &[u8], at: usize, count: usize) -> Result<usize, Refusal>
    ensures { result ≡ decimal_text s.now at count }
{
    let digits = fields::part_at(s, at, count).ok_or(Refusal::CutShort)?;
    if decimal::is_decimal(digits) {
        Ok(at + count)
    } else {
        Err(Refusal::BadValue)
    }
}

pub fn decimal_at(s: &[u8], at: usize, setting: Setting) -> Result<usize, Refusal>
    ensures { result ≡ decimal_at setting s.now at }
{
    let (n, next) = prefix::prefix_at(s, at, setting)?;
    decimal_text(s, next, n as usize)
}

// The kind is 0 to 2; the ticks have no sign and end with the last one of the year 9999.
pub fn date_time_at(s: &[u8], at: usize) -> Result<usize, Refusal>
    ensures { result ≡ date_time_at s.now at }
{
    let (x, next) = num::u64_at(s, at).ok_or(Refusal::CutShort)?;
    if x / 4611686018427387904 >= 3 {
        return Err(Refusal::BadValue);
    }
    if x % 4611686018427387904 > 3155378975999999999 {
        return Err(Refusal::BadValue);
    }
    Ok(next)
}
