// Spells out what stands in the bytes of a stream, for people: numbers, texts with their control characters and quotation marks escaped, and primitive values by their
// code. Every stream and every place is taken. What is written cannot be promised; the programs' stored outputs hold it.
#![tactic(auto)]

ghost use Rattle.std.specs.Prelude.{◌≤◌, ◌<◌, length};
ghost use Rattle.floats.specs.Forms.{Small};

use floats::Form;
use format::Span;
use output::{Output, say};
use peeking::{byte_at, on, u16_at, u32_at, u64_at};
use std::{fmt, str};

// ---- texts

// The hexadecimal digits.
const DIGITS: [u8; 16] = *b"0123456789abcdef";

// A byte by its two hexadecimal digits: four characters that go to the output at once, where a format would write a zero before a digit by itself.
fn by_digits(b: u8) -> [u8; 4] {
    [
        b'\\',
        b'x',
        DIGITS[usize::from(b / 16)],
        DIGITS[usize::from(b % 16)],
    ]
}

// A byte that is not shown as it is.
#[derive(Clone, Copy)]
struct Escaped(u8);

impl fmt::Display for Escaped {
    fn fmt<W: fmt::Write>(&self, f: &mut fmt::Formatter<W>) -> fmt::Result {
        match self.0 {
            b'\t' => f.write_str("\\t"),
            b'\n' => f.write_str("\\n"),
            b'\r' => f.write_str("\\r"),
            b'"' => f.write_str("\\\""),
            b'`' => f.write_str("\\`"),
            b => f.write_str(str::from_utf8(&by_digits(b)).unwrap_or("")),
        }
    }
}

// The bytes of a text that are shown as they are. They need not be UTF-8, so no format takes them.
fn shown(bytes: &[u8]) {
    Output::Standard.bytes(bytes);
}

// A character whose first byte is not plain, as it is or escaped byte by byte; the place after what was shown.
fn character(s: &[u8], at: usize) -> usize
    requires { at < length s.now }
    ensures { (at < result) × (result ≤ length s.now) }
{
    let n = peeking::hidden_at(s, at);
    if n == 0 {
        shown(&s[at..at + 1]);
        return at + 1;
    }
    for i in 0..n {
        say!("{}", Escaped(byte_at(s, on(s, at, i))));
    }
    on(s, at, n)
}

// A text, whole. A turn goes on by as many bytes as it shows, so it is no `for` over bytes.
pub fn text(s: &[u8]) {
    let mut at: usize = 0;
    while at < s.len() {
        let end = peeking::plain_end(s, at);
        shown(&s[at..end]);
        if s.len() <= end {
            return;
        }
        at = character(s, end);
    }
}

// The text of a span.
pub fn text_of(s: &[u8], t: Span) {
    if let Some(bytes) = s.get(t.from..t.to) {
        text(bytes);
    }
}

// ---- primitive values

// The name of a primitive code. A code is any byte, so it goes by its number in the format.
pub fn code_name(code: u8) -> &'static str {
    match code {
        1 => "Boolean",
        2 => "Byte",
        3 => "Char",
        5 => "Decimal",
        6 => "Double",
        7 => "Int16",
        8 => "Int32",
        9 => "Int64",
        10 => "SByte",
        11 => "Single",
        12 => "TimeSpan",
        13 => "DateTime",
        14 => "UInt16",
        15 => "UInt32",
        16 => "UInt64",
        _ => "no primitive",
    }
}

// A Char in quotes; the quotation mark itself has a backslash before it.
fn char_value(s: &[u8], at: usize) {
    let escape = if byte_at(s, at) == b'\'' { "\\" } else { "" };
    say!("'{escape}");
    let to = peeking::after_value(s, at, 3);
    text_of(s, Span { from: at, to });
    say!("'");
}

// ---- Doubles and Singles. Of their 650 digits 310 stand before the point.

// The bits, as hexadecimal digits, behind what does not say them all.
fn bits(n: u64, width: usize) {
    say!(" (bits {n:0width$x})");
}

// The power of ten that the first digit stands for.
fn power(first: usize) {
    if first < 310 {
        say!("E+{}", 309 - first);
    } else {
        say!("E-{}", first - 309);
    }
}

// The digits with a point after the first, and the power of ten.
fn scientific(letters: &[u8], first: usize, end: usize)
    requires { (first < end) × (end ≤ length letters.now) }
{
    let second = first + 1;
    shown(&letters[first..second]);
    if second < end {
        say!(".");
        shown(&letters[second..end]);
    }
    power(first);
}

// The digits around the point, with a zero before it where no other digit is.
fn plain(letters: &[u8], first: usize, end: usize)
    requires { (310 ≤ length letters.now) × (end ≤ length letters.now) }
{
    if first < 310 {
        shown(&letters[first..310]);
    } else {
        say!("0");
    }
    if 310 < end {
        say!(".");
        shown(&letters[310..end]);
    }
}

// The digits from the first to the last that is not zero: plain, or with a power of ten where they stand far from the point.
fn digits(letters: &[u8], first: usize, end: usize)
    requires { (310 ≤ length letters.now) × (end ≤ length letters.now) }
{
    if end <= first {
        say!("0");
    } else if first < 295 || 314 < first {
        scientific(letters, first, end);
    } else {
        plain(letters, first, end);
    }
}

// A number, rounded to its first `most` digits. Whether nothing was left out is answered.
fn rounded(mantissa: u64, place: usize, most: usize) -> bool
    requires { (mantissa < 9007199254740992) × (place ≤ 2059) }
{
    let mut d = [0u8; 650];
    let more = floats::digits_of(mantissa, place, &mut d);
    let exact = floats::round(&mut d, most);
    let first = floats::first_digit(&d);
    let end = floats::digits_end(&d);
    floats::letters(&mut d);
    digits(&d, first, end);
    exact && !more
}

// A number that is not negative, to so many digits, and its bits where they say more.
fn number_of(mantissa: u64, place: usize, n: u64, most: usize, width: usize)
    requires { (mantissa < 9007199254740992) × (place ≤ 2059) }
{
    if !rounded(mantissa, place, most) {
        bits(n, width);
    }
}

// What the bits n say, to so many digits.
fn float(f: Form, negative: bool, n: u64, most: usize, width: usize)
    requires { Small f }
{
    let sign = if negative { "-" } else { "" };
    match f {
        Form::Infinity => say!("{sign}infinity"),
        Form::NotANumber => {
            say!("not a number");
            bits(n, width);
        }
        Form::Number(mantissa, place) => {
            say!("{sign}");
            number_of(mantissa, place, n, most, width);
        }
    }
}

fn double(n: u64) {
    float(floats::double(n), 9223372036854775808 <= n, n, 15, 16);
}

fn single(n: u32) {
    float(floats::single(n), 2147483648 <= n, n as u64, 7, 8);
}

// ---- DateTimes and TimeSpans, in ticks

const DAY: u64 = 864000000000;

// The ticks behind a whole second, of which ten million are one: a point and up to seven digits, without zeros at the end. Of no ticks nothing.
#[derive(Clone, Copy)]
struct Fraction(u64);

impl fmt::Display for Fraction {
    fn fmt<W: fmt::Write>(&self, f: &mut fmt::Formatter<W>) -> fmt::Result {
        let mut left = self.0;
        if left != 0 {
            f.write_str(".")?;
        }
        for _ in 0..7 {
            if left == 0 {
                break;
            }
            write!(f, "{}", left / 1000000)?;
            left = left % 1000000 * 10;
        }
        Ok(())
    }
}

// The time of day.
#[derive(Clone, Copy)]
struct Clock(u64);

impl fmt::Display for Clock {
    fn fmt<W: fmt::Write>(&self, f: &mut fmt::Formatter<W>) -> fmt::Result {
        let c = calendar::clock_of(self.0);
        write!(
            f,
            "{:02}:{:02}:{:02}{}",
            c.hours,
            c.minutes,
            c.seconds,
            Fraction(c.ticks)
        )
    }
}

// The date of a day number.
#[derive(Clone, Copy)]
struct Date(u64);

impl fmt::Display for Date {
    fn fmt<W: fmt::Write>(&self, f: &mut fmt::Formatter<W>) -> fmt::Result {
        let d = calendar::date_of(self.0);
        write!(f, "{:04}-{:02}-{:02}", d.year, d.month, d.day)
    }
}

// A DateTime: its date, its time of day, and its kind by its top two bits.
#[derive(Clone, Copy)]
struct DateTime(u64);

impl fmt::Display for DateTime {
    fn fmt<W: fmt::Write>(&self, f: &mut fmt::Formatter<W>) -> fmt::Result {
        let ticks = self.0 % 4611686018427387904;
        let kind = match self.0 / 4611686018427387904 {
            0 => "of no time zone",
            1 => "UTC",
            _ => "local time",
        };
        write!(f, "{} {} {kind}", Date(ticks / DAY), Clock(ticks))
    }
}

// A TimeSpan, with its days where it has some.
#[derive(Clone, Copy)]
struct TimeSpan(i64);

impl fmt::Display for TimeSpan {
    fn fmt<W: fmt::Write>(&self, f: &mut fmt::Formatter<W>) -> fmt::Result {
        let ticks = self.0.unsigned_abs();
        let days = ticks / DAY;
        if self.0 < 0 {
            f.write_str("-")?;
        }
        if days > 0 {
            write!(f, "{days}.")?;
        }
        write!(f, "{}", Clock(ticks))
    }
}

// The value at a place, by its code.
pub fn value(s: &[u8], at: usize, code: u8) {
    match code {
        1 => say!("{}", byte_at(s, at) != 0),
        2 => say!("{}", byte_at(s, at)),
        3 => char_value(s, at),
        5 => text_of(s, peeking::string_at(s, at)),
        6 => double(u64_at(s, at)),
        7 => say!("{}", u16_at(s, at).cast_signed()),
        8 => say!("{}", u32_at(s, at).cast_signed()),
        9 => say!("{}", u64_at(s, at).cast_signed()),
        10 => say!("{}", byte_at(s, at).cast_signed()),
        11 => single(u32_at(s, at)),
        12 => say!("{}", TimeSpan(u64_at(s, at).cast_signed())),
        13 => say!("{}", DateTime(u64_at(s, at))),
        14 => say!("{}", u16_at(s, at)),
        15 => say!("{}", u32_at(s, at)),
        16 => say!("{}", u64_at(s, at)),
        _ => say!("?"),
    }
}
