// The places of strings and details that were judged before: neither the form of a prefix nor a text is judged again. Where what
// should stand at a place is not all there, the place after it is the place itself.
#![tactic(auto)]

ghost use Rattle.std.specs.Prelude.{◌≡◌, length};
ghost use Rattle.format.specs.Text.{span_at};
ghost use Rattle.format.specs.Types.{past, after_text, after_number, after_info};
ghost use Rattle.format.specs.Says.{after_texts};

use format::{Setting, Span};

// Where the text of the string at a place begins and ends.
pub fn span_at(s: &[u8], at: usize) -> Span
    ensures { result ≡ span_at s.now at }
{
    match prefix::prefix_at(s, at, Setting::Lenient) {
        Ok((n, next)) => {
            let to = next + (n as usize);
            if to <= s.len() {
                return Span { from: next, to };
            }
            Span { from: at, to: at }
        }
        Err(_) => Span { from: at, to: at },
    }
}

// The place after a string.
pub fn after_text(s: &[u8], at: usize) -> usize
    ensures { result ≡ after_text s.now at }
{
    let span = span_at(s, at);
    span.to
}

// The next place, never past the end.
fn after_byte(s: &[u8], at: usize) -> usize
    ensures { result ≡ past (length s.now) at }
{
    if at < s.len() {
        return at + 1;
    }
    at
}

// The place after a number of four bytes.
fn after_number(s: &[u8], at: usize) -> usize
    ensures { result ≡ after_number s.now at }
{
    // Past the end at + 4 need not fit.
    if at < s.len() {
        if at + 4 <= s.len() {
            return at + 4;
        }
    }
    at
}

// The place after the detail of a type: a primitive code, a class name, a class name and a LibraryId, or nothing.
pub fn after_info(s: &[u8], kind: u8, at: usize) -> usize
    ensures { result ≡ after_info s.now kind at }
{
    match kind {
        0 => after_byte(s, at),
        7 => after_byte(s, at),
        3 => after_text(s, at),
        4 => after_number(s, after_text(s, at)),
        _ => at,
    }
}
