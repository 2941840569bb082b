// Names, LibraryIds, type bytes and their details at a place, one and in a row. A field whose bytes are missing is cut
// short, whatever the place is, before its bytes are judged.
#![tactic(auto)]

ghost use Rattle.std.specs.Prelude.{◌≡◌};
ghost use Rattle.format.specs.Values.{on_end, times};
ghost use Rattle.format.specs.Types.{type_byte_at, name_at, positive, library_id_at, info_at};

use format::{Refusal, Setting};

pub fn name_at(s: &[u8], at: usize, setting: Setting) -> Result<usize, Refusal>
    ensures { result ≡ name_at setting s.now at }
{
    let text = strings::string_at(s, at, setting)?;
    Ok(text.to)
}

// Positive, by its unsigned bits.
pub fn is_positive(n: u32) -> bool
    ensures { result ≡ positive n }
{
    if n == 0 {
        return false;
    }
    let negative = num::is_negative(n);
    !negative
}

// A LibraryId, by its sign alone.
pub fn library_id_at(s: &[u8], at: usize) -> Result<usize, Refusal>
    ensures { result ≡ library_id_at s.now at }
{
    let (id, next) = num::u32_at(s, at).ok_or(Refusal::CutShort)?;
    if is_positive(id) {
        return Ok(next);
    }
    Err(Refusal::BadId)
}

// A class name and a LibraryId.
fn class_at(s: &[u8], at: usize, setting: Setting) -> Result<usize, Refusal>
    ensures { result ≡ on_end (library_id_at s.now) (name_at setting s.now at) }
{
    let next = name_at(s, at, setting)?;
    library_id_at(s, next)
}

// The detail of a type: a primitive code, a class name, a class name and a LibraryId, or nothing, which ends where it begins.
pub fn info_at(s: &[u8], kind: u8, at: usize, setting: Setting) -> Result<usize, Refusal>
    ensures { result ≡ info_at setting s.now kind at }
{
    match kind {
        0 => codes::code_at(s, at),
        7 => codes::code_at(s, at),
        3 => name_at(s, at, setting),
        4 => class_at(s, at, setting),
        _ => Ok(at),
    }
}

// n names, one after the other: the first that is bad or missing decides.
pub fn names_at(s: &[u8], n: u32, at: usize, setting: Setting) -> Result<usize, Refusal>
    ensures { result ≡ times (name_at setting s.now) n at }
{
    let mut p = at;
    for _ in 0..n {
        p = name_at(s, p, setting)?;
    }
    Ok(p)
}

// n type bytes, as the names.
pub fn type_bytes_at(s: &[u8], n: u32, at: usize) -> Result<usize, Refusal>
    ensures { result ≡ times (type_byte_at s.now) n at }
{
    let mut p = at;
    for _ in 0..n {
        p = codes::type_byte_at(s, p)?;
    }
    Ok(p)
}
