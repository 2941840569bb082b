// The class book, judged entry by entry where it stands; all prefixes are strict. What is bad in an entry is not told, only the place of the
// first bad one.
#![tactic(auto)]

ghost use Rattle.std.specs.Prelude.{◌≡◌, get_or};
ghost use Rattle.format.specs.Values.{on_end, times};
ghost use Rattle.format.specs.Types.{type_byte_at, name_at};
ghost use Rattle.format.specs.Entries.{coded_info_at, described_at, counted_at, origin_at, kept, entry_at, bad_entry};
ghost use Rattle.format.specs.declared.Setting.TheVariants as Q;

use format::{Refusal, Setting};

// The detail of a type: no type that names a class stands in a book.
fn coded_info_at(book: &[u8], kind: u8, at: usize) -> Result<usize, Refusal>
    ensures { result ≡ coded_info_at book.now kind at }
{
    match kind {
        3 => Err(Refusal::BadType),
        4 => Err(Refusal::BadType),
        _ => types::info_at(book, kind, at, Setting::Strict),
    }
}

// A type byte and its detail.
fn typed_at(book: &[u8], at: usize) -> Result<usize, Refusal>
    ensures { result ≡ on_end (coded_info_at book.now (get_or book.now at 0)) (type_byte_at book.now at) }
{
    let next = codes::type_byte_at(book, at)?;
    let kind = codes::byte_at(book, at);
    coded_info_at(book, kind, next)
}

// A member: its name and its type.
fn described_at(book: &[u8], at: usize) -> Result<usize, Refusal>
    ensures { result ≡ described_at book.now at }
{
    let next = types::name_at(book, at, Setting::Strict)?;
    typed_at(book, next)
}

// n members, one after the other: the first that is bad or missing decides.
fn all_described_at(book: &[u8], n: u8, at: usize) -> Result<usize, Refusal>
    ensures { result ≡ times (described_at book.now) n at }
{
    let mut p = at;
    for _ in 0..n {
        p = described_at(book, p)?;
    }
    Ok(p)
}

// The member count in a byte, then so many members.
fn counted_at(book: &[u8], at: usize) -> Result<usize, Refusal>
    ensures { result ≡ counted_at book.now at }
{
    if book.len() <= at {
        return Err(Refusal::CutShort);
    }
    all_described_at(book, book[at], at + 1)
}

// The library name of a class whose entry begins with 1; no other has one.
fn origin_at(book: &[u8], first: u8, at: usize) -> Result<usize, Refusal>
    ensures { result ≡ origin_at book.now first at }
{
    if first == 1 {
        return types::name_at(book, at, Setting::Strict);
    }
    Ok(at)
}

// The class name, and the library name where there is one.
fn class_at(book: &[u8], first: u8, at: usize) -> Result<usize, Refusal>
    ensures { result ≡ on_end (origin_at book.now first) (name_at Q.Strict book.now at) }
{
    let next = types::name_at(book, at, Setting::Strict)?;
    origin_at(book, first, next)
}

// What stands behind the first byte of an entry.
fn content_at(book: &[u8], first: u8, at: usize) -> Result<usize, Refusal>
    ensures { result ≡ on_end (counted_at book.now) (on_end (origin_at book.now first) (name_at Q.Strict book.now at)) }
{
    let next = class_at(book, first, at)?;
    counted_at(book, next)
}

// A place that has 32 bits.
fn kept_at(end: usize) -> Result<usize, Refusal>
    ensures { result ≡ kept end }
{
    if end > 4294967295 {
        return Err(Refusal::CutShort);
    }
    Ok(end)
}

// An entry: the first byte is 0 or 1, and the place after the entry has 32 bits.
fn entry_at(book: &[u8], at: usize) -> Result<usize, Refusal>
    ensures { result ≡ entry_at book.now at }
{
    if book.len() <= at {
        return Err(Refusal::CutShort);
    }
    if book[at] > 1 {
        return Err(Refusal::BadType);
    }
    let end = content_at(book, book[at], at + 1)?;
    kept_at(end)
}

// The place, plus 1, of the first bad entry; 0 where every entry is good.
pub fn bad_entry(book: &[u8]) -> usize
    ensures { result ≡ bad_entry book.now }
{
    let mut p = 0;
    // An entry is as long as its bytes say, so no range counts them.
    while p < book.len() {
        match entry_at(book, p) {
            Ok(next) => {
                p = next;
            }
            Err(_) => {
                return p + 1;
            }
        }
    }
    0
}
