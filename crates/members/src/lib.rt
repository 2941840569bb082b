// Rows by the names of their words, the slots that they fill, and what the record of a class says of its members: names and primitive codes, found in
// the stream where the class's row points. Every stream, table and row is taken; a row that is not there has words of 0.
#![tactic(auto)]

ghost use Rattle.std.specs.Prelude.{◌≡◌};
ghost use Rattle.members.specs.Members.{word_of, row_in, named_row, depth_of, slots_filled, last_of, has_members, fields_row, names_at};
ghost use Rattle.members.specs.Members.{after_strings, member_name, after_detail, detail_of, member_code, library_of, class_name};

use format::{Reader, Row, Span};
use peeking::on;

// ---- rows

// Word k of a row, 0 where there is none.
fn word(table: &[u32], row: usize, k: usize) -> u32
    ensures { result ≡ word_of table.now row k }
{
    if row < table.len() / 8 && k < 8 {
        table[8 * row + k]
    } else {
        0
    }
}

// The words of a row by their names.
pub fn row_at(table: &[u32], row: usize) -> Row
    ensures { result ≡ row_in table.now row }
{
    Row {
        kind: word(table, row, 0),
        offset: word(table, row, 1),
        end: word(table, row, 2),
        id: word(table, row, 3),
        owner: word(table, row, 4),
        slot: word(table, row, 5),
        link: word(table, row, 6),
        count: word(table, row, 7),
    }
}

// The row that an owner or link word names: such a word is the row's number plus 1.
pub fn named_row(w: u32) -> usize
    ensures { result ≡ named_row w }
{
    (w as usize).saturating_sub(1)
}

// How many objects a row stands in. At most 64 objects are open.
pub fn depth_of(table: &[u32], owner: u32) -> usize
    ensures { result ≡ depth_of table.now owner }
{
    let mut w = owner;
    for depth in 0..Reader::OPEN {
        if w == 0 {
            return depth;
        }
        w = word(table, named_row(w), 4);
    }
    Reader::OPEN
}

// How many slots a row fills: a null run as many as it counts, any other row one.
pub fn filled(r: Row) -> u32
    ensures { result ≡ slots_filled r }
{
    match r.kind {
        13 | 14 => r.count,
        _ => 1,
    }
}

// The last of so many slots; the first where there is none, or where the one after the last has no number.
pub fn last_of(first: u32, count: u32) -> u32
    ensures { result ≡ last_of first count }
{
    match first.checked_add(count) {
        Some(_) => first + count.saturating_sub(1),
        None => first,
    }
}

// Whether a kind is that of a class's object.
pub fn is_class(kind: u32) -> bool
    ensures { result ≡ has_members kind }
{
    matches!(kind, 1 | 4 | 5)
}

// ---- the fields of a class record

// The row that has the fields of an object's class: of kind 1 the row that it names.
pub fn class_row(table: &[u32], r: Row) -> Row
    ensures { result ≡ fields_row table.now r }
{
    if r.kind == 1 {
        return row_at(table, named_row(r.link));
    }
    r
}

// The place of the first of a class's member names, after its name and its count.
fn names_at(s: &[u8], r: Row) -> usize
    ensures { result ≡ names_at s.now r }
{
    let name = on(s, r.offset as usize, 5);
    on(s, peeking::after_string(s, name), 4)
}

// The place after n strings.
fn after_strings(s: &[u8], from: usize, n: u32) -> usize
    ensures { result ≡ after_strings n s.now from }
{
    let mut at = from;
    for _ in 0..n {
        at = peeking::after_string(s, at);
    }
    at
}

// The name of member k.
pub fn member_name(s: &[u8], r: Row, k: u32) -> Span
    ensures { result ≡ member_name s.now r k }
{
    peeking::string_at(s, after_strings(s, names_at(s, r), k))
}

// The place after the detail of a type.
fn after_detail(s: &[u8], at: usize, t: u8) -> usize
    ensures { result ≡ after_detail s.now at t }
{
    match t {
        0 | 7 => on(s, at, 1),
        3 => peeking::after_string(s, at),
        4 => on(s, peeking::after_string(s, at), 4),
        _ => at,
    }
}

// The place of the detail of member k, from the places of the type bytes and of the first detail.
fn detail_of(s: &[u8], types: usize, details: usize, k: u32) -> usize
    ensures { result ≡ detail_of s.now types details k }
{
    let mut at = details;
    for i in 0..k {
        at = after_detail(s, at, peeking::byte_at(s, on(s, types, i as usize)));
    }
    at
}

// The primitive code of member k.
pub fn member_code(s: &[u8], r: Row, k: u32) -> u8
    ensures { result ≡ member_code s.now r k }
{
    let types = after_strings(s, names_at(s, r), r.count);
    let details = on(s, types, r.count as usize);
    peeking::byte_at(s, detail_of(s, types, details, k))
}

// The LibraryId of a class, its last four bytes.
pub fn library_of(s: &[u8], r: Row) -> u32
    ensures { result ≡ library_of s.now r }
{
    match r.end.checked_sub(4) {
        Some(at) => peeking::u32_at(s, at as usize),
        None => 0,
    }
}

// The name of a class, from the row that has its fields.
pub fn class_name(s: &[u8], r: Row) -> Span
    ensures { result ≡ class_name s.now r }
{
    peeking::string_at(s, on(s, r.offset as usize, 5))
}
