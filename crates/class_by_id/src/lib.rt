// An object of a class that an earlier record describes: kind 1, ClassWithId in MS-NRBF (2.3.2.5).
#![tactic(auto)]

ghost use Rattle.std.specs.Prelude.{◌+◌, ◌-◌, ◌≤◌, ◌<◌, ◌≡◌, length, get_or};
ghost use Rattle.format.specs.Rows.{blank, room_of, rows_of, class_row};
ghost use Rattle.format.specs.Records.{within, first_type, of_class, class_by_id_at};
ghost use Rattle.class_info.specs.Stages.{by_metadata_at};

use format::{Head, ObjectNo, Refusal, Row, Typed};

// ---- kind 1

// The place after so many type bytes, never past the end.
fn infos_of(s: &[u8], types: u32, count: u32) -> u32
    requires { length s.now ≤ 16777216 }
    ensures { result ≡ within (length s.now) (types + count) }
{
    let p = (types as usize) + (count as usize);
    if s.len() < p {
        return s.len() as u32;
    }
    p as u32
}

// The type of the first member of the class in this row: in its record or, for kinds 2 and 3, in the book.
fn first_type(s: &[u8], book: &[u8], class: Row) -> Typed
    requires { length s.now ≤ 16777216 }
    ensures { result ≡ first_type book.now s.now class }
{
    let types = class.link;
    if lookups::is_untyped(class.kind) {
        return slots::booked_at(book, types);
    }
    slots::typed_at(s, types, infos_of(s, types, class.count))
}

// An object of the class in this row, a row number plus 1.
fn of_class(
    s: &[u8],
    book: &[u8],
    table: &[u32],
    n: usize,
    id: u32,
    end: usize,
    row: usize,
) -> Result<Head, Refusal>
    requires { (n ≤ room_of table.now) × (length s.now ≤ 16777216) × (n ≤ 16777216) × (0 < row) × (row ≤ n) }
    ensures { result ≡ of_class book.now s.now id end row (get_or (rows_of n table.now) (row - 1) blank) }
{
    let class = table::row_at(table, n, row - 1);
    let count = class.count;
    let first = first_type(s, book, class);
    Ok(Head {
        id,
        end,
        count,
        slots: count,
        first,
        link: row as u32,
    })
}

// The row of the class of this number, a record of kind 4 or 5: a row number plus 1, or 0.
fn class_row(table: &[u32], n: usize, class: ObjectNo) -> usize
    requires { n ≤ room_of table.now }
    ensures { result ≡ class_row class.0 (rows_of n table.now) }
{
    lookups::find_class(table, n, class)
}

// A class by id whose ObjectId is read: the MetadataId, and the row of its class.
fn by_metadata_at(
    s: &[u8],
    book: &[u8],
    table: &[u32],
    n: usize,
    id: u32,
    at: usize,
) -> Result<Head, Refusal>
    requires { (n ≤ room_of table.now) × (length s.now ≤ 16777216) × (n ≤ 16777216) }
    ensures { result ≡ by_metadata_at book.now s.now (rows_of n table.now) id at }
{
    let (class, end) = num::u32_at(s, at).ok_or(Refusal::CutShort)?;
    let row = class_row(table, n, ObjectNo(class));
    if row == 0 {
        return Err(Refusal::NoClass);
    }
    of_class(s, book, table, n, id, end, row)
}

// 1, ClassWithId (2.3.2.5): ObjectId, MetadataId.
pub fn class_by_id_at(
    s: &[u8],
    book: &[u8],
    table: &[u32],
    n: usize,
    at: usize,
) -> Result<Head, Refusal>
    requires { (n ≤ room_of table.now) × (length s.now ≤ 16777216) × (n ≤ 16777216) × (at < length s.now) }
    ensures { result ≡ class_by_id_at book.now s.now (rows_of n table.now) at }
{
    let (id, p) = num::u32_at(s, at + 1).ok_or(Refusal::CutShort)?;
    if classes::is_free_class_id(table, n, ObjectNo(id)) {
        return by_metadata_at(s, book, table, n, id, p);
    }
    Err(Refusal::BadId)
}
