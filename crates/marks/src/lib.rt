// The words of rows that tidying marks, and what stands at the places that rows name: the parts from which marks are made and by which the copy is
// written. `specs/Marks.antt` says what the marks are.
#![tactic(auto)]

ghost use Rattle.std.specs.Prelude.{◌≡◌, ◌+◌, ◌-◌, ◌*◌, ◌≤◌, set};
ghost use Rattle.format.specs.Rows.{room_of, rows_of, with_link};
ghost use Rattle.format.specs.Says.{number_from};
ghost use Rattle.marks.specs.Marks.{row_at, with_id, with_slot, with_count, word, same_between, same_text, same_name, library_at, infos_place, item_type, is_first};

use format::{LibraryNo, ObjectNo, Row};

// ---- numbers

// The difference; 0 where there is none.
pub fn less(a: usize, b: usize) -> usize
    ensures { result ≡ a - b }
{
    a.saturating_sub(b)
}

// A number as a word has it.
pub fn word(n: usize) -> u32
    ensures { result ≡ word n }
{
    (n % 4294967296) as u32
}

// A sum as a word has it: the greatest word plus 1 is 0.
pub fn plus(n: u32, k: u32) -> u32
    ensures { result ≡ word (n + k) }
{
    n.wrapping_add(k)
}

// The number after an object's.
pub fn next_object(last: ObjectNo) -> ObjectNo
    ensures { result.0 ≡ word (last.0 + 1) }
{
    ObjectNo(plus(last.0, 1))
}

// The number after a library's.
pub fn next_library(last: LibraryNo) -> LibraryNo
    ensures { result.0 ≡ word (last.0 + 1) }
{
    LibraryNo(plus(last.0, 1))
}

// Four bytes as a number, the low one first.
fn joined(a: u8, b: u8, c: u8, d: u8) -> u32
    ensures { result ≡ a + 256 * b + 65536 * c + 16777216 * d }
{
    u32::from_le_bytes([a, b, c, d])
}

// ---- rows

// An object's row with this number.
pub fn with_object_no(r: Row, id: ObjectNo) -> Row
    ensures { result ≡ with_id r id.0 }
{
    Row { id: id.0, ..r }
}

pub fn with_slot(r: Row, slot: u32) -> Row
    ensures { result ≡ with_slot r slot }
{
    Row { slot, ..r }
}

fn with_link(r: Row, link: u32) -> Row
    ensures { result ≡ with_link r link }
{
    Row { link, ..r }
}

// A library's row whose link is its new number.
pub fn with_library_no(r: Row, id: LibraryNo) -> Row
    ensures { result ≡ with_link r id.0 }
{
    with_link(r, id.0)
}

// A class's row whose link is the first row, plus 1, of an equal class.
pub fn with_first_row(r: Row, first: u32) -> Row
    ensures { result ≡ with_link r first }
{
    with_link(r, first)
}

pub fn with_count(r: Row, count: u32) -> Row
    ensures { result ≡ with_count r count }
{
    Row { count, ..r }
}

// Where the details of a class's members begin.
pub fn infos_place(r: Row) -> usize
    ensures { result ≡ infos_place r }
{
    (r.slot as usize) + (r.count as usize)
}

// Whether row i, which is r, is a class's first.
pub fn is_first(i: usize, r: Row) -> bool
    ensures { result ≡ is_first i r }
{
    // A link of 0 names no row, and i + 1 need not fit.
    lookups::is_class(r.kind) && r.link != 0 && ((r.link - 1) as usize) == i
}

// The row that a word names.
pub fn row_named(table: &[u32], n: usize, f: u32) -> Row
    requires { n ≤ room_of table.now }
    ensures { result ≡ row_at (rows_of n table.now) f }
{
    table::row_at(table, n, less(f as usize, 1))
}

// Row i of the first n is r; past them nothing is written.
pub fn put_named(table: &mut [u32], n: usize, i: usize, r: Row)
    requires { n ≤ room_of table.old }
    ensures { rows_of n table.new ≡ set (rows_of n table.old) i r }
{
    if i < n {
        table::put_at(table, n, i, r);
    }
}

// ---- what stands at a place

// The number of the four bytes at a place, of those that are there.
pub fn number_from(s: &[u8], p: usize) -> u32
    ensures { result ≡ number_from s.now p }
{
    if s.len() <= p {
        return 0;
    }
    joined(
        codes::byte_at(s, p),
        codes::byte_at(s, p + 1),
        codes::byte_at(s, p + 2),
        codes::byte_at(s, p + 3),
    )
}

// Where the item type of a BinaryArray stands, after its rank and lengths.
pub fn item_type(s: &[u8], r: Row) -> usize
    ensures { result ≡ item_type s.now r }
{
    let rank = number_from(s, (r.offset as usize) + 6);
    (r.offset as usize) + 10 + 4 * (rank as usize)
}

// The first row, plus 1, of the library whose number stands at a place.
pub fn library_at(s: &[u8], table: &[u32], n: usize, p: usize) -> u32
    requires { n ≤ room_of table.now }
    ensures { result ≡ library_at s.now (rows_of n table.now) p }
{
    let id = number_from(s, p);
    let row = lookups::find_library(table, n, LibraryNo(id));
    let r = table::row_at(table, n, less(row, 1));
    r.count
}

// ---- the same bytes

// Whether the bytes from a to x and those from b to y are the same.
#[tactic(auto, unfolding(crate::specs::Marks::same_between))]
pub fn same_between(s: &[u8], a: usize, x: usize, b: usize, y: usize) -> bool
    ensures { result ≡ same_between s.now a x b y }
{
    let size = less(x, a);
    size == less(y, b) && same::same_part(s, a, b, size)
}

// Whether the strings at a and b have the same text, whatever their prefixes.
pub fn same_text(s: &[u8], a: usize, b: usize) -> bool
    ensures { result ≡ same_text s.now a b }
{
    let one = spans::span_at(s, a);
    let other = spans::span_at(s, b);
    same_between(s, one.from, one.to, other.from, other.to)
}

// Whether row b is a library with the name of library a.
#[tactic(auto, unfolding(crate::specs::Marks::same_name))]
pub fn same_name(s: &[u8], a: Row, b: Row) -> bool
    ensures { result ≡ same_name s.now a b }
{
    b.kind == 12 && same_text(s, (a.offset as usize) + 5, (b.offset as usize) + 5)
}
