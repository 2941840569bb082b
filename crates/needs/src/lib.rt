// Libraries are numbered by first need, in the order of the fields that name them: what a field, a class, an item type and a row need.
#![tactic(auto)]

ghost use Rattle.std.specs.Prelude.{◌≡◌, ◌≤◌};
ghost use Rattle.format.specs.Rows.{room_of, rows_of};
ghost use Rattle.marks.specs.Marks.{pass, need, need_info, need_infos, need_own, need_class, need_array, need_one};

use format::{LibraryNo, Row};

// The field at p needs its library, which gets the number after the last one if it has none.
fn need(s: &[u8], table: &mut [u32], n: usize, p: usize, last: LibraryNo) -> LibraryNo
    requires { n ≤ room_of table.old }
    ensures { pass result.0 (rows_of n table.new) ≡ need s.now p (pass last.0 (rows_of n table.old)) }
{
    let f = marks::library_at(s, table, n, p);
    let g = marks::row_named(table, n, f);
    if g.slot == 0 {
        let number = marks::next_library(last);
        let placed = marks::with_slot(g, marks::plus(marks::word(p), 1));
        marks::put_named(
            table,
            n,
            marks::less(f as usize, 1),
            marks::with_library_no(placed, number),
        );
        return number;
    }
    last
}

// A detail that ends at a place.
fn need_info(
    s: &[u8],
    table: &mut [u32],
    n: usize,
    kind: u8,
    end: usize,
    last: LibraryNo,
) -> LibraryNo
    requires { n ≤ room_of table.old }
    ensures { pass result.0 (rows_of n table.new) ≡ need_info s.now kind end (pass last.0 (rows_of n table.old)) }
{
    if kind == 4 {
        return need(s, table, n, marks::less(end, 4), last);
    }
    last
}

// The details of as many members as count.
fn need_infos(
    s: &[u8],
    table: &mut [u32],
    n: usize,
    count: u32,
    types: u32,
    infos: usize,
    last: LibraryNo,
) -> LibraryNo
    requires { n ≤ room_of table.old }
    ensures { pass result.0 (rows_of n table.new) ≡ need_infos s.now count types infos (pass last.0 (rows_of n table.old)) }
{
    let mut p = infos;
    let mut number = last;
    for i in 0..count {
        let kind = codes::byte_at(s, (types as usize) + (i as usize));
        let end = spans::after_info(s, kind, p);
        number = need_info(s, table, n, kind, end, number);
        p = end;
    }
    number
}

// A class's own library, if it has one.
fn need_own(s: &[u8], table: &mut [u32], n: usize, r: Row, last: LibraryNo) -> LibraryNo
    requires { n ≤ room_of table.old }
    ensures { pass result.0 (rows_of n table.new) ≡ need_own s.now r (pass last.0 (rows_of n table.old)) }
{
    if r.kind == 5 {
        return need(s, table, n, marks::less(r.end as usize, 4), last);
    }
    last
}

fn need_class(s: &[u8], table: &mut [u32], n: usize, r: Row, last: LibraryNo) -> LibraryNo
    requires { n ≤ room_of table.old }
    ensures { pass result.0 (rows_of n table.new) ≡ need_class s.now r (pass last.0 (rows_of n table.old)) }
{
    let number = need_infos(s, table, n, r.count, r.slot, marks::infos_place(r), last);
    need_own(s, table, n, r, number)
}

fn need_array(s: &[u8], table: &mut [u32], n: usize, r: Row, last: LibraryNo) -> LibraryNo
    requires { n ≤ room_of table.old }
    ensures { pass result.0 (rows_of n table.new) ≡ need_array s.now r (pass last.0 (rows_of n table.old)) }
{
    let p = marks::item_type(s, r);
    let kind = codes::byte_at(s, p);
    need_info(s, table, n, kind, spans::after_info(s, kind, p + 1), last)
}

// What row i needs: a class's first row the libraries of the class, a BinaryArray that of its items.
pub fn need_one(s: &[u8], table: &mut [u32], n: usize, i: usize, last: LibraryNo) -> LibraryNo
    requires { n ≤ room_of table.old }
    ensures { pass result.0 (rows_of n table.new) ≡ need_one s.now i (pass last.0 (rows_of n table.old)) }
{
    let r = table::row_at(table, n, i);
    if marks::is_first(i, r) {
        return need_class(s, table, n, r, last);
    }
    if r.kind == 7 {
        return need_array(s, table, n, r, last);
    }
    last
}
