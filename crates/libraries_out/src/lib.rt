// The libraries that a record needs and that no record before it has named, as the tidy copy has them: each right before that record.
#![tactic(auto)]

ghost use Rattle.std.specs.Prelude.{◌≡◌, ◌+◌, ◌-◌, ◌≤◌, ◌<◌};
ghost use Rattle.format.specs.Rows.{rows_of, room_of};
ghost use Rattle.put.specs.Put.{Filled};
ghost use Rattle.marks.specs.Marks.{infos_place};
ghost use Rattle.pieces.specs.Copy.{library_number, library_out, need_out, need_info_out, need_infos_out, need_own_out, need_class_out};

use format::{LibraryNo, Row};

// ---- libraries, each before the first record that needs it

// The new number of the library whose number stands at p.
pub fn library_number(s: &[u8], table: &[u32], n: usize, p: usize) -> LibraryNo
    requires { (n ≤ room_of table.now) × (n < 4294967296) }
    ensures { result.0 ≡ library_number s.now (rows_of n table.now) p }
{
    let f = marks::library_at(s, table, n, p);
    let g = marks::row_named(table, n, f);
    LibraryNo(g.link)
}

// BinaryLibrary (2.6.2 in MS-NRBF): the new number, then the name.
fn put_library(out: &mut [u8], s: &[u8], g: Row) -> usize
    ensures { Filled (library_out s.now g) out.old out.new result }
{
    let a = heads::put_library_head(out, LibraryNo(g.link));
    let from = put::least(a, out.len());
    let b = put::put_text(&mut out[from..], s, (g.offset as usize) + 5);
    put::add_up(a, b)
}

// The record of the library that the field at p is the first to need.
fn put_need(out: &mut [u8], s: &[u8], table: &[u32], n: usize, p: usize) -> usize
    requires { (n ≤ room_of table.now) × (n < 4294967296) × (p < 18446744073709551615) }
    ensures { Filled (need_out s.now (rows_of n table.now) p) out.old out.new result }
{
    let f = marks::library_at(s, table, n, p);
    let g = marks::row_named(table, n, f);
    let mark = marks::word(p + 1);
    if g.slot == mark {
        return put_library(out, s, g);
    }
    0
}

// For a detail that ends at e.
pub fn put_need_info(out: &mut [u8], s: &[u8], table: &[u32], n: usize, kind: u8, e: usize) -> usize
    requires { (n ≤ room_of table.now) × (n < 4294967296) }
    ensures { Filled (need_info_out s.now (rows_of n table.now) kind e) out.old out.new result }
{
    if kind == 4 {
        let p = marks::less(e, 4);
        return put_need(out, s, table, n, p);
    }
    0
}

// For the details of a class's members.
fn put_need_infos(out: &mut [u8], s: &[u8], table: &[u32], n: usize, r: Row) -> usize
    requires { (n ≤ room_of table.now) × (n < 4294967296) }
    ensures { Filled (need_infos_out s.now (rows_of n table.now) r.count r.slot (infos_place r)) out.old out.new result }
{
    let count = r.count as usize;
    let kinds = r.slot as usize;
    let mut at: usize = 0;
    let mut p = kinds + count;
    for i in 0..count {
        let kind = codes::byte_at(s, kinds + i);
        let e = spans::after_info(s, kind, p);
        let from = put::least(at, out.len());
        let b = put_need_info(&mut out[from..], s, table, n, kind, e);
        at = put::add_up(at, b);
        p = e;
    }
    at
}

// For a class of a library.
fn put_need_own(out: &mut [u8], s: &[u8], table: &[u32], n: usize, r: Row) -> usize
    requires { (n ≤ room_of table.now) × (n < 4294967296) }
    ensures { Filled (need_own_out s.now (rows_of n table.now) r) out.old out.new result }
{
    if r.kind == 5 {
        let p = marks::less(r.end as usize, 4);
        return put_need(out, s, table, n, p);
    }
    0
}

pub fn put_need_class(out: &mut [u8], s: &[u8], table: &[u32], n: usize, r: Row) -> usize
    requires { (n ≤ room_of table.now) × (n < 4294967296) }
    ensures { Filled (need_class_out s.now (rows_of n table.now) r) out.old out.new result }
{
    let a = put_need_infos(out, s, table, n, r);
    let from = put::least(a, out.len());
    let b = put_need_own(&mut out[from..], s, table, n, r);
    put::add_up(a, b)
}
