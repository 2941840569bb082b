// The record of an array as the tidy copy has it: the libraries that it needs first, then its fields, then the items of a primitive one. `anew` is the code
// whose items are written anew.
#![tactic(auto)]

ghost use Rattle.std.specs.Prelude.{◌++◌, ◌≡◌, ◌&&◌, ◌+◌, ◌-◌, ◌≤◌, ◌<◌, get_or, eqb};
ghost use Rattle.format.specs.Rows.{rows_of, room_of};
ghost use Rattle.put.specs.Out.{between};
ghost use Rattle.put.specs.Put.{Filled};
ghost use Rattle.pieces.specs.Copy.{items_out, body_out, array_out};

use format::{ObjectNo, Row};

// ---- arrays

// Whether items of this type are written anew; their code stands at p.
fn are_anew(s: &[u8], kind: u8, p: usize, anew: u32) -> bool
    ensures { result ≡ (eqb kind 0 && eqb (get_or s.now p 0) anew) }
{
    kind == 0 && (codes::byte_at(s, p) as u32) == anew
}

// From the item type at p on, its detail ending at e.
fn put_items(
    out: &mut [u8],
    s: &[u8],
    table: &[u32],
    n: usize,
    p: usize,
    e: usize,
    r: Row,
    anew: u32,
) -> usize
    requires { (n ≤ room_of table.now) × (n < 4294967296) × (p < 18446744073709551615) }
    ensures { Filled (items_out anew s.now (rows_of n table.now) p e r) out.old out.new result }
{
    let kind = codes::byte_at(s, p);
    let prefixed = are_anew(s, kind, p + 1, anew);
    let a = details_out::put_info(out, s, table, n, kind, p + 1, e);
    let from = put::least(a, out.len());
    let b = values_out::put_values(&mut out[from..], s, prefixed, r.count, e, r.end as usize);
    put::add_up(a, b)
}

// An array after its ObjectId: array type, rank, lengths and item type are kept.
fn put_array_fields(
    out: &mut [u8],
    s: &[u8],
    table: &[u32],
    n: usize,
    p: usize,
    e: usize,
    r: Row,
    anew: u32,
) -> usize
    requires { (n ≤ room_of table.now) × (n < 4294967296) × (p < 18446744073709551615) }
    ensures { Filled (between s.now (r.offset + 5) (p + 1) ++ items_out anew s.now (rows_of n table.now) p e r) out.old out.new result }
{
    let a = put::put_part(out, s, (r.offset as usize) + 5, p + 1);
    let from = put::least(a, out.len());
    let b = put_items(&mut out[from..], s, table, n, p, e, r, anew);
    put::add_up(a, b)
}

// BinaryArray (2.4.3.1 in MS-NRBF).
fn put_body(
    out: &mut [u8],
    s: &[u8],
    table: &[u32],
    n: usize,
    p: usize,
    e: usize,
    r: Row,
    anew: u32,
) -> usize
    requires { (n ≤ room_of table.now) × (n < 4294967296) × (p < 18446744073709551615) }
    ensures { Filled (body_out anew s.now (rows_of n table.now) p e r) out.old out.new result }
{
    let a = heads::put_object_head(out, 7, ObjectNo(r.id));
    let from = put::least(a, out.len());
    let b = put_array_fields(&mut out[from..], s, table, n, p, e, r, anew);
    put::add_up(a, b)
}

// An array, after the library that its item type needs.
pub fn put_array(out: &mut [u8], s: &[u8], table: &[u32], n: usize, r: Row, anew: u32) -> usize
    requires { (n ≤ room_of table.now) × (n < 4294967296) }
    ensures { Filled (array_out anew s.now (rows_of n table.now) r) out.old out.new result }
{
    let p = marks::item_type(s, r);
    let kind = codes::byte_at(s, p);
    let e = spans::after_info(s, kind, p + 1);
    let a = libraries_out::put_need_info(out, s, table, n, kind, e);
    let from = put::least(a, out.len());
    let b = put_body(&mut out[from..], s, table, n, p, e, r, anew);
    put::add_up(a, b)
}
