// Writes what a row is in the tidy copy: strings, primitive values and arrays of them with new prefixes and records that are kept here, classes by the
// crate `writing`, kind 7 by `arrays_out`; and the choice by kind. `anew` is the code whose values are written anew.
#![tactic(auto)]

ghost use Rattle.std.specs.Prelude.{◌+◌, ◌-◌, ◌≤◌, ◌<◌};
ghost use Rattle.format.specs.Rows.{rows_of, room_of};
ghost use Rattle.put.specs.Put.{Filled};
ghost use Rattle.pieces.specs.Copy.{typed_out, member_out, primitive_items_out, primitives_out, kept_out, string_out, record_out};

use format::{ObjectNo, Row};

// ---- a row

// An object whose bytes after the ObjectId are kept: ArraySingleObject (2.4.3.2 in MS-NRBF) and ArraySingleString (2.4.3.4).
fn put_kept(out: &mut [u8], s: &[u8], r: Row) -> usize
    ensures { Filled (kept_out s.now r) out.old out.new result }
{
    let a = heads::put_object_head(out, (r.kind % 256) as u8, ObjectNo(r.id));
    let from = put::least(a, out.len());
    let b = put::put_part(&mut out[from..], s, (r.offset as usize) + 5, r.end as usize);
    put::add_up(a, b)
}

// BinaryObjectString (2.5.7).
fn put_string(out: &mut [u8], s: &[u8], r: Row) -> usize
    ensures { Filled (string_out s.now r) out.old out.new result }
{
    let a = heads::put_object_head(out, 6, ObjectNo(r.id));
    let from = put::least(a, out.len());
    let b = put::put_text(&mut out[from..], s, (r.offset as usize) + 5);
    put::add_up(a, b)
}

// MemberPrimitiveTyped (2.5.1): kind and code are kept, then the value.
fn put_typed(out: &mut [u8], s: &[u8], r: Row, anew: u32) -> usize
    ensures { Filled (typed_out anew s.now r) out.old out.new result }
{
    let at = r.offset as usize;
    let prefixed = (codes::byte_at(s, at + 1) as u32) == anew;
    let a = put::put_part(out, s, at, at + 2);
    let from = put::least(a, out.len());
    let b = values_out::put_value(&mut out[from..], s, prefixed, at + 2, r.end as usize);
    put::add_up(a, b)
}

// An array of primitive values after its ObjectId: length and code are kept, then the items.
fn put_primitive_items(out: &mut [u8], s: &[u8], r: Row, anew: u32) -> usize
    ensures { Filled (primitive_items_out anew s.now r) out.old out.new result }
{
    let at = r.offset as usize;
    let prefixed = (codes::byte_at(s, at + 9) as u32) == anew;
    let a = put::put_part(out, s, at + 5, at + 10);
    let from = put::least(a, out.len());
    let b = values_out::put_values(
        &mut out[from..],
        s,
        prefixed,
        r.count,
        at + 10,
        r.end as usize,
    );
    put::add_up(a, b)
}

// ArraySinglePrimitive (2.4.3.3).
fn put_primitives(out: &mut [u8], s: &[u8], r: Row, anew: u32) -> usize
    ensures { Filled (primitives_out anew s.now r) out.old out.new result }
{
    let a = heads::put_object_head(out, 15, ObjectNo(r.id));
    let from = put::least(a, out.len());
    let b = put_primitive_items(&mut out[from..], s, r, anew);
    put::add_up(a, b)
}

// A member value (MemberPrimitiveUnTyped, 2.5.2). The link of its row is the number of its code.
fn put_member(out: &mut [u8], s: &[u8], r: Row, anew: u32) -> usize
    ensures { Filled (member_out anew s.now r) out.old out.new result }
{
    values_out::put_value(out, s, r.link == anew, r.offset as usize, r.end as usize)
}

// Row i, which is r. Libraries and nulls are written with other rows. MessageEnd (2.6.3) keeps its byte.
pub fn put_record(
    out: &mut [u8],
    s: &[u8],
    table: &[u32],
    n: usize,
    i: usize,
    r: Row,
    anew: u32,
) -> usize
    requires { (n ≤ room_of table.now) × (n < 4294967296) × (i < 4294967296) }
    ensures { Filled (record_out anew s.now (rows_of n table.now) i r) out.old out.new result }
{
    match r.kind {
        0 => {
            let t = marks::row_named(table, n, r.link);
            heads::put_header(out, ObjectNo(t.id))
        }
        1 => {
            let c = marks::row_named(table, n, r.link);
            let t = marks::row_named(table, n, c.link);
            heads::put_by_id(out, ObjectNo(r.id), ObjectNo(t.id))
        }
        4 | 5 => writing::put_object(out, s, table, n, i, r),
        6 => put_string(out, s, r),
        7 => arrays_out::put_array(out, s, table, n, r, anew),
        8 => put_typed(out, s, r, anew),
        9 => {
            let t = marks::row_named(table, n, r.link);
            heads::put_reference(out, ObjectNo(t.id))
        }
        10 | 12 | 13 | 14 => 0,
        15 => put_primitives(out, s, r, anew),
        16 | 17 => put_kept(out, s, r),
        32 => put_member(out, s, r, anew),
        _ => put::put_part(out, s, r.offset as usize, r.end as usize),
    }
}
