// The details of types and the library of a class, as the tidy copy has them: names with the shortest prefix, libraries by their new numbers.
#![tactic(auto)]

ghost use Rattle.std.specs.Prelude.{◌+◌, ◌-◌, ◌≤◌, ◌<◌};
ghost use Rattle.format.specs.Rows.{rows_of, room_of};
ghost use Rattle.put.specs.Put.{Filled};
ghost use Rattle.marks.specs.Marks.{infos_place};
ghost use Rattle.pieces.specs.Copy.{info_out, infos_out, own_out, details_out};

use format::Row;

// ---- details

// A detail from p to e: a class name, its library by the new number, or what is kept.
pub fn put_info(
    out: &mut [u8],
    s: &[u8],
    table: &[u32],
    n: usize,
    kind: u8,
    p: usize,
    e: usize,
) -> usize
    requires { (n ≤ room_of table.now) × (n < 4294967296) }
    ensures { Filled (info_out s.now (rows_of n table.now) kind p e) out.old out.new result }
{
    if kind == 4 {
        let m = marks::less(e, 4);
        let l = libraries_out::library_number(s, table, n, m);
        let a = put::put_text(out, s, p);
        let from = put::least(a, out.len());
        let b = put::put_library_no(&mut out[from..], l);
        return put::add_up(a, b);
    }
    if kind == 3 {
        return put::put_text(out, s, p);
    }
    put::put_part(out, s, p, e)
}

// The details of a class's members.
fn put_infos(out: &mut [u8], s: &[u8], table: &[u32], n: usize, r: Row) -> usize
    requires { (n ≤ room_of table.now) × (n < 4294967296) }
    ensures { Filled (infos_out s.now (rows_of n table.now) r.count r.slot (infos_place r)) out.old out.new result }
{
    let count = r.count as usize;
    let kinds = r.slot as usize;
    let mut at: usize = 0;
    let mut p = kinds + count;
    for i in 0..count {
        let kind = codes::byte_at(s, kinds + i);
        let e = spans::after_info(s, kind, p);
        let from = put::least(at, out.len());
        let b = put_info(&mut out[from..], s, table, n, kind, p, e);
        at = put::add_up(at, b);
        p = e;
    }
    at
}

// The library of a class that comes from one.
fn put_own(out: &mut [u8], s: &[u8], table: &[u32], n: usize, r: Row) -> usize
    requires { (n ≤ room_of table.now) × (n < 4294967296) }
    ensures { Filled (own_out s.now (rows_of n table.now) r) out.old out.new result }
{
    if r.kind == 5 {
        let p = marks::less(r.end as usize, 4);
        let l = libraries_out::library_number(s, table, n, p);
        return put::put_library_no(out, l);
    }
    0
}

pub fn put_details(out: &mut [u8], s: &[u8], table: &[u32], n: usize, r: Row) -> usize
    requires { (n ≤ room_of table.now) × (n < 4294967296) }
    ensures { Filled (details_out s.now (rows_of n table.now) r) out.old out.new result }
{
    let a = put_infos(out, s, table, n, r);
    let from = put::least(a, out.len());
    let b = put_own(&mut out[from..], s, table, n, r);
    put::add_up(a, b)
}
