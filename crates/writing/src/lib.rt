// Writes the record of a class from marked rows, the libraries that it needs before it, and its later objects. Every writer takes the unwritten rest of the output and answers the
// length that its bytes need; so the same functions measure and write.
#![tactic(auto)]

ghost use Rattle.std.specs.Prelude.{◌++◌, ◌+◌, ◌-◌, ◌≤◌, ◌<◌};
ghost use Rattle.format.specs.Rows.{rows_of, room_of};
ghost use Rattle.format.specs.Numbers.{le_bytes};
ghost use Rattle.put.specs.Out.{between, text_out};
ghost use Rattle.put.specs.Put.{Filled};
ghost use Rattle.marks.specs.Marks.{infos_place};
ghost use Rattle.pieces.specs.Copy.{need_class_out, details_out, members_out, class_out, object_out};

use format::{ObjectNo, Row};

// The members' type bytes, which are kept, then their details and the class's library.
fn put_types(out: &mut [u8], s: &[u8], table: &[u32], n: usize, r: Row) -> usize
    requires { (n ≤ room_of table.now) × (n < 4294967296) }
    ensures { Filled (between s.now r.slot (infos_place r) ++ details_out s.now (rows_of n table.now) r) out.old out.new result }
{
    let types = r.slot as usize;
    let a = put::put_part(out, s, types, types + (r.count as usize));
    let from = put::least(a, out.len());
    let b = details_out::put_details(&mut out[from..], s, table, n, r);
    put::add_up(a, b)
}

// The members' names, then their types.
fn put_members(out: &mut [u8], s: &[u8], table: &[u32], n: usize, r: Row) -> usize
    requires { (n ≤ room_of table.now) × (n < 4294967296) }
    ensures { Filled (members_out s.now (rows_of n table.now) r) out.old out.new result }
{
    let names = spans::after_text(s, (r.offset as usize) + 5) + 4;
    let a = put::put_texts(out, s, r.count, names);
    let from = put::least(a, out.len());
    let b = put_types(&mut out[from..], s, table, n, r);
    put::add_up(a, b)
}

// How many members there are, then the members.
fn put_counted(out: &mut [u8], s: &[u8], table: &[u32], n: usize, r: Row) -> usize
    requires { (n ≤ room_of table.now) × (n < 4294967296) }
    ensures { Filled (le_bytes 4 r.count ++ members_out s.now (rows_of n table.now) r) out.old out.new result }
{
    let a = put::put_number(out, r.count);
    let from = put::least(a, out.len());
    let b = put_members(&mut out[from..], s, table, n, r);
    put::add_up(a, b)
}

// A class after its ObjectId: its name, then its members.
fn put_class_fields(out: &mut [u8], s: &[u8], table: &[u32], n: usize, r: Row) -> usize
    requires { (n ≤ room_of table.now) × (n < 4294967296) }
    ensures { Filled (text_out s.now (r.offset + 5) ++ (le_bytes 4 r.count ++ members_out s.now (rows_of n table.now) r)) out.old out.new result }
{
    let a = put::put_text(out, s, (r.offset as usize) + 5);
    let from = put::least(a, out.len());
    let b = put_counted(&mut out[from..], s, table, n, r);
    put::add_up(a, b)
}

// SystemClassWithMembersAndTypes (kind 4, 2.3.2.3 in MS-NRBF) or ClassWithMembersAndTypes (kind 5, 2.3.2.1).
fn put_class(out: &mut [u8], s: &[u8], table: &[u32], n: usize, r: Row) -> usize
    requires { (n ≤ room_of table.now) × (n < 4294967296) }
    ensures { Filled (class_out s.now (rows_of n table.now) r) out.old out.new result }
{
    let a = heads::put_object_head(out, (r.kind % 256) as u8, ObjectNo(r.id));
    let from = put::least(a, out.len());
    let b = put_class_fields(&mut out[from..], s, table, n, r);
    put::add_up(a, b)
}

// The first object of a class in full, after the libraries that it needs.
fn put_first(out: &mut [u8], s: &[u8], table: &[u32], n: usize, r: Row) -> usize
    requires { (n ≤ room_of table.now) × (n < 4294967296) }
    ensures { Filled (need_class_out s.now (rows_of n table.now) r ++ class_out s.now (rows_of n table.now) r) out.old out.new result }
{
    let a = libraries_out::put_need_class(out, s, table, n, r);
    let from = put::least(a, out.len());
    let b = put_class(&mut out[from..], s, table, n, r);
    put::add_up(a, b)
}

// The first object of a class in full, later ones by it: ClassWithId (2.3.2.5).
pub fn put_object(out: &mut [u8], s: &[u8], table: &[u32], n: usize, i: usize, r: Row) -> usize
    requires { (n ≤ room_of table.now) × (n < 4294967296) × (i < 4294967296) }
    ensures { Filled (object_out s.now (rows_of n table.now) i r) out.old out.new result }
{
    if marks::is_first(i, r) {
        return put_first(out, s, table, n, r);
    }
    let t = marks::row_named(table, n, r.link);
    heads::put_by_id(out, ObjectNo(r.id), ObjectNo(t.id))
}
