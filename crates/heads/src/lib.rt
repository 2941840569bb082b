// The pieces of records that are numbers alone: heads, the header, an object of a known class, a reference, a run of nulls. Numbers like 2.6.1 are
// sections of MS-NRBF.
#![tactic(auto)]

ghost use Rattle.std.specs.Prelude.{◌++◌, ◌+◌};
ghost use Rattle.format.specs.Numbers.{le_bytes};
ghost use Rattle.put.specs.Out.{head_out, by_id_out, header_out, run_out};
ghost use Rattle.put.specs.Put.{Filled};

use format::{LibraryNo, ObjectNo};

fn put_numbers(out: &mut [u8], n: u32, m: u32) -> usize
    ensures { Filled (le_bytes 4 n ++ le_bytes 4 m) out.old out.new result }
{
    let a = put::put_number(out, n);
    let from = put::least(a, out.len());
    let b = put::put_number(&mut out[from..], m);
    put::add_up(a, b)
}

// A kind byte and a number.
fn put_head(out: &mut [u8], kind: u8, n: u32) -> usize
    ensures { Filled (head_out kind n) out.old out.new result }
{
    let a = put::put_byte(out, kind);
    let from = put::least(a, out.len());
    let b = put::put_number(&mut out[from..], n);
    put::add_up(a, b)
}

// A kind byte and the numbers of two objects.
fn put_heads(out: &mut [u8], kind: u8, id: ObjectNo, other: ObjectNo) -> usize
    ensures { Filled (head_out kind id.0 ++ le_bytes 4 other.0) out.old out.new result }
{
    let a = put_head(out, kind, id.0);
    let from = put::least(a, out.len());
    let b = put::put_number(&mut out[from..], other.0);
    put::add_up(a, b)
}

// ---- heads

// An object of this kind.
pub fn put_object_head(out: &mut [u8], kind: u8, id: ObjectNo) -> usize
    ensures { Filled (head_out kind id.0) out.old out.new result }
{
    put_head(out, kind, id.0)
}

// BinaryLibrary (2.6.2), up to its name.
pub fn put_library_head(out: &mut [u8], id: LibraryNo) -> usize
    ensures { Filled (head_out 12 id.0) out.old out.new result }
{
    put_head(out, 12, id.0)
}

// ---- records

// An object by the first of its class: ClassWithId (2.3.2.5).
pub fn put_by_id(out: &mut [u8], id: ObjectNo, first: ObjectNo) -> usize
    ensures { Filled (by_id_out id.0 first.0) out.old out.new result }
{
    put_heads(out, 1, id, first)
}

// SerializationHeaderRecord (2.6.1): RootId and HeaderId alike, then the version.
pub fn put_header(out: &mut [u8], root: ObjectNo) -> usize
    ensures { Filled (header_out root.0) out.old out.new result }
{
    let a = put_heads(out, 0, root, root);
    let from = put::least(a, out.len());
    let b = put_numbers(&mut out[from..], 1, 0);
    put::add_up(a, b)
}

// A reference to an object: MemberReference (2.5.3).
pub fn put_reference(out: &mut [u8], to: ObjectNo) -> usize
    ensures { Filled (head_out 9 to.0) out.old out.new result }
{
    put_head(out, 9, to.0)
}

// A null run with its count in four bytes: ObjectNullMultiple (2.5.5).
fn put_long_run(out: &mut [u8], count: u32) -> usize
    ensures { Filled (head_out 14 count) out.old out.new result }
{
    put_head(out, 14, count)
}

// A null run: ObjectNull (kind 10, 2.5.4) for one, ObjectNullMultiple256 (13, 2.5.6) for 2 to 255, ObjectNullMultiple (14, 2.5.5) from 256.
pub fn put_run(out: &mut [u8], n: usize) -> usize
    ensures { Filled (run_out n) out.old out.new result }
{
    match n {
        0 => 0,
        1 => put::put_byte(out, 10),
        2..=255 => put::put_two(out, 13, n as u8),
        _ => put_long_run(out, (n % 4294967296) as u32),
    }
}
