// The passes that put all marks into words of rows before anything is written: new numbers of objects, first rows of equal libraries and places of
// type bytes, first rows of equal classes, new numbers of libraries with the place of the field that needs each first.
#![tactic(auto)]

ghost use Rattle.std.specs.Prelude.{◌≡◌, ◌≤◌, ◌<◌};
ghost use Rattle.format.specs.Rows.{room_of, rows_of};
ghost use Rattle.marks.specs.Marks.{pass, number_one, numbered, place_one, placed, first_one, firsts, needed, marked};

use format::{LibraryNo, ObjectNo};

// ---- objects are numbered in record order

// Row i, if it is an object, gets the number after the last one.
fn number_one(table: &mut [u32], n: usize, i: usize, last: ObjectNo) -> ObjectNo
    requires { n ≤ room_of table.old }
    ensures { pass result.0 (rows_of n table.new) ≡ number_one i (pass last.0 (rows_of n table.old)) }
{
    let r = table::row_at(table, n, i);
    if lookups::is_object(r.kind) {
        let number = marks::next_object(last);
        marks::put_named(table, n, i, marks::with_object_no(r, number));
        return number;
    }
    last
}

// All objects, from 1 on.
fn number_all(table: &mut [u32], n: usize)
    requires { n ≤ room_of table.old }
    ensures { rows_of n table.new ≡ numbered (rows_of n table.old) }
{
    let mut last = ObjectNo(0);
    for i in 0..n {
        last = number_one(table, n, i, last);
    }
}

// ---- a library's first row with its name, and where a class's type bytes stand

// A library's row gets the first row with its name, plus 1, as count; a class's row its link as slot, the place of its type bytes.
fn place_one(s: &[u8], table: &mut [u32], n: usize, i: usize)
    requires { (n ≤ room_of table.old) × (n < 4294967296) }
    ensures { rows_of n table.new ≡ place_one s.now i (rows_of n table.old) }
{
    let r = table::row_at(table, n, i);
    if r.kind == 12 {
        let first = distinct::first_library(s, table, n, r);
        marks::put_named(table, n, i, marks::with_count(r, first));
        return;
    }
    if lookups::is_class(r.kind) {
        marks::put_named(table, n, i, marks::with_slot(r, r.link));
    }
}

// All rows, in order.
fn place_all(s: &[u8], table: &mut [u32], n: usize)
    requires { (n ≤ room_of table.old) × (n < 4294967296) }
    ensures { rows_of n table.new ≡ placed s.now (rows_of n table.old) }
{
    for i in 0..n {
        place_one(s, table, n, i);
    }
}

// ---- the first row of an equal class

// A class's row gets the first row, plus 1, of an equal class as link.
fn first_one(s: &[u8], table: &mut [u32], n: usize, i: usize)
    requires { (n ≤ room_of table.old) × (n < 4294967296) }
    ensures { rows_of n table.new ≡ first_one s.now i (rows_of n table.old) }
{
    let r = table::row_at(table, n, i);
    if lookups::is_class(r.kind) {
        let first = distinct::first_class(s, table, n, r);
        marks::put_named(table, n, i, marks::with_first_row(r, first));
    }
}

// All rows, in order.
fn first_all(s: &[u8], table: &mut [u32], n: usize)
    requires { (n ≤ room_of table.old) × (n < 4294967296) }
    ensures { rows_of n table.new ≡ firsts s.now (rows_of n table.old) }
{
    for i in 0..n {
        first_one(s, table, n, i);
    }
}

// ---- libraries are numbered by first need

// All rows, in order; libraries are numbered from 1 on.
fn need_all(s: &[u8], table: &mut [u32], n: usize)
    requires { n ≤ room_of table.old }
    ensures { rows_of n table.new ≡ needed s.now (rows_of n table.old) }
{
    let mut last = LibraryNo(0);
    for i in 0..n {
        last = needs::need_one(s, table, n, i, last);
    }
}

// ---- all marks

// Libraries are placed before classes are compared, which looks at their first rows, and classes before needs, since only a class's first row
// needs libraries.
pub fn mark_all(s: &[u8], table: &mut [u32], n: usize)
    requires { (n ≤ room_of table.old) × (n < 4294967296) }
    ensures { rows_of n table.new ≡ marked s.now (rows_of n table.old) }
{
    number_all(table, n);
    place_all(s, table, n);
    first_all(s, table, n);
    need_all(s, table, n);
}
