// Distinct libraries and distinct classes: which rows have equal library names or equal classes, and which of them is the first. Libraries are
// equal by their names, classes by their own and their members' names, their types and the names of the libraries that they come from.
#![tactic(auto)]

ghost use Rattle.std.specs.Prelude.{◌≡◌, ◌≤◌, ◌<◌};
ghost use Rattle.format.specs.Rows.{room_of, rows_of};
ghost use Rattle.marks.specs.Marks.{first_library, same_info, same_own, same_details, same_class_row, first_class};
ghost use Rattle.distinct.specs.Members.{first_member, next_member, same_member, same_members};

use format::Row;

// Where a member of a class stands: its name, its type byte and its detail.
#[derive(Clone, Copy)]
struct Cursor {
    name: usize,
    kind: usize,
    info: usize,
}

// ---- a library's first row with its name

// The first row, plus 1, with the name of library r; 0 if there is none, as a word of the table has it (`first_library`), no Option.
pub fn first_library(s: &[u8], table: &[u32], n: usize, r: Row) -> u32
    requires { (n ≤ room_of table.now) × (n < 4294967296) }
    ensures { result ≡ first_library s.now (rows_of n table.now) r }
{
    for i in 0..n {
        let other = table::row_at(table, n, i);
        if marks::same_name(s, r, other) {
            return (i + 1) as u32;
        }
    }
    0
}

// ---- the first row of an equal class, libraries compared by their first rows

// Whether the details of one type, from a to x and from b to y, are the same.
#[tactic(auto, unfolding(marks::specs::Marks::same_info))]
fn same_info(
    s: &[u8],
    table: &[u32],
    n: usize,
    kind: u8,
    a: usize,
    x: usize,
    b: usize,
    y: usize,
) -> bool
    requires { n ≤ room_of table.now }
    ensures { result ≡ same_info s.now (rows_of n table.now) kind a x b y }
{
    match kind {
        4 => {
            marks::same_text(s, a, b)
                && marks::library_at(s, table, n, marks::less(x, 4))
                    == marks::library_at(s, table, n, marks::less(y, 4))
        }
        3 => marks::same_text(s, a, b),
        _ => marks::same_between(s, a, x, b, y),
    }
}

// Where the first member of a class stands.
fn first_member(s: &[u8], r: Row) -> Cursor
    ensures { result ≡ first_member s.now r }
{
    Cursor {
        name: spans::after_text(s, (r.offset as usize) + 5) + 4,
        kind: r.slot as usize,
        info: marks::infos_place(r),
    }
}

// Where the member after this one stands.
fn next_member(s: &[u8], a: Cursor) -> Cursor
    requires { a.kind < 18446744073709551615 }
    ensures { result ≡ next_member s.now a }
{
    let kind = codes::byte_at(s, a.kind);
    Cursor {
        name: spans::after_text(s, a.name),
        kind: a.kind + 1,
        info: spans::after_info(s, kind, a.info),
    }
}

// Whether the members at a and b are the same; their details end at x and y.
fn same_member(s: &[u8], table: &[u32], n: usize, a: Cursor, x: usize, b: Cursor, y: usize) -> bool
    requires { n ≤ room_of table.now }
    ensures { result ≡ same_member s.now (rows_of n table.now) a x b y }
{
    let kind = codes::byte_at(s, a.kind);
    marks::same_text(s, a.name, b.name)
        && kind == codes::byte_at(s, b.kind)
        && same_info(s, table, n, kind, a.info, x, b.info, y)
}

// Whether as many members as count, the first ones at a and b, are the same.
fn same_members(s: &[u8], table: &[u32], n: usize, count: u32, a: Cursor, b: Cursor) -> bool
    requires { (n ≤ room_of table.now) × (a.kind < 4294967296) × (b.kind < 4294967296) }
    ensures { result ≡ same_members s.now (rows_of n table.now) count a b }
{
    let mut one = a;
    let mut other = b;
    for _ in 0..count {
        let after_one = next_member(s, one);
        let after_other = next_member(s, other);
        if !same_member(s, table, n, one, after_one.info, other, after_other.info) {
            return false;
        }
        one = after_one;
        other = after_other;
    }
    true
}

// Whether two classes both come from the system, or from libraries with one name.
#[tactic(auto, unfolding(marks::specs::Marks::same_own))]
fn same_own(s: &[u8], table: &[u32], n: usize, a: Row, b: Row) -> bool
    requires { n ≤ room_of table.now }
    ensures { result ≡ same_own s.now (rows_of n table.now) a b }
{
    a.kind != 5
        || marks::library_at(s, table, n, marks::less(a.end as usize, 4))
            == marks::library_at(s, table, n, marks::less(b.end as usize, 4))
}

// Whether two classes with as many members have the same members and the same library.
fn same_details(s: &[u8], table: &[u32], n: usize, a: Row, b: Row) -> bool
    requires { n ≤ room_of table.now }
    ensures { result ≡ same_details s.now (rows_of n table.now) a b }
{
    let one = first_member(s, a);
    let other = first_member(s, b);
    same_members(s, table, n, a.count, one, other) && same_own(s, table, n, a, b)
}

// Whether two rows have equal classes.
#[tactic(auto, unfolding(marks::specs::Marks::same_class_row))]
fn same_class_row(s: &[u8], table: &[u32], n: usize, a: Row, b: Row) -> bool
    requires { n ≤ room_of table.now }
    ensures { result ≡ same_class_row s.now (rows_of n table.now) a b }
{
    b.kind == a.kind
        && b.count == a.count
        && marks::same_text(s, (a.offset as usize) + 5, (b.offset as usize) + 5)
        && same_details(s, table, n, a, b)
}

// The first row, plus 1, of a class equal to that of r; 0 if there is none, likewise (`first_class`).
pub fn first_class(s: &[u8], table: &[u32], n: usize, r: Row) -> u32
    requires { (n ≤ room_of table.now) × (n < 4294967296) }
    ensures { result ≡ first_class s.now (rows_of n table.now) r }
{
    for i in 0..n {
        let other = table::row_at(table, n, i);
        if same_class_row(s, table, n, r, other) {
            return (i + 1) as u32;
        }
    }
    0
}
