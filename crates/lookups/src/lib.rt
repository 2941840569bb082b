// Which row a number names: the row of an object, of a class or of a library.
#![tactic(auto)]

ghost use Rattle.std.specs.Prelude.{◌≡◌, ◌≤◌, ◌<◌, get_or};
ghost use Rattle.format.specs.Rows.{blank, room_of, rows_of, is_object, is_class, is_untyped, find_from, object_row, class_row, library_row};
ghost use Rattle.lookups.specs.Find.{id_of, is_of, named};

use format::{LibraryNo, ObjectNo};

// What is looked up, by its number. Object numbers and library numbers are two separate counts; a class is a record of kind 4 or 5 and has the
// number of its object.
#[derive(Clone, Copy)]
enum Wanted {
    Object(ObjectNo),
    Class(ObjectNo),
    Library(LibraryNo),
}

// ---- lookups

// Whether a row of this kind is an object.
pub fn is_object(kind: u32) -> bool
    ensures { result ≡ is_object kind }
{
    matches!(kind, 1 | 4 | 5 | 6 | 7 | 15 | 16 | 17)
}

// Whether a row of this kind is a class that a kind 1 may name.
pub fn is_class(kind: u32) -> bool
    ensures { result ≡ is_class kind }
{
    matches!(kind, 4 | 5)
}

// Whether the types of a class of this kind stand in the class book.
pub fn is_untyped(kind: u32) -> bool
    ensures { result ≡ is_untyped kind }
{
    matches!(kind, 2 | 3)
}

// The number of what is looked up, as a row's id word has it.
#[tactic(auto, unfolding(crate::specs::Find::id_of))]
fn id_of(what: Wanted) -> u32
    ensures { result ≡ id_of what }
{
    match what {
        Wanted::Object(id) | Wanted::Class(id) => id.0,
        Wanted::Library(id) => id.0,
    }
}

// Whether a row of this kind can be what is looked up.
fn is_of(what: Wanted, kind: u32) -> bool
    ensures { result ≡ is_of what kind }
{
    match what {
        Wanted::Object(_) => is_object(kind),
        Wanted::Class(_) => is_class(kind),
        Wanted::Library(_) => kind == 12,
    }
}

// Whether row i is what is looked up, by its id and its kind. The id is tested first: it fails most.
fn names(table: &[u32], n: usize, i: usize, what: Wanted) -> bool
    requires { (i < n) × (n ≤ room_of table.now) }
    ensures { result ≡ named (is_of what) (id_of what) (get_or (rows_of n table.now) i blank) }
{
    table::id_at(table, n, i) == id_of(what) && is_of(what, table::kind_at(table, n, i))
}

// What is looked up among the first n rows: the number of its row plus 1; 0 if there is none. That is what a link word holds, and so the definitions
// (`object_row`, `class_row`, `library_row`) have it: no Option.
fn find(table: &[u32], n: usize, what: Wanted) -> usize
    requires { n ≤ room_of table.now }
    ensures { result ≡ find_from (named (is_of what) (id_of what)) 0 (rows_of n table.now) }
{
    for i in 0..n {
        if names(table, n, i, what) {
            return i + 1;
        }
    }
    0
}

// The object of this number among the first n rows: the number of its row plus 1; 0 if there is none.
pub fn find_object(table: &[u32], n: usize, id: ObjectNo) -> usize
    requires { n ≤ room_of table.now }
    ensures { result ≡ object_row id.0 (rows_of n table.now) }
{
    find(table, n, Wanted::Object(id))
}

// The class of this number, likewise.
pub fn find_class(table: &[u32], n: usize, id: ObjectNo) -> usize
    requires { n ≤ room_of table.now }
    ensures { result ≡ class_row id.0 (rows_of n table.now) }
{
    find(table, n, Wanted::Class(id))
}

// The library of this number, likewise.
pub fn find_library(table: &[u32], n: usize, id: LibraryNo) -> usize
    requires { n ≤ room_of table.now }
    ensures { result ≡ library_row id.0 (rows_of n table.now) }
{
    find(table, n, Wanted::Library(id))
}
