// Shows a list to people: at most 65,535 bytes from standard input, a table of 1,024 rows. The rows are those of the listing, with names instead of
// numbers, indented by owner; a refusal has its name, its number, its place and the bytes around that place. With the word `--lenient` length prefixes may
// be padded; after the word `--book` stands the file of a class book of at most 1,048,575 bytes.
#![tactic(auto)]

use format::{Refusal, Refused, Row, Setting};
use output::say;

// The number of a row, its offset and the offset after its own bytes, and blanks by how deep it stands.
fn margin(table: &[u32], i: usize, r: Row) {
    say!("{i:>5} {:>5}..{:<5}  ", r.offset, r.end);
    for _ in 0..members::depth_of(table, r.owner) {
        say!("  ");
    }
}

// The rows from 0 up to `end`, one a line.
fn rows(s: &[u8], table: &[u32], end: usize, setting: Setting) {
    for i in 0..end {
        margin(table, i, members::row_at(table, i));
        telling::row(s, table, i, setting);
        say!("\n");
    }
}

fn accepted(s: &[u8], table: &[u32], end: usize, setting: Setting) {
    say!("accepted, {end} rows\n  row   bytes         what stands there\n");
    rows(s, table, end, setting);
}

// What a list needs of this program, where the program has too little of it.
fn limits(r: Refusal) -> &'static str {
    match r {
        Refusal::TooLarge => "this program takes lists of at most 65,535 bytes\n",
        Refusal::NoRoom => "the list is larger than this program's table, which has 1,024 rows\n",
        _ => "",
    }
}

// The bytes around a place of the list or, where the book is bad, of the book.
fn around(s: &[u8], book: &[u8], r: Refusal, place: usize) {
    match r {
        Refusal::BadBook => refusals::around(book, place),
        _ => refusals::around(s, place),
    }
}

fn answer(s: &[u8], book: &[u8], table: &[u32], a: Result<usize, Refused>, setting: Setting) {
    match a {
        Ok(n) => accepted(s, table, n, setting),
        Err(Refused { refusal: r, place }) => {
            say!("refused: ");
            refusals::refusal(r, place);
            say!("{}", limits(r));
            around(s, book, r, place);
        }
    }
}

// The list with a book and under a setting.
fn list(book: &[u8], setting: Setting) {
    let mut space = io::large_buffer();
    let Some(s) = files::input(&mut space) else {
        say!("refused: ");
        refusals::refusal(Refusal::TooLarge, 0);
        say!("{}", limits(Refusal::TooLarge));
        return;
    };
    let mut table = [0u32; 8192];
    let a = reader::read(s, book, &mut table, setting);
    answer(s, book, &table, a, setting);
}

fn main(rt: HostRuntime) {
    files::for_one_list(&rt, b"show [--lenient] [--book FILE]", list);
}
