// Shows a class book to people: at most 1,048,575 bytes from standard input. Each entry has its place, its class and its library, and its members with
// their types in words. A bad book is refused with the place of its first bad entry and the bytes around that place.
#![tactic(auto)]

use format::Refusal;
use output::say;
use peeking::{byte_at, on};
use std::fmt;

// The prefixed text at a place, between quotation marks for names.
fn named(book: &[u8], at: usize) {
    say!("`");
    spelling::text_of(book, peeking::string_at(book, at));
    say!("`");
}

// A count and what is counted, in the plural but for one. The plural of an entry has no s behind the one, so both words are given.
#[derive(Clone, Copy)]
struct Counted(usize, &'static str, &'static str);

impl fmt::Display for Counted {
    fn fmt<W: fmt::Write>(&self, f: &mut fmt::Formatter<W>) -> fmt::Result {
        let Counted(n, one, more) = *self;
        write!(f, "{n} {}", if n == 1 { one } else { more })
    }
}

// A member on a line of its own: its name and its type.
fn member(book: &[u8], at: usize) {
    let kind = peeking::after_string(book, at);
    say!("    ");
    named(book, at);
    say!(": ");
    telling::type_name(book, byte_at(book, kind), on(book, kind, 1));
    say!("\n");
}

// How many bytes a type has with its detail, which is a primitive code or nothing.
fn type_size(t: u8) -> usize {
    match t {
        0 | 7 => 2,
        _ => 1,
    }
}

// The place after the member at a place.
fn after_member(book: &[u8], at: usize) -> usize {
    let kind = peeking::after_string(book, at);
    on(book, kind, type_size(byte_at(book, kind)))
}

// So many members from a place on; the place after them.
fn members(book: &[u8], from: usize, n: u8) -> usize {
    let mut at = from;
    for _ in 0..n {
        member(book, at);
        at = after_member(book, at);
    }
    at
}

// The library of a class that has one, whose name stands at a place.
fn library(book: &[u8], first: u8, at: usize) {
    if first == 1 {
        say!(" of library ");
        named(book, at);
    }
}

// The place of the member count, behind the names of the class and of its library.
fn count_place(book: &[u8], first: u8, at: usize) -> usize {
    let next = peeking::after_string(book, at);
    if first == 1 {
        return peeking::after_string(book, next);
    }
    next
}

// The entry at a place; the place after it.
fn entry(book: &[u8], at: usize) -> usize {
    let first = byte_at(book, at);
    let name = on(book, at, 1);
    let count = count_place(book, first, name);
    let n = byte_at(book, count);
    let system = if first == 0 { "system " } else { "" };
    say!("at byte {at}: {system}class ");
    named(book, name);
    library(book, first, peeking::after_string(book, name));
    say!(", {}\n", Counted(n as usize, "member", "members"));
    members(book, on(book, count, 1), n)
}

// All entries of a good book; how many there are. An entry has more than one byte, so there are never as many as bytes.
fn entries(book: &[u8]) -> usize {
    let mut at: usize = 0;
    for n in 0..book.len() {
        if book.len() <= at {
            return n;
        }
        at = entry(book, at);
    }
    book.len()
}

// A good book: its entries, and how many there are.
fn good(book: &[u8]) {
    let n = entries(book);
    let size = Counted(book.len(), "byte", "bytes");
    say!("a good book, {size}, {}\n", Counted(n, "entry", "entries"));
}

// A book: its entries, or the place of the first bad one.
fn told(book: &[u8]) {
    let bad = book::bad_entry(book);
    if bad == 0 {
        good(book);
        return;
    }
    say!("refused: ");
    refusals::refusal(Refusal::BadBook, bad - 1);
    refusals::around(book, bad - 1);
}

fn main() {
    let mut room: [u8; 1048576] = rooms::room(0);
    match files::input(&mut room) {
        Some(book) => told(book),
        None => say!("unusable: a class book has at most 1,048,575 bytes here\n"),
    }
}
