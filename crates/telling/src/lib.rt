// Tells people what a row of a table says, with names instead of numbers. It reads the stream and the table that reading it filled, and takes every
// stream and every table. What is written cannot be promised; the programs' stored outputs hold it.
#![tactic(auto)]

use format::{Row, RowAnswer, Setting, Span};
use members::{named_row, row_at};
use output::say;
use peeking::{byte_at, on};
use spelling::code_name;
use std::fmt;

// ---- words for what rows have in common

// A text in quotes.
fn quoted(s: &[u8], t: Span) {
    say!("\"");
    spelling::text_of(s, t);
    say!("\"");
}

// An object, by its number.
#[derive(Clone, Copy)]
struct Object(u32);

impl fmt::Display for Object {
    fn fmt<W: fmt::Write>(&self, f: &mut fmt::Formatter<W>) -> fmt::Result {
        write!(f, "object {}", self.0.cast_signed())
    }
}

// A count and what is counted, in the plural but for one.
#[derive(Clone, Copy)]
struct Counted(u32, &'static str);

impl fmt::Display for Counted {
    fn fmt<W: fmt::Write>(&self, f: &mut fmt::Formatter<W>) -> fmt::Result {
        let Counted(n, what) = *self;
        let plural = if n == 1 { "" } else { "s" };
        write!(f, "{n} {what}{plural}")
    }
}

// An arrow to the object that a row names, with that object's row.
#[derive(Clone, Copy)]
struct Arrow(Row);

impl fmt::Display for Arrow {
    fn fmt<W: fmt::Write>(&self, f: &mut fmt::Formatter<W>) -> fmt::Result {
        let r = self.0;
        write!(f, "-> {} (row {})", Object(r.id), named_row(r.link))
    }
}

// A row's kind and the object that the record defines.
#[derive(Clone, Copy)]
struct Defined(Row);

impl fmt::Display for Defined {
    fn fmt<W: fmt::Write>(&self, f: &mut fmt::Formatter<W>) -> fmt::Result {
        let r = self.0;
        write!(f, "{}, {}", kind_name(r.kind), Object(r.id))
    }
}

// The name of a kind. A row's word is any number, so a kind goes by its number in the format.
pub fn kind_name(kind: u32) -> &'static str {
    match kind {
        0 => "header",
        1 => "class by id",
        4 => "system class",
        5 => "class",
        6 => "string",
        7 => "array",
        8 => "typed primitive",
        9 => "reference",
        10 => "null",
        11 => "end",
        12 => "library",
        13 | 14 => "null run",
        15 => "primitive array",
        16 => "object array",
        17 => "string array",
        _ => "member value",
    }
}

// ---- types and items

// The type of an array's items, by its type byte and the place of its detail.
pub fn type_name(s: &[u8], t: u8, detail: usize) {
    match t {
        0 => say!("{}", code_name(byte_at(s, detail))),
        1 => say!("string"),
        2 => say!("object"),
        3 | 4 => quoted(s, peeking::string_at(s, detail)),
        5 => say!("object array"),
        6 => say!("string array"),
        _ => say!("{} array", code_name(byte_at(s, detail))),
    }
}

// The first eight items of a primitive array after a colon, and dots where there are more; an array without items has none.
fn listed(s: &[u8], from: usize, code: u8, n: u32) {
    let mut at = from;
    for i in 0..n.min(8) {
        say!("{}", if i == 0 { ": " } else { ", " });
        spelling::value(s, at, code);
        at = peeking::after_value(s, at, code);
    }
    if 8 < n {
        say!(", ...");
    }
}

// The lengths of an array that has several; one length is the number of its slots.
fn shape(s: &[u8], from: usize, rank: u32) {
    if rank == 1 {
        return;
    }
    let mut at = from;
    for i in 0..rank {
        say!(
            "{}{}",
            if i == 0 { "" } else { " x " },
            peeking::u32_at(s, at)
        );
        at = on(s, at, 4);
    }
    say!(" = ");
}

// A primitive value with its code.
fn typed(s: &[u8], at: usize, code: u8) {
    say!("{} ", code_name(code));
    spelling::value(s, at, code);
}

fn array_type(t: u8) -> &'static str {
    match t {
        0 => "single",
        1 => "jagged",
        _ => "rectangular",
    }
}

// ---- a list that was read

// The bytes of a list, the table that reading it filled, and the setting that it was read with.
#[derive(Clone, Copy)]
struct List<'a> {
    s: &'a [u8],
    table: &'a [u32],
    setting: Setting,
}

impl List<'_> {
    // An object whose class stands in another row.
    fn class_by_id(self, r: Row) {
        let c = members::class_row(self.table, r);
        let members = Counted(r.count, "member");
        say!(
            "{}, {members}, class as in row {}: ",
            Defined(r),
            named_row(r.link)
        );
        quoted(self.s, members::class_name(self.s, c));
    }

    fn class(self, r: Row) {
        say!("{}, {}", Defined(r), Counted(r.count, "member"));
        if r.kind == 5 {
            say!(", library {}", members::library_of(self.s, r).cast_signed());
        }
        say!(": ");
        quoted(self.s, members::class_name(self.s, r));
    }

    // A string with its text, as the text view has it.
    fn string(self, row: usize, r: Row) {
        say!("{}", Defined(r));
        match view::row_question(self.s, self.table, row, self.setting) {
            RowAnswer::HasText => {
                say!(": \"");
                spelling::text(view::text_view(self.s, self.table, row, self.setting));
                say!("\"");
            }
            RowAnswer::NoSuchRow => say!(" without text"),
        }
    }

    // An array of kind 7: its lengths, its slots and the type of its items; primitive items lie in it.
    fn array(self, r: Row) {
        let s = self.s;
        let start = r.offset as usize;
        let at = on(s, start, 6);
        let rank = peeking::u32_at(s, at);
        let after = peeking::after_lengths(s, at, rank);
        let t = byte_at(s, after);
        let detail = on(s, after, 1);
        say!(
            "{} {}, ",
            array_type(byte_at(s, on(s, start, 5))),
            Defined(r)
        );
        shape(s, on(s, at, 4), rank);
        say!("{} of ", Counted(r.count, "slot"));
        type_name(s, t, detail);
        if t == 0 {
            listed(s, on(s, detail, 1), byte_at(s, detail), r.count);
        }
    }

    // A primitive array of kind 15.
    fn primitive_array(self, r: Row) {
        let at = r.offset as usize;
        let code = byte_at(self.s, on(self.s, at, 9));
        say!(
            "{}, {} of {}",
            Defined(r),
            Counted(r.count, "item"),
            code_name(code)
        );
        listed(self.s, on(self.s, at, 10), code, r.count);
    }

    fn library(self, r: Row) {
        say!("library {}: ", r.id.cast_signed());
        quoted(
            self.s,
            peeking::string_at(self.s, on(self.s, r.offset as usize, 5)),
        );
    }

    // A member value, whose code stands in its owner's class.
    fn member(self, r: Row) {
        let c = members::class_row(self.table, row_at(self.table, named_row(r.owner)));
        typed(
            self.s,
            r.offset as usize,
            members::member_code(self.s, c, r.slot),
        );
    }

    // What a row says, by the number of its kind.
    fn record(self, row: usize, r: Row) {
        let s = self.s;
        let at = r.offset as usize;
        match r.kind {
            0 => say!("header, root {}", Arrow(r)),
            1 => self.class_by_id(r),
            4 | 5 => self.class(r),
            6 => self.string(row, r),
            7 => self.array(r),
            8 => typed(s, on(s, at, 2), byte_at(s, on(s, at, 1))),
            9 => say!("{}", Arrow(r)),
            10 | 13 | 14 => say!("{}", Counted(r.count, "empty slot")),
            11 => say!("end"),
            12 => self.library(r),
            15 => self.primitive_array(r),
            16 | 17 => say!("{}, {}", Defined(r), Counted(r.count, "slot")),
            _ => self.member(r),
        }
    }

    // The number of a slot, and its member's name where its owner has members.
    fn slot(self, owner: Row, k: u32) {
        say!("{k}");
        if members::is_class(owner.kind) {
            let c = members::class_row(self.table, owner);
            say!(" `");
            spelling::text_of(self.s, members::member_name(self.s, c, k));
            say!("`");
        }
    }

    // The slots of a null run; one of 0 fills none.
    fn slots(self, owner: Row, first: u32, count: u32) {
        match count {
            0 => say!("before slot "),
            1 => say!("slot "),
            _ => say!("slots "),
        }
        self.slot(owner, first);
        if 1 < count {
            say!(" to ");
            self.slot(owner, members::last_of(first, count));
        }
    }
}

// What a row says, after the slot that it fills; the text of a string by the setting that its list was read with.
pub fn row(s: &[u8], table: &[u32], i: usize, setting: Setting) {
    let list = List { s, table, setting };
    let r = row_at(table, i);
    if r.owner != 0 {
        list.slots(
            row_at(table, named_row(r.owner)),
            r.slot,
            members::filled(r),
        );
        say!(": ");
    }
    list.record(i, r);
}
