// Tells people of a refusal: its number, its name, its place, when it is given, and the bytes around the place. What is written cannot be promised; the
// programs' stored outputs hold it.
#![tactic(auto)]

use format::Refusal;
use output::say;

fn name(r: Refusal) -> &'static str {
    match r {
        Refusal::TooLarge => "TOO LARGE",
        Refusal::CutShort => "CUT SHORT",
        Refusal::UnknownKind => "UNKNOWN KIND",
        Refusal::NotTaken => "NOT TAKEN",
        Refusal::WrongPlace => "WRONG PLACE",
        Refusal::BadVersion => "BAD VERSION",
        Refusal::BadLength => "BAD LENGTH",
        Refusal::BadText => "BAD TEXT",
        Refusal::BadCount => "BAD COUNT",
        Refusal::BadType => "BAD TYPE",
        Refusal::BadValue => "BAD VALUE",
        Refusal::BadId => "BAD ID",
        Refusal::NoLibrary => "NO LIBRARY",
        Refusal::NoClass => "NO CLASS",
        Refusal::TooDeep => "TOO DEEP",
        Refusal::NoRoom => "NO ROOM",
        Refusal::Trailing => "TRAILING",
        Refusal::NoRoot => "NO ROOT",
        Refusal::NoObject => "NO OBJECT",
        Refusal::OutFull => "OUT FULL",
        Refusal::NoSuchRow => "NO SUCH ROW",
        Refusal::BadBook => "BAD BOOK",
    }
}

// When a refusal is given.
fn reason(r: Refusal) -> &'static str {
    match r {
        Refusal::TooLarge => "the list is over the limit",
        Refusal::CutShort => "a field passes the end",
        Refusal::UnknownKind => "no record has this kind",
        Refusal::NotTaken => "a record kind or array type that is not taken",
        Refusal::WrongPlace => "a record of this kind may not stand here",
        Refusal::BadVersion => "the version is not 1, 0",
        Refusal::BadLength => "a length prefix against the rule",
        Refusal::BadText => "a text that is not UTF-8",
        Refusal::BadCount => "a count, rank or run that cannot be",
        Refusal::BadType => "no such type byte, array type or primitive code",
        Refusal::BadValue => "a Boolean, Char, Decimal or DateTime against the rule",
        Refusal::BadId => "an id of the wrong sign, or used before",
        Refusal::NoLibrary => "the library is not defined earlier",
        Refusal::NoClass => "the class is not defined earlier",
        Refusal::TooDeep => "a 65th open object",
        Refusal::NoRoom => "no whole row is left in the table",
        Refusal::Trailing => "bytes after the end record",
        Refusal::NoRoot => "the root names no object",
        Refusal::NoObject => "a reference names no object",
        Refusal::OutFull => "the tidy copy is longer than its output",
        Refusal::NoSuchRow => "the row has no text",
        Refusal::BadBook =>
            "an entry that is cut short or has a bad first byte, prefix, text, type or code",
    }
}

// Where a place is counted: in the list or, of a bad book, in the book.
fn counted(r: Refusal) -> &'static str {
    match r {
        Refusal::BadBook => " of the book",
        _ => "",
    }
}

// The number, the name, the place and the reason, as one line.
pub fn refusal(r: Refusal, place: usize) {
    let number = format::number_of(r);
    say!(
        "{number} {} at byte {place}{}: {}\n",
        name(r),
        counted(r),
        reason(r)
    );
}

// The bytes around a place, up to 12 before it and 12 from it on, as one line; the one at the place in brackets.
pub fn around(s: &[u8], place: usize) {
    let from = peeking::back(place, 12);
    say!("bytes from {from}:");
    for i in from..peeking::on(s, place, 12) {
        let b = peeking::byte_at(s, i);
        if i == place {
            say!(" [{b:02x}]");
        } else {
            say!(" {b:02x}");
        }
    }
    if s.len() <= place {
        say!(" [end]");
    }
    say!("\n");
}
