// All 14 counter examples and the streams that the arguments name, each with what reading it answers. The stored output has what the rules say.
#![tactic(auto)]

use format::Setting;
use output::{Output, say};
use std::env::Env;
use std::fs::{File, Files};
use std::io::{Cursor, Error, Read, Write};
use std::str;

// One stream with a table.
fn with_table(name: &[u8], s: &[u8], table: &mut [u32]) {
    Output::Standard.bytes(name);
    say!(": ");
    let a = reader::read(s, b"", table, Setting::Strict);
    lines::answer(table, a);
}

// One stream with a table of 512 words.
fn one(name: &[u8], s: &[u8]) {
    with_table(name, s, &mut [0; 512]);
}

// Cases 1 to 6: a string, as it should be, cut, longer, with a root that is not there, with a longer prefix.
fn of_a_string() {
    one(b"1", b"");
    one(
        b"2",
        b"\x00\x01\x00\x00\x00\x01\x00\x00\x00\x01\x00\x00\x00\x00\x00\x00\x00\x06\x01\x00\x00\x00\x04\x31\x32\x45\x35\x0b",
    );
    one(
        b"2 with HeaderId -1",
        b"\x00\x01\x00\x00\x00\xff\xff\xff\xff\x01\x00\x00\x00\x00\x00\x00\x00\x06\x01\x00\x00\x00\x04\x31\x32\x45\x35\x0b",
    );
    one(
        b"2 with 7 for both ids",
        b"\x00\x07\x00\x00\x00\x01\x00\x00\x00\x01\x00\x00\x00\x00\x00\x00\x00\x06\x07\x00\x00\x00\x04\x31\x32\x45\x35\x0b",
    );
    one(
        b"3",
        b"\x00\x01\x00\x00\x00\x01\x00\x00\x00\x01\x00\x00\x00\x00\x00\x00\x00\x06\x01\x00\x00\x00\x04\x31\x32\x45\x35",
    );
    one(
        b"4",
        b"\x00\x01\x00\x00\x00\x01\x00\x00\x00\x01\x00\x00\x00\x00\x00\x00\x00\x06\x01\x00\x00\x00\x04\x31\x32\x45\x35\x0b\x00",
    );
    one(
        b"5",
        b"\x00\x02\x00\x00\x00\x01\x00\x00\x00\x01\x00\x00\x00\x00\x00\x00\x00\x06\x01\x00\x00\x00\x04\x31\x32\x45\x35\x0b",
    );
    one(
        b"6",
        b"\x00\x01\x00\x00\x00\x01\x00\x00\x00\x01\x00\x00\x00\x00\x00\x00\x00\x06\x01\x00\x00\x00\x84\x00\x31\x32\x45\x35\x0b",
    );
}

// Cases 7 to 14: an array with null runs and other slots; 13 is case 2 with a table that is too small.
fn of_an_array() {
    one(
        b"7",
        b"\x00\x01\x00\x00\x00\x01\x00\x00\x00\x01\x00\x00\x00\x00\x00\x00\x00\x10\x01\x00\x00\x00\x03\x00\x00\x00\x0d\x03\x0b",
    );
    one(
        b"8",
        b"\x00\x01\x00\x00\x00\x01\x00\x00\x00\x01\x00\x00\x00\x00\x00\x00\x00\x10\x01\x00\x00\x00\x03\x00\x00\x00\x0d\x04",
    );
    one(
        b"9",
        b"\x00\x01\x00\x00\x00\x01\x00\x00\x00\x01\x00\x00\x00\x00\x00\x00\x00\x10\x01\x00\x00\x00\x03\x00\x00\x00\x0d\x00\x0b",
    );
    one(
        b"10",
        b"\x00\x01\x00\x00\x00\x01\x00\x00\x00\x01\x00\x00\x00\x00\x00\x00\x00\x10\x01\x00\x00\x00\x01\x00\x00\x00\x09\x05\x00\x00\x00\x0b",
    );
    one(
        b"11",
        b"\x00\x01\x00\x00\x00\x01\x00\x00\x00\x01\x00\x00\x00\x00\x00\x00\x00\x10\x01\x00\x00\x00\x01\x00\x00\x00\x08\x05\x04\x31\x32\x45\x35",
    );
    one(
        b"12",
        b"\x00\x01\x00\x00\x00\x01\x00\x00\x00\x01\x00\x00\x00\x00\x00\x00\x00\x10\x01\x00\x00\x00\x00\x01\x00\x00\x0d\xff\x0a\x0b",
    );
    with_table(
        b"13",
        b"\x00\x01\x00\x00\x00\x01\x00\x00\x00\x01\x00\x00\x00\x00\x00\x00\x00\x06\x01\x00\x00\x00\x04\x31\x32\x45\x35\x0b",
        &mut [0; 16],
    );
    one(
        b"14",
        b"\x00\x01\x00\x00\x00\x01\x00\x00\x00\x01\x00\x00\x00\x00\x00\x00\x00\x10\x01\x00\x00\x00\x00\x00\x00\x00\x0b",
    );
}

// Says to standard error that the file with a name cannot be opened, and why.
fn unopened(name: &[u8], why: &[u8]) {
    Output::Error.bytes(name);
    say!(Output::Error; ": ");
    Output::Error.bytes(why);
    say!(Output::Error; "\n");
}

// The same for an error of the system, without its number, which stands behind its words.
fn failed(name: &[u8], error: Error) {
    let mut text = Cursor::new([0u8; 512]);
    if write!(text, "{error}").is_err() {
        unopened(name, b"");
        return;
    }
    let n = text.position() as usize;
    let room = text.into_inner();
    let all = str::from_utf8(room.get(..n).unwrap_or(b"")).unwrap_or("");
    let words = all
        .split_once(" (os error ")
        .map_or(all, |(words, _)| words);
    unopened(name, words.as_bytes());
}

// The stream in a file that is open, by the file's name.
fn from_open(name: &[u8], file: &mut impl Read) {
    let mut space = io::large_buffer();
    let k = files::read_full(file, &mut space);
    one(name, &space[..k]);
}

// The stream in the file that argument i names. A name that is not UTF-8 names no file that can be opened.
fn from_file(rt: &(impl Env + Files), i: usize) {
    let mut path = io::buffer();
    let n = rt.arg(i, &mut path).unwrap_or(0);
    let name = &path[..n];
    match str::from_utf8(name) {
        Ok(text) => match File::open(rt, text) {
            Ok(mut file) => from_open(name, &mut file),
            Err(error) => failed(name, error),
        },
        Err(_) => unopened(name, b"the name is not UTF-8"),
    }
}

// The streams in the files that the words of the call name.
fn from_files(rt: &(impl Env + Files)) {
    let n = options::word_count(rt);
    for i in 1..n {
        from_file(rt, i);
    }
}

fn main(rt: HostRuntime) {
    of_a_string();
    of_an_array();
    from_files(&rt);
}
