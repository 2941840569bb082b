// Reads many streams, one behind another, each with its class book behind it, and before it its length, the size of its table in words and the length of
// its book (four bytes each, the low byte first), and prints the answer to each and a hash of the words that are left. For comparing with the
// independent reader. With the word `--lenient` length prefixes may be padded.
#![tactic(auto)]

use format::{Refused, Setting};
use output::say;

fn answer(a: Result<usize, Refused>) {
    match a {
        Ok(rows) => say!("accepted {rows}"),
        Err(r) => traces::refused(format::number_of(r.refusal), r.place),
    }
}

// One stream with its book, and the words that its table has.
fn show(s: &[u8], book: &[u8], table: &mut [u32], setting: Setting) {
    traces::litter_words(table);
    let a = reader::read(s, book, table, setting);
    answer(a);
    traces::print_lanes(traces::words(table));
    say!("\n");
}

// The stream and the book that come next, after their sizes and that of the table. None where the input ends before, or one is larger than its room.
fn next(space: &mut [u8], book: &mut [u8], table: &mut [u32], setting: Setting) -> Option<()> {
    let mut head = [0u8; 12];
    let head = traces::next(&mut head, 12)?;
    let table = table.get_mut(..traces::size_at(head, 4))?;
    let s = traces::next(space, traces::size_at(head, 0))?;
    let book = traces::next(book, traces::size_at(head, 8))?;
    show(s, book, table, setting);
    Some(())
}

// All streams under a setting, with room for a book of 65,536 bytes.
fn all(setting: Setting) {
    let mut space: [u8; 600000] = rooms::room(0);
    let mut book = io::large_buffer();
    let mut table = [0u32; 8192];
    traces::each_stream(|| next(&mut space, &mut book, &mut table, setting));
}

fn main(rt: HostRuntime) {
    traces::under_setting(&rt, b"compare [--lenient]", all);
}
