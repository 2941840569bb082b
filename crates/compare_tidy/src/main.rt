// Tidies many streams, one behind another, each with its class book behind it, and before it its length, the size of its table in words, the size of its
// output in bytes and the length of its book (four bytes each, the low byte first), and prints the answer to each, a hash of the words that are left and
// one of all bytes of the output. For comparing with the independent tidier. With the word `--lenient` length prefixes may be padded.
#![tactic(auto)]

use format::{Setting, Untidied};
use output::say;

fn answer(a: Result<usize, Untidied>) {
    match a {
        Ok(n) => say!("written {n}"),
        Err(Untidied::Refused(r)) => traces::refused(format::number_of(r.refusal), r.place),
        Err(Untidied::OutFull(needed)) => say!("full {needed}"),
    }
}

// One stream with its book, the words that its table has and the bytes that its output has.
fn show(s: &[u8], book: &[u8], table: &mut [u32], out: &mut [u8], setting: Setting) {
    traces::litter_words(table);
    traces::litter_bytes(out);
    let a = tidy::tidy(s, book, table, out, setting);
    answer(a);
    traces::print_lanes(traces::words(table));
    traces::print_lanes(traces::bytes(out));
    say!("\n");
}

// The stream and the book that come next, after their sizes and those of the table and of the output. None where the input ends before, or one is larger
// than its room.
fn next(
    space: &mut [u8],
    book: &mut [u8],
    table: &mut [u32],
    out: &mut [u8],
    setting: Setting,
) -> Option<()> {
    let mut head = [0u8; 16];
    let head = traces::next(&mut head, 16)?;
    let table = table.get_mut(..traces::size_at(head, 4))?;
    let out = out.get_mut(..traces::size_at(head, 8))?;
    let s = traces::next(space, traces::size_at(head, 0))?;
    let book = traces::next(book, traces::size_at(head, 12))?;
    show(s, book, table, out, setting);
    Some(())
}

// All streams under a setting, with room for a book of 65,536 bytes.
fn all(setting: Setting) {
    let mut space: [u8; 600000] = rooms::room(0);
    let mut book = io::large_buffer();
    let mut table = [0u32; 8192];
    let mut out: [u8; 1000000] = rooms::room(0);
    traces::each_stream(|| next(&mut space, &mut book, &mut table, &mut out, setting));
}

fn main(rt: HostRuntime) {
    traces::under_setting(&rt, b"compare_tidy [--lenient]", all);
}
