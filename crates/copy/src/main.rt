// The tidy copy: at most 65,535 bytes from standard input, the copy to standard output. A refusal goes to standard error, and nothing to
// standard output. With the word `--lenient` length prefixes may be padded; the copy has the shortest. After the word `--book` stands the file of a
// class book of at most 1,048,575 bytes.
#![tactic(auto)]

use format::{Refusal, Setting, Untidied};
use output::{Output, say};

// `refused` number `at` place.
fn refused(r: Refusal, place: usize) {
    lines::refusal(Output::Error, format::number_of(r), place);
    say!(Output::Error; "\n");
}

// The answer, with the output that came with it: of that the first bytes, as many as were written.
fn answer(out: &[u8], a: Result<usize, Untidied>) {
    match a {
        Ok(n) => {
            if let Some(copy) = out.get(..n) {
                Output::Standard.bytes(copy);
            }
        }
        Err(Untidied::Refused(r)) => refused(r.refusal, r.place),
        Err(Untidied::OutFull(_)) => refused(Refusal::OutFull, 0),
    }
}

// The copy with a book and under a setting. No row has less than a byte, so 65,536 rows are room for every list; and only null runs grow in a copy, three
// bytes to five at the most (255 nulls and one more, which become one run of 256), so every copy fits.
fn copied(book: &[u8], setting: Setting) {
    let mut space = io::large_buffer();
    let Some(s) = files::input(&mut space) else {
        refused(Refusal::TooLarge, 0);
        return;
    };
    let mut table: [u32; 524288] = rooms::room(0);
    let mut out: [u8; 131072] = rooms::room(0);
    let a = tidy::tidy(s, book, &mut table, &mut out, setting);
    answer(&out, a);
}

fn main(rt: HostRuntime) {
    files::for_one_list(&rt, b"copy [--lenient] [--book FILE]", copied);
}
