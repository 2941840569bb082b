// Whether two lists say the same: the two files that the arguments name, of at most 65,535 bytes each. The first word that it writes is `same`, `different`,
// `refused` or `unusable`. Where the lists differ it names the row of the tidy copies in which they first do, and what that row says in each. Options
// stand after the files. `--lenient` lets length prefixes be padded in both lists, `--lenient-first` and `--lenient-second` in one of them; so `--book`,
// `--book-first` and `--book-second` go before the file of a class book, of at most 1,048,575 bytes.
#![tactic(auto)]

use files::Unusable;
use format::{Refusal, Setting, Uncompared, Untidied};
use options::Choices;
use output::{Output, say};
use std::env::Env;
use std::fs::Files;

// A list as it is given: its bytes, its class book and the setting under which it is read.
#[derive(Clone, Copy)]
struct List<'a> {
    bytes: &'a [u8],
    book: &'a [u8],
    setting: Setting,
}

// The file that argument i names, as a text.
fn file_name(rt: &impl Env, i: usize) {
    let mut path = io::buffer();
    let n = rt.arg(i, &mut path).unwrap_or(0);
    spelling::text(&path[..n]);
}

// A refusal, after the file that it is about.
fn refused(rt: &impl Env, i: usize, r: Refusal, place: usize) {
    say!("refused: ");
    file_name(rt, i);
    say!(": ");
    refusals::refusal(r, place);
}

// Why the list of a file has no tidy copy, after the file.
fn untidied(rt: &impl Env, i: usize, why: Untidied) {
    match why {
        Untidied::Refused(r) => refused(rt, i, r.refusal, r.place),
        Untidied::OutFull(_) => refused(rt, i, Refusal::OutFull, 0),
    }
}

// Says that no list can be read from the file that word i names, and why.
fn unusable(rt: &impl Env, i: usize, why: Unusable) {
    match why {
        Unusable::Unopened => {
            say!("unusable: ");
            file_name(rt, i);
            say!(": cannot be opened\n");
        }
        Unusable::TooLarge => {
            refused(rt, i, Refusal::TooLarge, 0);
            say!("this program takes lists of at most 65,535 bytes\n");
        }
    }
}

// The row of a copy that holds the byte at a place, by its number and its kind, and what it says. A copy is read alike under both settings and
// with every good book.
fn told(copy: &[u8], table: &mut [u32], place: usize) {
    let a = reader::read(copy, b"", table, Setting::Strict);
    match a {
        Ok(n) => {
            let i = difference::row_of(table, n, place);
            let kind = telling::kind_name(members::row_at(table, i).kind);
            say!("{i} ({kind}): ");
            telling::row(copy, table, i, Setting::Strict);
            say!("\n");
        }
        Err(_) => say!("none\n"),
    }
}

// Where two copies first differ.
fn apart(a: &[u8], b: &[u8], table: &mut [u32]) {
    let place = difference::common(a, b);
    say!("different: the tidy copies first differ at byte {place}\nfirst, row ");
    told(a, table, place);
    say!("second, row ");
    told(b, table, place);
}

// Tidies both lists again for the lengths of their copies. A copy is never longer than its output.
fn different(a: List<'_>, b: List<'_>, table: &mut [u32], first: &mut [u8], second: &mut [u8]) {
    let m = difference::length_of(tidy::tidy(a.bytes, a.book, table, first, a.setting));
    let n = difference::length_of(tidy::tidy(b.bytes, b.book, table, second, b.setting));
    if let (Some(a), Some(b)) = (first.get(..m), second.get(..n)) {
        apart(a, b, table);
    }
}

// The answer on two lists.
fn compared(
    rt: &impl Env,
    a: List<'_>,
    b: List<'_>,
    table: &mut [u32],
    first: &mut [u8],
    second: &mut [u8],
) {
    let q = sameness::say_the_same(
        a.bytes, a.book, b.bytes, b.book, table, first, second, a.setting, b.setting,
    );
    match q {
        Ok(true) => say!("same\n"),
        Ok(false) => different(a, b, table, first, second),
        Err(Uncompared::First(why)) => untidied(rt, 1, why),
        Err(Uncompared::Second(why)) => untidied(rt, 2, why),
    }
}

// Both lists, with room for a table and their copies. No row has less than a byte, so 65,536 rows are room for every list; and only null runs grow in a copy,
// three bytes to five at the most (255 nulls and one more, which become one run of 256), so every copy fits.
fn both(rt: &impl Env, a: List<'_>, b: List<'_>) {
    let mut table: [u32; 524288] = rooms::room(0);
    let mut first: [u8; 131072] = rooms::room(0);
    let mut second: [u8; 131072] = rooms::room(0);
    compared(rt, a, b, &mut table, &mut first, &mut second);
}

// Does a job with the list in the file that word i names. Where it cannot be used that is said, and the job is not done.
fn with_list<F: FnOnce(&[u8])>(rt: &(impl Env + Files), i: usize, job: F)
    requires { F.IsAlwaysCallable job }
{
    let mut space = io::large_buffer();
    let n = files::load(rt, i, &mut space).ok_or(Unusable::Unopened);
    match n.and_then(|n| files::whole(&space, n)) {
        Ok(s) => job(s),
        Err(why) => unusable(rt, i, why),
    }
}

// The lists in both files, each with its own book and under its own setting.
fn lists(rt: &(impl Env + Files), a_book: &[u8], b_book: &[u8], c: Choices) {
    with_list(rt, 1, |a| {
        with_list(rt, 2, |b| {
            let first = List {
                bytes: a,
                book: a_book,
                setting: c.first.setting,
            };
            let second = List {
                bytes: b,
                book: b_book,
                setting: c.second.setting,
            };
            both(rt, first, second);
        })
    });
}

// The lists as the words of the call choose. Their books are looked for first.
fn called(rt: &(impl Env + Files), c: Choices) {
    files::with_book(rt, Output::Standard, c.first.book, |a| {
        files::with_book(rt, Output::Standard, c.second.book, |b| lists(rt, a, b, c))
    });
}

// How the program is called.
fn usage() {
    say!(
        "unusable: no such option; usage: differ FILE FILE [--lenient|--lenient-first|--lenient-second] "
    );
    say!("[--book FILE|--book-first FILE|--book-second FILE]\n");
}

fn main(rt: HostRuntime) {
    match options::two(&rt) {
        Ok(c) => called(&rt, c),
        Err(_) => usage(),
    }
}
