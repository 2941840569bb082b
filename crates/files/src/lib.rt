// The files that words of a call name: lists where a call takes two, and class books; and what stands on standard input. A book that no word names is an
// empty one. What fills the space that is lent for it may go on, and is too large.
#![tactic(auto)]

ghost use Rattle.std.specs.Prelude.{◌≡◌, ◌≤◌, ◌<◌, length, ltb, is_ok, IfSome, IfOk};

use format::Setting;
use options::Choice;
use output::{Output, say};
use std::env::Env;
use std::fs::{File, Files};
use std::io::Read;
use std::str;

const STDIN: i32 = 0;

// Why a file cannot be used.
#[derive(Clone, Copy, Debug, PartialEq, Eq)]
pub enum Unusable {
    Unopened,
    TooLarge,
}

// Fills `space` with what a file still has, as far as there is room and no read fails; how many bytes it put there. No method of std tells how many
// came before the end, so the loop stays.
pub fn read_full(file: &mut impl Read, space: &mut [u8]) -> usize
    ensures { result ≤ length space.new }
{
    let mut done = 0;
    while done < space.len() {
        let n = file.read(&mut space[done..]).unwrap_or(0);
        if n == 0 {
            return done;
        }
        done += n;
    }
    done
}

// The n bytes that were put into a space. Too large where they fill it, since what they are of may go on.
pub fn whole(space: &[u8], n: usize) -> Result<&[u8], Unusable>
    ensures short { IfOk result (λ s. length s.now ≡ n) }
    ensures variant { is_ok result ≡ ltb n (length space.now) }
{
    if n < space.len() {
        Ok(&space[..n])
    } else {
        Err(Unusable::TooLarge)
    }
}

// What stands on standard input, put into `space`. None where it fills it.
pub fn input(space: &mut [u8]) -> Option<&[u8]>
    ensures { IfSome result (λ s. length s.now < length space.old) }
{
    let n = io::read_full(STDIN, space);
    whole(space, n).ok()
}

// Puts the bytes of the file that word i names into `space`, as many as it has room for, and answers how many: `whole` tells whether that is all. None
// where the file cannot be opened. A name that is not UTF-8 names no such file.
pub fn load(rt: &(impl Env + Files), i: usize, space: &mut [u8]) -> Option<usize>
    ensures { IfSome result (λ n. n ≤ length space.new) }
{
    let mut path = io::buffer();
    let n = rt.arg(i, &mut path).unwrap_or(0);
    let name = str::from_utf8(&path[..n]).ok()?;
    let mut file = File::open(rt, name).ok()?;
    Some(read_full(&mut file, space))
}

// Says to an output that the class book which word i names cannot be used, and why.
fn unusable_book(rt: &impl Env, to: Output, i: usize, why: Unusable) {
    let mut path = io::buffer();
    let n = rt.arg(i, &mut path).unwrap_or(0);
    let why = match why {
        Unusable::Unopened => ": cannot be opened\n",
        Unusable::TooLarge => ": a class book has at most 1,048,575 bytes here\n",
    };
    say!(to; "unusable: ");
    to.bytes(&path[..n]);
    say!(to; "{why}");
}

// Does a job with the class book that a word names, of at most 1,048,575 bytes. Where it cannot be used that is said to an output, and the job is not
// done.
pub fn with_book<F: FnOnce(&[u8])>(rt: &(impl Env + Files), to: Output, word: Option<usize>, job: F)
    requires { F.IsAlwaysCallable job }
{
    let Some(i) = word else {
        job(b"");
        return;
    };
    let mut room: [u8; 1048576] = rooms::room(0);
    let n = load(rt, i, &mut room).ok_or(Unusable::Unopened);
    match n.and_then(|n| whole(&room, n)) {
        Ok(book) => job(book),
        Err(why) => unusable_book(rt, to, i, why),
    }
}

// Does a job with the class book and under the setting that the words of the call choose for one list. Where the call is wrong it says how the program is
// called.
pub fn for_one_list<F: FnOnce(&[u8], Setting)>(rt: &(impl Env + Files), call: &[u8], job: F)
    requires { F.IsAlwaysCallable job }
{
    match options::one(rt) {
        Ok(c) => with_book(rt, Output::Error, c.book, |book| job(book, c.setting)),
        Err(_) => options::usage(call),
    }
}
