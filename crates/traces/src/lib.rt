// What a job leaves in the lent table and output, as hashes that programs print, what stands there before it, the sizes and bytes of a stream as they
// come, and one stream after another. For comparing with the independent reader and tidier; what is written cannot be promised, what is hashed is.
#![tactic(auto)]

ghost use Rattle.std.specs.Prelude.{◌<◌, ◌≤◌, ◌≡◌, length, IfSome};
ghost use Rattle.traces.specs.Traces.{stirred, lanes_of, littered_words, littered_bytes, size_at};

use format::Setting;
use options::Choice;
use output::{Output, say};
use std::env::Env;

const STDIN: i32 = 0;

// The table holds something else before each stream.
pub fn litter_words(table: &mut [u32])
    ensures { table.new ≡ littered_words table.old }
{
    table.fill(2779096485);
}

// So does the output.
pub fn litter_bytes(out: &mut [u8])
    ensures { out.new ≡ littered_bytes out.old }
{
    out.fill(165);
}

// Two lanes of a hash in which every word counts, and its place.
#[derive(Clone, Copy)]
pub struct Lanes {
    pub a: u64,
    pub b: u64,
}

// The lanes after one word more.
#[tactic(auto, unfolding(crate::specs::Traces::stirred))]
fn stir(l: Lanes, w: u32) -> Lanes
    requires { (l.a < 4294967291) × (l.b < 4294967291) }
    ensures { result ≡ stirred l w }
{
    Lanes {
        a: (l.a * 65599 + (w as u64) + 1) % 4294967291,
        b: (l.b * 131071 + (w as u64) + 1) % 4294967291,
    }
}

// The hash of the words of a table.
pub fn words(table: &[u32]) -> Lanes
    ensures { result ≡ lanes_of table.now }
{
    let mut l = Lanes { a: 0, b: 0 };
    for w in table {
        l = stir(l, *w);
    }
    l
}

// The hash of the bytes of an output, each taken as a word. A trait that gives the word of each type would be longer than the two loops.
pub fn bytes(out: &[u8]) -> Lanes
    ensures { result ≡ lanes_of out.now }
{
    let mut l = Lanes { a: 0, b: 0 };
    for b in out {
        l = stir(l, u32::from(*b));
    }
    l
}

// A blank before each lane.
pub fn print_lanes(l: Lanes) {
    say!(" {} {}", l.a, l.b);
}

// `refused` number `at` place.
pub fn refused(number_of: u32, place: usize) {
    lines::refusal(Output::Standard, number_of, place);
}

// The number of four bytes at a place of what stands before a stream, or 0.
pub fn size_at(head: &[u8], at: usize) -> usize
    ensures { result ≡ size_at head.now at }
{
    let v = num::u32_at(head, at);
    match v {
        Some((n, _)) => n as usize,
        None => 0,
    }
}

// The n bytes that come next, put into a space. None where the space has no room for them, or the input ends before.
pub fn next(space: &mut [u8], n: usize) -> Option<&[u8]>
    ensures { IfSome result (λ s. (length s.now ≡ n) × (n ≤ length space.old)) }
{
    let space = space.get_mut(..n)?;
    let got = io::read_full(STDIN, space);
    (got == n).then_some(space)
}

// Does a job for one stream after another, until one is missing or a million are done.
pub fn each_stream<F: FnMut() -> Option<()>>(mut job: F)
    requires { F.IsAlwaysCallable job }
{
    for _ in 0..1000000 {
        if job().is_none() {
            return;
        }
    }
}

// Does a job under the setting that the words of the call choose; a book comes with each stream, and none from a file. Where the call is wrong it says
// how the program is called.
pub fn under_setting<F: FnOnce(Setting)>(rt: &impl Env, call: &[u8], job: F)
    requires { F.IsAlwaysCallable job }
{
    match options::one(rt) {
        Ok(
            Choice {
                setting,
                book: None,
            },
        ) => job(setting),
        _ => options::usage(call),
    }
}
