// Writers into the unwritten rest of the output. Each answers the length that its bytes need, whether they fit or not; where they fit
// they are written.
#![tactic(auto)]

ghost use Rattle.std.specs.Prelude.{◌≡◌, [], ◌∷◌, ◌+◌};
ghost use Rattle.format.specs.Numbers.{le_bytes};
ghost use Rattle.put.specs.Out.{between, text_out, texts_out};
ghost use Rattle.put.specs.Put.{capped, Filled, Least};

use format::LibraryNo;

// ---- totals

// The lesser of two.
pub fn least(a: usize, b: usize) -> usize
    ensures { Least a b result }
{
    a.min(b)
}

// The sum, or the greatest usize where that is more.
#[tactic(auto, unfolding(crate::specs::Put::capped))]
pub fn add_up(a: usize, b: usize) -> usize
    ensures { result ≡ capped (a + b) }
{
    a.saturating_add(b)
}

// ---- bytes and numbers

pub fn put_byte(out: &mut [u8], b: u8) -> usize
    ensures { Filled (b ∷ []) out.old out.new result }
{
    if out.len() < 1 {
        return 1;
    }
    out[0] = b;
    1
}

pub fn put_two(out: &mut [u8], a: u8, b: u8) -> usize
    ensures { Filled (a ∷ b ∷ []) out.old out.new result }
{
    if out.len() < 2 {
        return 2;
    }
    out[0] = a;
    out[1] = b;
    2
}

pub fn put_number(out: &mut [u8], n: u32) -> usize
    ensures { Filled (le_bytes 4 n) out.old out.new result }
{
    if out.len() < 4 {
        return 4;
    }
    out[..4].copy_from_slice(&n.to_le_bytes());
    4
}

// The number of a library where a class or a type names it.
pub fn put_library_no(out: &mut [u8], id: LibraryNo) -> usize
    ensures { Filled (le_bytes 4 id.0) out.old out.new result }
{
    put_number(out, id.0)
}

// ---- parts of the stream

// The bytes of s from a to b, as far as there are any.
pub fn put_part(out: &mut [u8], s: &[u8], a: usize, b: usize) -> usize
    ensures { Filled (between s.now a b) out.old out.new result }
{
    let end = least(b, s.len());
    if end <= a {
        return 0;
    }
    let n = end - a;
    if out.len() < n {
        return n;
    }
    out[..n].copy_from_slice(&s[a..end]);
    n
}

// ---- texts

// The string at p: the prefix of its length in the fewest bytes, then its text.
pub fn put_text(out: &mut [u8], s: &[u8], p: usize) -> usize
    ensures { Filled (text_out s.now p) out.old out.new result }
{
    let span = spans::span_at(s, p);
    let n = (span.to - span.from) as u32;
    let a = prefix::put_prefix(out, n);
    let from = least(a, out.len());
    let b = put_part(&mut out[from..], s, span.from, span.to);
    add_up(a, b)
}

// As many strings as n, one after the other.
pub fn put_texts(out: &mut [u8], s: &[u8], n: u32, p: usize) -> usize
    ensures { Filled (texts_out s.now n p) out.old out.new result }
{
    let mut at: usize = 0;
    let mut q = p;
    for _ in 0..n {
        let from = least(at, out.len());
        let b = put_text(&mut out[from..], s, q);
        at = add_up(at, b);
        q = spans::after_text(s, q);
    }
    at
}
