// What the public jobs and the comparing one reply, as numbers: 0 or the number of the refusal, its place, and a value. The forms for C hand
// these on.
#![tactic(auto)]

ghost use Rattle.std.specs.Prelude.{◌-◌, ◌≡◌};
ghost use Rattle.format.specs.Replies.{reply, read_reply, row_reply, tidy_reply, ending_of, list_of, same_of, same_reply};
ghost use Rattle.replies.specs.Replies.{Answered, text_reply};

use format::{Refusal, Refused, RowAnswer, Span, Uncompared, Untidied};

// 0 or the refusal's number, the place, and the value: how many rows, how many bytes the text has, or how long the copy is or would be.
#[derive(Clone, Copy)]
pub struct Reply {
    pub number: u32,
    pub place: u64,
    pub value: u64,
}

fn reply_of(number: u32, place: usize, value: usize) -> Reply
    ensures { Answered (reply number place value) result.number result.place result.value }
{
    Reply {
        number,
        place: place as u64,
        value: value as u64,
    }
}

// What a reading replies: its value is how many rows there are, 0 where the list is refused.
pub fn read_reply(a: Result<usize, Refused>) -> Reply
    ensures { Answered (read_reply a) result.number result.place result.value }
{
    match a {
        Ok(n) => reply_of(0, 0, n),
        Err(r) => reply_of(format::number_of(r.refusal), r.place, 0),
    }
}

// The number that the row question replies: 0, or 21 where the row has no text.
pub fn row_number(a: RowAnswer) -> u32
    ensures { result ≡ (row_reply a).number }
{
    match a {
        RowAnswer::HasText => 0,
        RowAnswer::NoSuchRow => format::number_of(Refusal::NoSuchRow),
    }
}

// How many bytes stand between two places, 0 where the second is not past the first.
fn bytes_between(from: usize, to: usize) -> usize
    ensures { result ≡ to - from }
{
    to.saturating_sub(from)
}

// What the text view replies: its place is where the text begins and its value how many bytes it has. Whatever the fault, the number is 21.
pub fn text_reply(t: Result<Span, Refusal>) -> Reply
    ensures { Answered (text_reply t) result.number result.place result.value }
{
    match t {
        Ok(t) => reply_of(0, t.from, bytes_between(t.from, t.to)),
        Err(_) => reply_of(format::number_of(Refusal::NoSuchRow), 0, 0),
    }
}

// What a tidying replies: its value is how long the copy is or, with 20, would be.
pub fn tidy_reply(a: Result<usize, Untidied>) -> Reply
    ensures { Answered (tidy_reply a) result.number result.place result.value }
{
    match a {
        Ok(n) => reply_of(0, 0, n),
        Err(Untidied::Refused(r)) => reply_of(format::number_of(r.refusal), r.place, 0),
        Err(Untidied::OutFull(n)) => reply_of(format::number_of(Refusal::OutFull), 0, n),
    }
}

// What the tidying answered that ends a comparing. One that compares has written both copies and has no length to tell.
fn ending_of(q: Result<bool, Uncompared>) -> Result<usize, Untidied>
    ensures { result ≡ ending_of q }
{
    match q {
        Ok(_) => Ok(0),
        Err(Uncompared::First(why)) => Err(why),
        Err(Uncompared::Second(why)) => Err(why),
    }
}

// What a comparing replies: the reply of the tidying that ends it.
pub fn same_reply(q: Result<bool, Uncompared>) -> Reply
    ensures { Answered (same_reply q) result.number result.place result.value }
{
    tidy_reply(ending_of(q))
}

// Which list is refused or has no room for its copy, 1 or 2; 0 where both have their copies.
pub fn list_of(q: Result<bool, Uncompared>) -> u64
    ensures { result ≡ list_of q }
{
    match q {
        Ok(_) => 0,
        Err(Uncompared::First(_)) => 1,
        Err(Uncompared::Second(_)) => 2,
    }
}

// 1 where the lists say the same, else 0.
pub fn same_of(q: Result<bool, Uncompared>) -> u64
    ensures { result ≡ same_of q }
{
    match q {
        Ok(true) => 1,
        Ok(false) => 0,
        Err(_) => 0,
    }
}
