// Values in a row: the items of an array of primitives.
#![tactic(auto)]

ghost use Rattle.std.specs.Prelude.{◌≡◌};
ghost use Rattle.format.specs.Values.{value_at, times, items_at};

use format::{PrimitiveCode, Refusal, Setting};

// n values, one after the other: the first that is bad or missing decides.
fn each_at(
    s: &[u8],
    code: PrimitiveCode,
    n: u32,
    at: usize,
    setting: Setting,
) -> Result<usize, Refusal>
    ensures { result ≡ times (value_at setting s.now code) n at }
{
    let mut p = at;
    for _ in 0..n {
        p = values::value_at(s, code, p, setting)?;
    }
    Ok(p)
}

// The n items of a primitive array: numbers in one step, judged values one by one.
pub fn items_at(
    s: &[u8],
    code: PrimitiveCode,
    n: u32,
    at: usize,
    setting: Setting,
) -> Result<usize, Refusal>
    ensures { result ≡ items_at setting s.now code n at }
{
    let size = values::size_of(code);
    if size == 0 {
        return each_at(s, code, n, at, setting);
    }
    value_forms::bytes_at(s, at, size * (n as usize))
}
