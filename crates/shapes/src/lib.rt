// The shape of an array: its rank, its lengths and their product.
#![tactic(auto)]

ghost use Rattle.std.specs.Prelude.{◌*◌, ◌≤◌, ◌<◌, ◌≡◌};
ghost use Rattle.format.specs.Records.{good_rank, lengths_at};
ghost use Rattle.shapes.specs.Lengths.{capped, judged};

use format::{Reader, Refusal};

// ---- kind 7: rank and lengths

// One more factor. A product above the most slots stays the same number above them until a factor of 0, so that it never wraps.
fn times_length(product: u64, count: u32) -> u64
    requires { product ≤ 2147483648 }
    ensures { result ≡ capped (product * count) }
{
    let all = product * (count as u64);
    if all <= (Reader::MOST_SLOTS as u64) {
        return all;
    }
    2147483648
}

// The product is judged after the last length.
fn judge(product: u64, at: usize) -> Result<(u32, usize), Refusal>
    ensures { result ≡ judged product at }
{
    if product <= (Reader::MOST_SLOTS as u64) {
        return Ok((product as u32, at));
    }
    Err(Refusal::BadCount)
}

pub fn lengths_at(s: &[u8], rank: u32, at: usize) -> Result<(u32, usize), Refusal>
    ensures { result ≡ lengths_at s.now rank 1 at }
{
    let mut product: u64 = 1;
    let mut p = at;
    for _ in 0..rank {
        let (count, next) = num::u32_at(s, p).ok_or(Refusal::CutShort)?;
        if num::is_negative(count) {
            return Err(Refusal::BadCount);
        }
        product = times_length(product, count);
        p = next;
    }
    judge(product, p)
}

// Array types 0 and 1 have rank 1, a rectangular array has 2 to 32.
pub fn is_rank(kind: u8, rank: u32) -> bool
    ensures { result ≡ good_rank kind rank }
{
    if kind != 2 {
        return rank == 1;
    }
    if rank < Reader::LEAST_RANK {
        return false;
    }
    rank <= Reader::MOST_RANK
}
