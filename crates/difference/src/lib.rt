// Where two tidy copies first differ: how many bytes they have in common from their first on, and the row of a copy that holds the byte at a place.
// Every pair of copies, every table and every place is taken.
#![tactic(auto)]

ghost use Rattle.std.specs.Prelude.{◌≡◌};
ghost use Rattle.difference.specs.Difference.{common_of, row_holding, length_of};

use format::Untidied;

// How many bytes two copies have in common from their first on: the place where they first differ, or the length of the shorter one.
pub fn common(a: &[u8], b: &[u8]) -> usize
    ensures { result ≡ common_of a.now b.now }
{
    a.iter().zip(b).take_while(|(x, y)| x == y).count()
}

// The first row below `end` that ends past a place, or `end`. The rows of a list stand one behind another, so its own bytes hold the byte there.
pub fn row_of(table: &[u32], end: usize, place: usize) -> usize
    ensures { result ≡ row_holding table.now end place }
{
    for i in 0..end {
        let r = members::row_at(table, i);
        if place < (r.end as usize) {
            return i;
        }
    }
    end
}

// How long a copy is, 0 where none was written.
pub fn length_of(a: Result<usize, Untidied>) -> usize
    ensures { result ≡ length_of a }
{
    match a {
        Ok(n) => n,
        Err(_) => 0,
    }
}
