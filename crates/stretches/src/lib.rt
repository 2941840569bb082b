// Rows whose values keep all their bytes in the tidy copy and follow one another in the stream: their bytes are one part of it. `anew` is the code
// whose values are written anew.
#![tactic(auto)]

ghost use Rattle.std.specs.Prelude.{◌≡◌, ◌≤◌, drop};
ghost use Rattle.format.specs.Rows.{room_of, rows_of};
ghost use Rattle.stretches.specs.Stretches.{is_plain, is_kept, is_next, stretch};

use format::Row;

// The row after the last of them, and the place where they end.
#[derive(Clone, Copy)]
pub struct Stretch {
    pub next: usize,
    pub end: u32,
}

// Whether a MemberPrimitiveTyped (2.5.1 in MS-NRBF) is not written anew, and its value stands behind its kind and its code.
fn is_plain(s: &[u8], r: Row, anew: u32) -> bool
    ensures { result ≡ is_plain anew s.now r }
{
    let at = r.offset as usize;
    (codes::byte_at(s, at + 1) as u32) != anew && at + 2 <= (r.end as usize)
}

// Any other value is kept, whether a member value (MemberPrimitiveUnTyped, 2.5.2) or one with its kind.
fn is_kept(s: &[u8], r: Row, anew: u32) -> bool
    ensures { result ≡ is_kept anew s.now r }
{
    match r.kind {
        32 => r.link != anew,
        8 => is_plain(s, r, anew),
        _ => false,
    }
}

// Whether row r is kept and its bytes begin at this place.
#[tactic(auto, unfolding(crate::specs::Stretches::is_next))]
fn is_next(s: &[u8], place: u32, r: Row, anew: u32) -> bool
    ensures { result ≡ is_next anew s.now place r }
{
    r.offset == place && place <= r.end && is_kept(s, r, anew)
}

// The stretch that begins with row `first` at this place; one of no rows where that row is not kept, or lies elsewhere.
pub fn stretch_from(
    s: &[u8],
    table: &[u32],
    n: usize,
    first: usize,
    place: u32,
    anew: u32,
) -> Stretch
    requires { (first ≤ n) × (n ≤ room_of table.now) }
    ensures { result ≡ stretch anew s.now first place (drop first (rows_of n table.now)) }
{
    let mut end = place;
    for i in first..n {
        let r = table::row_at(table, n, i);
        if !is_next(s, end, r, anew) {
            return Stretch { next: i, end };
        }
        end = r.end;
    }
    Stretch { next: n, end }
}
