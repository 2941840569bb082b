// The rows of the lent run of words: read, written, cleared. Of the crates that the
// public jobs are made of, only this one knows that a row has eight words and where they lie.
#![tactic(auto)]

ghost use Rattle.std.specs.Prelude.{◌≡◌, [], ◌∷◌, ◌++◌, ◌+◌, ◌-◌, ◌*◌, ◌≤◌, ◌<◌, length, get_or, set, replicate};
ghost use Rattle.format.specs.Rows.{blank, room_of, words, rows_of, with_link};

use format::Row;

// How many whole rows the words have room for.
pub fn room(table: &[u32]) -> usize
    ensures { result ≡ room_of table.now }
{
    table.len() / 8
}

// ---- rows

// Row i of the first n; the blank row where there is none.
pub fn row_at(table: &[u32], n: usize, i: usize) -> Row
    requires { n ≤ room_of table.now }
    ensures { result ≡ get_or (rows_of n table.now) i blank }
{
    if n <= i {
        return Row {
            kind: 0,
            offset: 0,
            end: 0,
            id: 0,
            owner: 0,
            slot: 0,
            link: 0,
            count: 0,
        };
    }
    let &[kind, offset, end, id, owner, slot, link, count, ..] = &table[8 * i..] else {
        unreachable!();
    };
    Row {
        kind,
        offset,
        end,
        id,
        owner,
        slot,
        link,
        count,
    }
}

// ---- a word of a row: one function for each that is asked for alone, since callers know no word's number

// The kind of row i alone.
pub fn kind_at(table: &[u32], n: usize, i: usize) -> u32
    requires { (i < n) × (n ≤ room_of table.now) }
    ensures { result ≡ (get_or (rows_of n table.now) i blank).kind }
{
    table[8 * i]
}

// The id of row i alone.
pub fn id_at(table: &[u32], n: usize, i: usize) -> u32
    requires { (i < n) × (n ≤ room_of table.now) }
    ensures { result ≡ (get_or (rows_of n table.now) i blank).id }
{
    table[8 * i + 3]
}

// The owner of row i alone.
pub fn owner_at(table: &[u32], n: usize, i: usize) -> u32
    requires { (i < n) × (n ≤ room_of table.now) }
    ensures { result ≡ (get_or (rows_of n table.now) i blank).owner }
{
    table[8 * i + 4]
}

// The count of row i alone.
pub fn count_at(table: &[u32], n: usize, i: usize) -> u32
    requires { (i < n) × (n ≤ room_of table.now) }
    ensures { result ≡ (get_or (rows_of n table.now) i blank).count }
{
    table[8 * i + 7]
}

// ---- rows written

// Row i of the first n is r.
pub fn put_at(table: &mut [u32], n: usize, i: usize, r: Row)
    requires { (i < n) × (n ≤ room_of table.old) }
    ensures { rows_of n table.new ≡ set (rows_of n table.old) i r }
{
    let b = 8 * i;
    let words = [
        r.kind, r.offset, r.end, r.id, r.owner, r.slot, r.link, r.count,
    ];
    table[b..b + 8].copy_from_slice(&words);
}

// r is one row more than the first n.
pub fn put_row(table: &mut [u32], n: usize, r: Row)
    requires { n < room_of table.old }
    ensures { rows_of (n + 1) table.new ≡ rows_of n table.old ++ (r ∷ []) }
{
    put_at(table, n + 1, n, r);
}

// Row i of the first n has this link.
pub fn set_link(table: &mut [u32], n: usize, i: usize, link: u32)
    requires { (i < n) × (n ≤ room_of table.old) }
    ensures { rows_of n table.new ≡ set (rows_of n table.old) i
        (with_link (get_or (rows_of n table.old) i blank) link) }
{
    table[8 * i + 6] = link;
}

// ---- clearing

// All words are zero.
pub fn clear(table: &mut [u32])
    ensures { table.new ≡ replicate (length table.old) 0 }
{
    table.fill(0);
}

// All words after the first n rows are zero, those of a broken last row too.
pub fn clear_after(table: &mut [u32], n: usize)
    requires { n ≤ room_of table.old }
    ensures { table.new ≡ words (rows_of n table.old) ++ replicate (length table.old - 8 * n) 0 }
{
    let from = 8 * n;
    clear(&mut table[from..]);
}
