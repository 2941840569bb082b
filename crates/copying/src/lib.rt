// Writes the tidy copy from marked rows, one row after the other: null runs are gathered across rows, and the same traversal measures
// and writes. `anew` is the code whose values are written anew.
#![tactic(auto)]

ghost use Rattle.std.specs.Prelude.{◌≡◌, ◌++◌, ◌≤◌, ◌<◌, length};
ghost use Rattle.format.specs.Rows.{rows_of, room_of};
ghost use Rattle.format.specs.Says.{is_nulls};
ghost use Rattle.format.specs.Tidy.{answer_by, out_by};
ghost use Rattle.put.specs.Out.{between, run_out};
ghost use Rattle.put.specs.Put.{Filled};
ghost use Rattle.copying.specs.Laws.{is_more};
ghost use Rattle.pieces.specs.Copy.{is_passed, before_out, run_after, row_out, copy_of};

use format::{Reader, Row, Untidied};
use pieces::Gathered;

// ---- null runs

fn is_nulls(kind: u32) -> bool
    ensures { result ≡ is_nulls kind }
{
    matches!(kind, 10 | 13 | 14)
}

// Rows that a run is gathered across: libraries, and runs of 0.
fn is_passed(r: Row) -> bool
    ensures { result ≡ is_passed r }
{
    r.kind == 12 || is_nulls(r.kind) && r.count == 0
}

// Whether a row of this kind and owner is more of the nulls gathered so far: it adds nothing to the copy yet.
#[tactic(auto, unfolding(crate::specs::Laws::is_more))]
fn is_more(w: Gathered, kind: u32, owner: u32) -> bool
    ensures { result ≡ is_more w kind owner }
{
    is_nulls(kind) && owner == w.owner
}

// The nulls gathered so far, if row r is no more of them.
fn put_before(out: &mut [u8], w: Gathered, r: Row) -> usize
    ensures { Filled (before_out w r) out.old out.new result }
{
    if is_passed(r) || is_more(w, r.kind, r.owner) {
        return 0;
    }
    heads::put_run(out, w.count)
}

// The nulls that wait after row r.
fn run_after(before: Gathered, r: Row) -> Gathered
    requires { before.count < 1152921504606846976 }
    ensures { result ≡ run_after before r }
{
    if is_passed(r) {
        return before;
    }
    if is_nulls(r.kind) {
        if r.owner == before.owner {
            return Gathered {
                owner: r.owner,
                count: before.count + (r.count as usize),
            };
        }
        return Gathered {
            owner: r.owner,
            count: r.count as usize,
        };
    }
    Gathered { owner: 0, count: 0 }
}

// ---- the copy

// Row i, which is r, after the nulls before it.
fn put_row(
    out: &mut [u8],
    s: &[u8],
    table: &[u32],
    n: usize,
    i: usize,
    w: Gathered,
    r: Row,
    anew: u32,
) -> usize
    requires { (n ≤ room_of table.now) × (n < 4294967296) × (i < 4294967296) }
    ensures { Filled (row_out anew s.now (rows_of n table.now) i w r) out.old out.new result }
{
    let a = put_before(out, w, r);
    let from = put::least(a, out.len());
    let b = one_row::put_record(&mut out[from..], s, table, n, i, r, anew);
    put::add_up(a, b)
}

// Nulls that wait, and after them the records that are kept from place `begin` to place `end`.
fn put_stretch(out: &mut [u8], s: &[u8], nulls: usize, begin: u32, end: u32) -> usize
    ensures { Filled (run_out nulls ++ between s.now begin end) out.old out.new result }
{
    let a = heads::put_run(out, nulls);
    let from = put::least(a, out.len());
    let b = put::put_part(&mut out[from..], s, begin as usize, end as usize);
    put::add_up(a, b)
}

// The whole copy at the front of `out`, and its length; over an empty part, the length alone.
fn copy_all(out: &mut [u8], s: &[u8], table: &[u32], n: usize, anew: u32) -> usize
    requires { (n ≤ room_of table.now) × (n ≤ 16777216) }
    ensures { Filled (copy_of anew s.now (rows_of n table.now)) out.old out.new result }
{
    let mut at: usize = 0;
    let mut w = Gathered { owner: 0, count: 0 };
    let mut i: usize = 0;
    // A stretch is one step over all its rows, so no range counts them.
    while i < n {
        let kind = table::kind_at(table, n, i);
        let owner = table::owner_at(table, n, i);
        if is_more(w, kind, owner) {
            w = Gathered {
                owner,
                count: w.count + (table::count_at(table, n, i) as usize),
            };
            i += 1;
            continue;
        }
        let r = table::row_at(table, n, i);
        let from = put::least(at, out.len());
        let kept = stretches::stretch_from(s, table, n, i, r.offset, anew);
        if i < kept.next {
            let b = put_stretch(&mut out[from..], s, w.count, r.offset, kept.end);
            at = put::add_up(at, b);
            w = Gathered { owner: 0, count: 0 };
            i = kept.next;
            continue;
        }
        let b = put_row(&mut out[from..], s, table, n, i, w, r, anew);
        at = put::add_up(at, b);
        w = run_after(w, r);
        i += 1;
    }
    let from = put::least(at, out.len());
    let b = heads::put_run(&mut out[from..], w.count);
    put::add_up(at, b)
}

// The copy, or nothing where it does not fit; its length either way.
pub fn copied(
    out: &mut [u8],
    s: &[u8],
    table: &[u32],
    n: usize,
    anew: u32,
) -> Result<usize, Untidied>
    requires { (n ≤ room_of table.now) × (n ≤ 16777216) × (length (copy_of anew s.now (rows_of n table.now)) ≤ 18446744073709551615) }
    ensures { (result ≡ answer_by (copy_of anew s.now (rows_of n table.now)) out.old) × (out.new ≡ out_by (copy_of anew s.now (rows_of n table.now)) out.old) }
{
    let total = copy_all(&mut out[0..0], s, table, n, anew);
    if out.len() < total {
        return Err(Untidied::OutFull(total));
    }
    if Reader::LIMIT < total {
        return Err(Untidied::OutFull(total));
    }
    copy_all(out, s, table, n, anew);
    Ok(total)
}
