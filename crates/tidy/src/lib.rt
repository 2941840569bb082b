// The tidy copy of a parts list. The lent table is the only scratch memory: the rows are marked as they were read, references with their links, and
// at the end the stream is read again, which leaves the reading in the table whatever stood there.
#![tactic(auto)]

ghost use Rattle.std.specs.Prelude.{◌≡◌, ◌≤◌, length};
ghost use Rattle.format.specs.Promises.{TidyPromise};
ghost use Rattle.tidy.specs.Top.{restored};
ghost use Rattle.format.specs.Terms.{terms};
ghost use Rattle.format.specs.Entries.{bad_entry};
ghost use Rattle.format.specs.Rows.{rows_of, room_of};
ghost use Rattle.format.specs.Tidy.{answer_by, out_by};
ghost use Rattle.pieces.specs.Copy.{anew_in, copy_of};

use format::{Setting, Untidied};

// The code whose values are written anew: that of Decimals in lenient. In strict they have the shortest prefixes already; 0 is no code.
fn anew_in(setting: Setting) -> u32
    ensures { result ≡ anew_in setting }
{
    match setting {
        Setting::Strict => 0,
        Setting::Lenient => 5,
    }
}

// The copy of the marked rows, or nothing where it does not fit.
fn copied(
    out: &mut [u8],
    s: &[u8],
    table: &[u32],
    n: usize,
    setting: Setting,
) -> Result<usize, Untidied>
    requires { (n ≤ room_of table.now) × (n ≤ 16777216) × (length (copy_of (anew_in setting) s.now (rows_of n table.now)) ≤ 18446744073709551615) }
    ensures { (result ≡ answer_by (copy_of (anew_in setting) s.now (rows_of n table.now)) out.old) × (out.new ≡ out_by (copy_of (anew_in setting) s.now (rows_of n table.now)) out.old) }
{
    let anew = anew_in(setting);
    copying::copied(out, s, table, n, anew)
}

// The table after the copy: the reading where one was written, all zeros where none was.
fn restore(s: &[u8], book: &[u8], table: &mut [u32], q: Result<usize, Untidied>, setting: Setting)
    requires { (length s.now ≤ 16777216) × (bad_entry book.now ≡ 0) }
    ensures { table.new ≡ restored (terms setting book.now) s.now table.old q }
{
    match q {
        Ok(_) => {
            // The list was accepted before, and is again.
            let _ = reader::read_again(s, book, table, setting);
        }
        Err(_) => table::clear(table),
    }
}

// Writes the tidy copy of the list in `s` to the front of `out`, if all of it fits.
pub fn tidy(
    s: &[u8],
    book: &[u8],
    table: &mut [u32],
    out: &mut [u8],
    setting: Setting,
) -> Result<usize, Untidied>
    ensures { TidyPromise (terms setting book.now) s.now table.old out.old result table.new out.new }
{
    let a = reader::judge(s, book, table, true, setting);
    match a {
        Ok(n) => {
            marking::mark_all(s, table, n);
            let q = copied(out, s, table, n, setting);
            restore(s, book, table, q, setting);
            q
        }
        Err(r) => {
            table::clear(table);
            Err(Untidied::Refused(r))
        }
    }
}
