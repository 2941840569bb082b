// Reading a stream into a lent table of rows: the loop over steps, what is judged after the end record, and the words that are
// left in the table.
#![tactic(auto)]

ghost use Rattle.std.specs.Prelude.{◌≡◌, ◌≤◌, ◌<◌, length};
ghost use Rattle.format.specs.Entries.{bad_entry};
ghost use Rattle.format.specs.Rows.{room_of, rows_of};
ghost use Rattle.format.specs.Machine.{finish, stream_of, raw_of};
ghost use Rattle.format.specs.Promises.{ReadPromise};
ghost use Rattle.reader.specs.Loop.{Runs};
ghost use Rattle.reader.specs.Ends.{outcome_of, end_by, Within, left_by};
ghost use Rattle.format.specs.Terms.{terms};

use adding::Progress;
use format::{ObjectNo, Reader, Refusal, Refused, Setting};

// The header stands first; the root is a number in it.
const HEADER: usize = 0;

// After the end record: trailing bytes, the root, the references; then the links.
fn finish_rows(
    s: &[u8],
    table: &mut [u32],
    rows: usize,
    at: usize,
    keep: bool,
) -> Result<usize, Refused>
    requires { (rows ≤ room_of table.old) × (rows ≤ 16777216) }
    ensures { (outcome_of table.new result ≡ end_by keep (finish s.now (rows_of rows table.old) at))
        × Within (room_of table.old) result }
{
    if at < s.len() {
        return Err(Refused {
            refusal: Refusal::Trailing,
            place: at,
        });
    }
    let head = table::row_at(table, rows, 0);
    let root = lookups::find_object(table, rows, ObjectNo(head.id));
    if root == 0 {
        return Err(Refused {
            refusal: Refusal::NoRoot,
            place: HEADER,
        });
    }
    let lost = links::link_all(table, rows, keep);
    if lost != 0 {
        let r = table::row_at(table, rows, lost - 1);
        return Err(Refused {
            refusal: Refusal::NoObject,
            place: r.offset as usize,
        });
    }
    Ok(rows)
}

// Steps until the end record or a refusal.
fn drive(
    s: &[u8],
    book: &[u8],
    table: &mut [u32],
    frames: &mut [u32; Reader::WORDS],
    first: Reader,
    keep: bool,
    setting: Setting,
) -> Result<usize, Refused>
    requires { Runs (terms setting book.now) s.now (room_of table.old) (stream_of (terms setting book.now) s.now (room_of table.old)) table.old frames.old first × (length s.now ≤ 16777216) × (length book.now < 4294967296) }
    ensures { (outcome_of table.new result ≡ end_by keep (stream_of (terms setting book.now) s.now (room_of table.old)))
        × Within (room_of table.old) result }
{
    let mut m = first;
    // A record says which step is the last, so no range counts them.
    loop {
        match turns::one_step(s, book, table, frames, m, setting)? {
            Progress::Go(n) => m = n,
            Progress::Ended(rows, at) => return finish_rows(s, table, rows, at, keep),
        }
    }
}

// The header, and all after it, of a stream within the limit. The rows that are taken stand in the table; nothing is said of the words after them.
// With keep only references and the header get links: a class's row keeps the place of its type bytes, a member value's its code.
fn judge_stream(
    s: &[u8],
    book: &[u8],
    table: &mut [u32],
    keep: bool,
    setting: Setting,
) -> Result<usize, Refused>
    requires { (length s.now ≤ 16777216) × (length book.now < 4294967296) }
    ensures { (outcome_of table.new result ≡ end_by keep (stream_of (terms setting book.now) s.now (room_of table.old)))
        × Within (room_of table.old) result }
{
    let mut frames = Reader::frames();
    let fresh = Reader::fresh();
    match turns::header_step(s, book, table, &mut frames, fresh, setting)? {
        Progress::Go(m) => drive(s, book, table, &mut frames, m, keep, setting),
        Progress::Ended(rows, at) => finish_rows(s, table, rows, at, keep),
    }
}

// The limit, the book, the stream; the table and `keep` as above.
pub fn judge(
    s: &[u8],
    book: &[u8],
    table: &mut [u32],
    keep: bool,
    setting: Setting,
) -> Result<usize, Refused>
    ensures { (outcome_of table.new result ≡ end_by keep (raw_of (terms setting book.now) s.now (room_of table.old)))
        × Within (room_of table.old) result }
{
    if Reader::LIMIT < s.len() {
        return Err(Refused {
            refusal: Refusal::TooLarge,
            place: 0,
        });
    }
    let bad = book::bad_entry(book);
    if bad != 0 {
        return Err(Refused {
            refusal: Refusal::BadBook,
            place: bad - 1,
        });
    }
    judge_stream(s, book, table, keep, setting)
}

// The table of a reading: zeros after the last row, all zeros after a refusal.
fn leave(table: &mut [u32], a: Result<usize, Refused>)
    requires { Within (room_of table.old) a }
    ensures { table.new ≡ left_by table.old a }
{
    match a {
        Ok(n) => table::clear_after(table, n),
        Err(_) => table::clear(table),
    }
}

// Reads a stream into a table of rows. Any stream, any book and any table are taken. After a refusal every word is zero, after success the words
// after the last row.
pub fn read(s: &[u8], book: &[u8], table: &mut [u32], setting: Setting) -> Result<usize, Refused>
    ensures { ReadPromise (terms setting book.now) s.now table.old result table.new }
{
    let a = judge(s, book, table, false, setting);
    leave(table, a);
    a
}

// Reads a stream that was read before, with a book that was found good then: the book is not judged again.
pub fn read_again(
    s: &[u8],
    book: &[u8],
    table: &mut [u32],
    setting: Setting,
) -> Result<usize, Refused>
    requires { (length s.now ≤ 16777216) × (bad_entry book.now ≡ 0) }
    ensures { ReadPromise (terms setting book.now) s.now table.old result table.new }
{
    let a = judge_stream(s, book, table, false, setting);
    leave(table, a);
    a
}
