// What every step is made of: the row of a record, and one row more.
#![tactic(auto)]

ghost use Rattle.std.specs.Prelude.{◌≡◌, List, ℕ, ◌+◌, ◌-◌, ◌≤◌, ◌<◌};
ghost use Rattle.format.specs.Rows.{room_of};
ghost use Rattle.format.specs.Machine.{row_in, row_apart, add};
ghost use Rattle.frames.specs.Frames.{open_of};
ghost use Rattle.adding.specs.Held.{state_of, after};

use format::{Head, Reader, Refusal, Refused, Row};

// After a step that is not refused: on, or at the end record with the number of rows and the place after it.
#[derive(Clone, Copy)]
pub enum Progress {
    Go(Reader),
    Ended(usize, usize),
}

// ---- rows

// The row of a record or value that stands in the next slot.
pub fn row_in(m: Reader, kind: u32, h: Head) -> Row
    requires { (m.at ≤ 16777216) × (h.end ≤ 16777216) }
    ensures { (t f : List ℕ) → result ≡ row_in (state_of t f m) kind h }
{
    let owner = m.top.owner;
    let count = m.top.count;
    let left = m.top.left;
    let slot = slot_words::less(count, left);
    Row {
        kind,
        offset: m.at as u32,
        end: h.end as u32,
        id: h.id,
        owner,
        slot,
        link: h.link,
        count: h.count,
    }
}

// A library's row has no owner and no slot.
pub fn row_apart(m: Reader, kind: u32, h: Head) -> Row
    requires { (m.at ≤ 16777216) × (h.end ≤ 16777216) }
    ensures { (t f : List ℕ) → result ≡ row_apart (state_of t f m) kind h }
{
    Row {
        kind,
        offset: m.at as u32,
        end: h.end as u32,
        id: h.id,
        owner: 0,
        slot: 0,
        link: h.link,
        count: h.count,
    }
}

// One row more, if the table has room for it; `next` has the open objects after it.
pub fn add_row(table: &mut [u32], m: Reader, r: Row, next: Reader) -> Result<Progress, Refused>
    ensures { (f g : List ℕ) → after table.new g result ≡ add (room_of table.old) (state_of table.old f m) r (open_of g next) }
{
    let rows = m.rows;
    if rows < table::room(table) {
        table::put_row(table, rows, r);
        let top = next.top;
        return Ok(Progress::Go(Reader {
            at: r.end as usize,
            rows: rows + 1,
            depth: next.depth,
            top,
        }));
    }
    Err(Refused {
        refusal: Refusal::NoRoom,
        place: m.at,
    })
}
