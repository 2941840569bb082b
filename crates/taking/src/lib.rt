// A record by what it does: it opens an object, fills its slot, passes a run of nulls, is a library or the end.
#![tactic(auto)]

ghost use Rattle.std.specs.Prelude.{◌≡◌, List, ℕ, ◌+◌, ◌-◌, ◌≤◌, ◌<◌, length};
ghost use Rattle.format.specs.Rows.{room_of};
ghost use Rattle.format.specs.Machine.{object, null_run, ending};
ghost use Rattle.adding.specs.Held.{state_of, after, Held};
ghost use Rattle.adding.specs.Laws.{slots_taken, library_taken};

use adding::Progress;
use format::{Head, Reader, Refusal, Refused, Typed};

// An object: opened where it has slots to fill, else it fills its own slot.
pub fn take_object(
    table: &mut [u32],
    frames: &mut [u32; Reader::WORDS],
    m: Reader,
    kind: u32,
    h: Head,
    t: Typed,
) -> Result<Progress, Refused>
    requires { Held (room_of table.old) m × (h.end ≤ 16777216) × (length frames.old ≡ 384) }
    ensures { (after table.new frames.new result
        ≡ object (room_of table.old) (state_of table.old frames.old m) kind h t)
        × (length frames.new ≡ 384) }
{
    let r = adding::row_in(m, kind, h);
    let slots = h.slots;
    if slots == 0 {
        let next = frames::fill(frames, m, 1, t);
        return adding::add_row(table, m, r, next);
    }
    if m.depth < Reader::OPEN {
        let row = (m.rows + 1) as u32;
        let next = frames::open_object(frames, m, row, h, t);
        return adding::add_row(table, m, r, next);
    }
    Err(Refused {
        refusal: Refusal::TooDeep,
        place: m.at,
    })
}

// A record that fills k slots of the object it stands in. It is inlined always, since its answer goes by value: called, it made reading a fifth slower.
#[inline(always)]
pub fn take_slots(
    table: &mut [u32],
    frames: &[u32; Reader::WORDS],
    m: Reader,
    kind: u32,
    h: Head,
    k: u32,
    t: Typed,
) -> Result<Progress, Refused>
    requires { Held (room_of table.old) m × (h.end ≤ 16777216) × (length frames.now ≡ 384) }
    ensures { after table.new frames.now result
        ≡ slots_taken (room_of table.old) (state_of table.old frames.now m) kind h k t }
{
    let r = adding::row_in(m, kind, h);
    let next = frames::fill_soon(frames, m, k, t);
    adding::add_row(table, m, r, next)
}

// A null run: within the object's slots, and over no primitive member.
pub fn take_run(
    s: &[u8],
    book: &[u8],
    table: &mut [u32],
    frames: &[u32; Reader::WORDS],
    m: Reader,
    kind: u32,
    h: Head,
) -> Result<Progress, Refused>
    requires { Held (room_of table.old) m × (h.end ≤ 16777216) × (length frames.now ≡ 384) × (length s.now ≤ 16777216) × (length book.now < 4294967296) }
    ensures { after table.new frames.now result
        ≡ null_run book.now s.now (room_of table.old) (state_of table.old frames.now m) kind h }
{
    let n = h.count;
    if m.top.left < n {
        return Err(Refused {
            refusal: Refusal::BadCount,
            place: m.at,
        });
    }
    let typed = m.top.typed;
    let p = slots::pass(s, book, typed, n);
    match p {
        Some(t) => take_slots(table, frames, m, kind, h, n, t),
        None => Err(Refused {
            refusal: Refusal::BadCount,
            place: m.at,
        }),
    }
}

// A library stands in no slot: the open objects stay as they are.
pub fn take_library(table: &mut [u32], m: Reader, kind: u32, h: Head) -> Result<Progress, Refused>
    requires { Held (room_of table.old) m × (h.end ≤ 16777216) }
    ensures { (f : List ℕ) → after table.new f result
        ≡ library_taken (room_of table.old) (state_of table.old f m) kind h }
{
    let r = adding::row_apart(m, kind, h);
    adding::add_row(table, m, r, m)
}

// The end record.
pub fn take_end(table: &mut [u32], m: Reader, h: Head) -> Result<Progress, Refused>
    requires { Held (room_of table.old) m × (h.end ≤ 16777216) }
    ensures { (f : List ℕ) → after table.new f result
        ≡ ending (room_of table.old) (state_of table.old f m) h }
{
    let rows = m.rows;
    if rows < table::room(table) {
        let r = adding::row_in(m, 11, h);
        table::put_row(table, rows, r);
        return Ok(Progress::Ended(rows + 1, h.end));
    }
    Err(Refused {
        refusal: Refusal::NoRoom,
        place: m.at,
    })
}
