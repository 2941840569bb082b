// One turn of the reader: what the next slot waits for, then a member value or a record.
#![tactic(auto)]

ghost use Rattle.std.specs.Prelude.{◌≡◌, false, List, ℕ, ◌≤◌, ◌<◌, length};
ghost use Rattle.format.specs.Rows.{room_of, rows_of};
ghost use Rattle.format.specs.Records.{heading_at};
ghost use Rattle.format.specs.declared.Where.TheVariants as W;
ghost use Rattle.format.specs.Machine.{act, record_step, where_in, step};
ghost use Rattle.kinds.specs.Kinds.{is_brief};
ghost use Rattle.frames.specs.Frames.{saved};
ghost use Rattle.adding.specs.Held.{state_of, after, Held};
ghost use Rattle.turns.specs.Due.{due_of};
ghost use Rattle.format.specs.Terms.{terms};

use adding::Progress;
use format::{PrimitiveCode, Reader, Refused, Setting, SlotType, Where};

// What a slot waits for: a member value, or a kind byte where one stands.
#[derive(Clone, Copy)]
pub enum Due {
    Value(PrimitiveCode),
    Record(Where),
}

fn due_in(slot: SlotType) -> Due
    ensures { result ≡ due_of slot }
{
    match slot {
        SlotType::Primitive(c) => Due::Value(c),
        SlotType::Text => Due::Record(Where::StringSlot),
        SlotType::Object => Due::Record(Where::ObjectSlot),
        SlotType::SystemClass => Due::Record(Where::ObjectSlot),
        SlotType::Class => Due::Record(Where::ObjectSlot),
        SlotType::ObjectArray => Due::Record(Where::ArraySlot),
        SlotType::StringArray => Due::Record(Where::ArraySlot),
        SlotType::PrimitiveArray(_) => Due::Record(Where::ArraySlot),
    }
}

// The top level has no object around it.
fn where_in(depth: usize, w: Where) -> Where
    ensures { (f : List ℕ) → result ≡ where_in (saved f depth) w }
{
    if depth == 0 {
        return Where::Top;
    }
    w
}

// The record of a kind that is taken and not brief, whatever it does.
fn long_step(
    s: &[u8],
    book: &[u8],
    table: &mut [u32],
    frames: &mut [u32; Reader::WORDS],
    m: Reader,
    kind: u8,
    setting: Setting,
) -> Result<Progress, Refused>
    requires { Held (room_of table.old) m × (m.at < length s.now) × (length frames.old ≡ 384) × (length s.now ≤ 16777216) × (length book.now < 4294967296) × (is_brief kind ≡ false) }
    ensures { (after table.new frames.new result
        ≡ act book.now s.now (room_of table.old) (state_of table.old frames.old m) kind
        (heading_at (terms setting book.now) s.now (rows_of m.rows table.old) kind m.at))
        × (length frames.new ≡ 384) }
{
    let h = headings::heading_at(s, book, table, m.rows, kind, m.at, setting);
    steps::take(s, book, table, frames, m, kind as u32, h)
}

// The header, which stands first.
pub fn header_step(
    s: &[u8],
    book: &[u8],
    table: &mut [u32],
    frames: &mut [u32; Reader::WORDS],
    m: Reader,
    setting: Setting,
) -> Result<Progress, Refused>
    requires { Held (room_of table.old) m × (length frames.old ≡ 384) × (length s.now ≤ 16777216) × (length book.now < 4294967296) }
    ensures { (after table.new frames.new result
        ≡ record_step (terms setting book.now) s.now (room_of table.old) (state_of table.old frames.old m) W.Start)
        × (length frames.new ≡ 384) }
{
    let at = m.at;
    let k = kinds::kind_at(s, Where::Start, at);
    match k {
        Ok(kind) => long_step(s, book, table, frames, m, kind, setting),
        Err(f) => Err(Refused {
            refusal: f,
            place: at,
        }),
    }
}

// A kind byte and its record. A brief record is asked for first: most are. What is lent to the long way are copies of its own, so that the brief
// way stays in registers.
fn record_step(
    s: &[u8],
    book: &[u8],
    table: &mut [u32],
    frames: &mut [u32; Reader::WORDS],
    m: Reader,
    w: Where,
    setting: Setting,
) -> Result<Progress, Refused>
    requires { Held (room_of table.old) m × (length frames.old ≡ 384) × (length s.now ≤ 16777216) × (length book.now < 4294967296) }
    ensures { (after table.new frames.new result
        ≡ record_step (terms setting book.now) s.now (room_of table.old) (state_of table.old frames.old m) w)
        × (length frames.new ≡ 384) }
{
    let at = m.at;
    if kinds::is_brief_at(s, w, at) {
        let kind = s[at];
        let h = headings::brief_at(s, book, table, m.rows, kind, at, setting);
        return steps::take_brief(s, book, table, frames, m, kind as u32, h);
    }
    let k = kinds::kind_at(s, w, at);
    match k {
        Ok(kind) => {
            let n = m;
            let q = long_step(s, book, table, frames, n, kind, setting);
            q
        }
        Err(f) => Err(Refused {
            refusal: f,
            place: at,
        }),
    }
}

// A member value at once, or a record.
pub fn one_step(
    s: &[u8],
    book: &[u8],
    table: &mut [u32],
    frames: &mut [u32; Reader::WORDS],
    m: Reader,
    setting: Setting,
) -> Result<Progress, Refused>
    requires { Held (room_of table.old) m × (length frames.old ≡ 384) × (length s.now ≤ 16777216) × (length book.now < 4294967296) }
    ensures { (after table.new frames.new result
        ≡ step (terms setting book.now) s.now (room_of table.old) (state_of table.old frames.old m))
        × (length frames.new ≡ 384) }
{
    let typed = m.top.typed;
    let slot = typed.slot;
    let d = due_in(slot);
    match d {
        Due::Value(c) => steps::take_value(s, book, table, frames, m, c, setting),
        Due::Record(w) => {
            let v = where_in(m.depth, w);
            record_step(s, book, table, frames, m, v, setting)
        }
    }
}
