// What a step does once its record's fields, or its member value, are good: one row more, and the open objects after it.
#![tactic(auto)]

ghost use Rattle.std.specs.Prelude.{◌≡◌, true, ◌-◌, ◌≤◌, ◌<◌, length, Ok};
ghost use Rattle.format.specs.Rows.{room_of};
ghost use Rattle.format.specs.Machine.{act, value_step, value_head};
ghost use Rattle.kinds.specs.Kinds.{is_brief, Hollow};
ghost use Rattle.adding.specs.Held.{state_of, after, Held, Short};
ghost use Rattle.format.specs.Terms.{terms};

use adding::Progress;
use format::{Head, PrimitiveCode, Reader, Refusal, Refused, Setting, SlotType, Typed};

// A record whose fields are good.
fn take_fields(
    s: &[u8],
    book: &[u8],
    table: &mut [u32],
    frames: &mut [u32; Reader::WORDS],
    m: Reader,
    kind: u32,
    h: Head,
) -> Result<Progress, Refused>
    requires { Held (room_of table.old) m × (h.end ≤ 16777216) × (length frames.old ≡ 384) × (length s.now ≤ 16777216) × (length book.now < 4294967296) }
    ensures { (after table.new frames.new result
        ≡ act book.now s.now (room_of table.old) (state_of table.old frames.old m) kind (Ok h))
        × (length frames.new ≡ 384) }
{
    if kind == 13 {
        return taking::take_run(s, book, table, frames, m, kind, h);
    }
    if kind == 14 {
        return taking::take_run(s, book, table, frames, m, kind, h);
    }
    if kind == 12 {
        return taking::take_library(table, m, kind, h);
    }
    if kind == 11 {
        return taking::take_end(table, m, h);
    }
    let typed = m.top.typed;
    let t = slots::move_on(s, book, typed);
    if lookups::is_object(kind) {
        return taking::take_object(table, frames, m, kind, h, t);
    }
    taking::take_slots(table, frames, m, kind, h, 1, t)
}

// A record by what its fields say.
pub fn take(
    s: &[u8],
    book: &[u8],
    table: &mut [u32],
    frames: &mut [u32; Reader::WORDS],
    m: Reader,
    kind: u32,
    heading: Result<Head, Refusal>,
) -> Result<Progress, Refused>
    requires { Held (room_of table.old) m × Short heading × (length frames.old ≡ 384) × (length s.now ≤ 16777216) × (length book.now < 4294967296) }
    ensures { (after table.new frames.new result
        ≡ act book.now s.now (room_of table.old) (state_of table.old frames.old m) kind heading)
        × (length frames.new ≡ 384) }
{
    match heading {
        Ok(h) => take_fields(s, book, table, frames, m, kind, h),
        Err(f) => Err(Refused {
            refusal: f,
            place: m.at,
        }),
    }
}

// The head of a member value that ends here; its link is the number of its code.
fn value_head(code: PrimitiveCode, end: usize) -> Head
    ensures { result ≡ value_head code end }
{
    let link = slot_words::code_number(code);
    Head {
        id: 0,
        end,
        count: 0,
        slots: 0,
        first: Typed {
            slot: SlotType::Object,
            types: 0,
            infos: 0,
        },
        link,
    }
}

// A primitive member takes its value at once.
pub fn take_value(
    s: &[u8],
    book: &[u8],
    table: &mut [u32],
    frames: &[u32; Reader::WORDS],
    m: Reader,
    code: PrimitiveCode,
    setting: Setting,
) -> Result<Progress, Refused>
    requires { Held (room_of table.old) m × (length frames.now ≡ 384) × (length s.now ≤ 16777216) × (length book.now < 4294967296) }
    ensures { after table.new frames.now result
        ≡ value_step (terms setting book.now) s.now (room_of table.old) (state_of table.old frames.now m) code }
{
    let v = values::value_at(s, code, m.at, setting);
    match v {
        Ok(end) => {
            let h = value_head(code, end);
            let typed = m.top.typed;
            let t = slots::move_on(s, book, typed);
            taking::take_slots(table, frames, m, 32, h, 1, t)
        }
        Err(f) => Err(Refused {
            refusal: f,
            place: m.at,
        }),
    }
}

// A record of a brief kind by what its fields say.
pub fn take_brief(
    s: &[u8],
    book: &[u8],
    table: &mut [u32],
    frames: &[u32; Reader::WORDS],
    m: Reader,
    kind: u32,
    heading: Result<Head, Refusal>,
) -> Result<Progress, Refused>
    requires { Held (room_of table.old) m × Short heading × Hollow heading × (is_brief kind ≡ true) × (length frames.now ≡ 384) × (length s.now ≤ 16777216) × (length book.now < 4294967296) }
    ensures { after table.new frames.now result
        ≡ act book.now s.now (room_of table.old) (state_of table.old frames.now m) kind heading }
{
    let at = m.at;
    match heading {
        Ok(h) => {
            let typed = m.top.typed;
            let t = slots::move_on(s, book, typed);
            taking::take_slots(table, frames, m, kind, h, 1, t)
        }
        Err(f) => Err(Refused {
            refusal: f,
            place: at,
        }),
    }
}
