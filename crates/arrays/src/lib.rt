// The fields of the array records with one length: kinds 15, 16 and 17. Every field is judged where it stands. Numbers like 2.4.3.3 are sections
// of MS-NRBF.
#![tactic(auto)]

ghost use Rattle.std.specs.Prelude.{◌≤◌, ◌<◌, ◌≡◌, length};
ghost use Rattle.format.specs.Types.{alike};
ghost use Rattle.format.specs.Rows.{room_of, rows_of};
ghost use Rattle.format.specs.Records.{good_id, plain, slotted, slot_array_at, with_items, primitive_array_at};
ghost use Rattle.arrays.specs.Stages.{slot_length_at, primitive_length_at, coded_items_at};

use format::{Head, ObjectNo, PrimitiveCode, Refusal, Setting, SlotType, Typed};

// ---- ids and what is made of them

// Whether an array or a string may have this id: it is positive, and no object has it yet.
pub fn is_free_id(table: &[u32], n: usize, id: ObjectNo) -> bool
    requires { n ≤ room_of table.now }
    ensures { result ≡ good_id (rows_of n table.now) id.0 }
{
    if types::is_positive(id.0) {
        return lookups::find_object(table, n, id) == 0;
    }
    false
}

// A record of these fields alone.
pub fn plain_head(id: u32, end: usize, count: u32) -> Result<Head, Refusal>
    ensures { result ≡ plain id end count }
{
    Ok(Head {
        id,
        end,
        count,
        slots: 0,
        first: Typed {
            slot: SlotType::Object,
            types: 0,
            infos: 0,
        },
        link: 0,
    })
}

// An array whose slots are alike, and are filled by records.
pub fn slotted_head(
    id: u32,
    end: usize,
    count: u32,
    slot: SlotType,
    infos: u32,
) -> Result<Head, Refusal>
    ensures { result ≡ slotted id end count (alike slot infos) }
{
    Ok(Head {
        id,
        end,
        count,
        slots: count,
        first: Typed {
            slot,
            types: 0,
            infos,
        },
        link: 0,
    })
}

// ---- kinds 16 and 17

// The length, which counts the slots.
fn slot_length_at(s: &[u8], slot: SlotType, id: u32, at: usize) -> Result<Head, Refusal>
    ensures { result ≡ slot_length_at s.now slot id at }
{
    let (count, end) = num::u32_at(s, at).ok_or(Refusal::CutShort)?;
    if num::is_negative(count) {
        return Err(Refusal::BadCount);
    }
    slotted_head(id, end, count, slot, 0)
}

// 16, ArraySingleObject (2.4.3.2), or 17, ArraySingleString (2.4.3.4), by the type of the slots: ObjectId, length.
pub fn slot_array_at(
    s: &[u8],
    table: &[u32],
    n: usize,
    slot: SlotType,
    at: usize,
) -> Result<Head, Refusal>
    requires { (n ≤ room_of table.now) × (at < length s.now) }
    ensures { result ≡ slot_array_at s.now (rows_of n table.now) slot at }
{
    let (id, p) = num::u32_at(s, at + 1).ok_or(Refusal::CutShort)?;
    if is_free_id(table, n, ObjectNo(id)) {
        return slot_length_at(s, slot, id, p);
    }
    Err(Refusal::BadId)
}

// ---- kind 15

// The items (MemberPrimitiveUnTyped, 2.5.2) lie in the record itself, so it has no slots.
pub fn with_items(
    s: &[u8],
    code: PrimitiveCode,
    id: u32,
    count: u32,
    at: usize,
    setting: Setting,
) -> Result<Head, Refusal>
    ensures { result ≡ with_items setting s.now code id count at }
{
    let end = items::items_at(s, code, count, at, setting)?;
    plain_head(id, end, count)
}

fn coded_items_at(
    s: &[u8],
    id: u32,
    count: u32,
    at: usize,
    setting: Setting,
) -> Result<Head, Refusal>
    ensures { result ≡ coded_items_at setting s.now id count at }
{
    let p = codes::code_at(s, at)?;
    let code = codes::coded_of(codes::primitive_of(codes::byte_at(s, at)));
    with_items(s, code, id, count, p, setting)
}

fn primitive_length_at(s: &[u8], id: u32, at: usize, setting: Setting) -> Result<Head, Refusal>
    ensures { result ≡ primitive_length_at setting s.now id at }
{
    let (count, p) = num::u32_at(s, at).ok_or(Refusal::CutShort)?;
    if num::is_negative(count) {
        return Err(Refusal::BadCount);
    }
    coded_items_at(s, id, count, p, setting)
}

// 15, ArraySinglePrimitive (2.4.3.3): ObjectId, length, primitive code, items.
pub fn primitive_array_at(
    s: &[u8],
    table: &[u32],
    n: usize,
    at: usize,
    setting: Setting,
) -> Result<Head, Refusal>
    requires { (n ≤ room_of table.now) × (at < length s.now) }
    ensures { result ≡ primitive_array_at setting s.now (rows_of n table.now) at }
{
    let (id, p) = num::u32_at(s, at + 1).ok_or(Refusal::CutShort)?;
    if is_free_id(table, n, ObjectNo(id)) {
        return primitive_length_at(s, id, p, setting);
    }
    Err(Refusal::BadId)
}
