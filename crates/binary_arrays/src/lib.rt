// Arrays of every shape without lower bounds: kind 7, BinaryArray in MS-NRBF (2.4.3.1). The array type, the rank, the lengths and their product,
// the type of the items.
#![tactic(auto)]

ghost use Rattle.std.specs.Prelude.{◌≤◌, ◌<◌, ◌≡◌, length};
ghost use Rattle.format.specs.Rows.{room_of, rows_of};
ghost use Rattle.format.specs.Records.{items_of, item_type_at, rank_at, array_type_at, binary_array_at};
ghost use Rattle.arrays.specs.Stages.{item_info_at, shape_at};

use format::{Head, ObjectNo, Refusal, Setting, SlotType};

// Primitive items follow at once, the others fill slots.
fn items_of(
    s: &[u8],
    id: u32,
    count: u32,
    infos: u32,
    at: usize,
    slot: SlotType,
    setting: Setting,
) -> Result<Head, Refusal>
    ensures { result ≡ items_of setting s.now id count infos at slot }
{
    match slot {
        SlotType::Primitive(code) => arrays::with_items(s, code, id, count, at, setting),
        SlotType::Text => arrays::slotted_head(id, at, count, SlotType::Text, infos),
        SlotType::Object => arrays::slotted_head(id, at, count, SlotType::Object, infos),
        SlotType::SystemClass => arrays::slotted_head(id, at, count, SlotType::SystemClass, infos),
        SlotType::Class => arrays::slotted_head(id, at, count, SlotType::Class, infos),
        SlotType::ObjectArray => arrays::slotted_head(id, at, count, SlotType::ObjectArray, infos),
        SlotType::StringArray => arrays::slotted_head(id, at, count, SlotType::StringArray, infos),
        SlotType::PrimitiveArray(code) => arrays::slotted_head(
            id,
            at,
            count,
            SlotType::PrimitiveArray(code),
            infos,
        ),
    }
}

// ---- kind 7: the item type, and the whole

// The detail of the items' type, and the items or their slots. The type byte stands at `types`.
fn item_info_at(
    s: &[u8],
    table: &[u32],
    n: usize,
    id: u32,
    count: u32,
    types: usize,
    infos: usize,
    setting: Setting,
) -> Result<Head, Refusal>
    requires { (n ≤ room_of table.now) × (length s.now ≤ 16777216) × (infos ≤ length s.now) }
    ensures { result ≡ item_info_at setting s.now (rows_of n table.now) id count types infos }
{
    let kind = codes::byte_at(s, types);
    let end = class_info::info_known(s, table, n, kind, infos, setting)?;
    let slot = slots::slot_of(kind, codes::byte_at(s, infos));
    items_of(s, id, count, infos as u32, end, slot, setting)
}

fn item_type_at(
    s: &[u8],
    table: &[u32],
    n: usize,
    id: u32,
    count: u32,
    types: usize,
    setting: Setting,
) -> Result<Head, Refusal>
    requires { (n ≤ room_of table.now) × (length s.now ≤ 16777216) }
    ensures { result ≡ item_type_at setting s.now (rows_of n table.now) id count types }
{
    let infos = codes::type_byte_at(s, types)?;
    item_info_at(s, table, n, id, count, types, infos, setting)
}

// The lengths of an array whose rank is good, and its items.
fn shape_at(
    s: &[u8],
    table: &[u32],
    n: usize,
    id: u32,
    rank: u32,
    at: usize,
    setting: Setting,
) -> Result<Head, Refusal>
    requires { (n ≤ room_of table.now) × (length s.now ≤ 16777216) }
    ensures { result ≡ shape_at setting s.now (rows_of n table.now) id rank at }
{
    let (count, types) = shapes::lengths_at(s, rank, at)?;
    item_type_at(s, table, n, id, count, types, setting)
}

fn rank_at(
    s: &[u8],
    table: &[u32],
    n: usize,
    id: u32,
    kind: u8,
    at: usize,
    setting: Setting,
) -> Result<Head, Refusal>
    requires { (n ≤ room_of table.now) × (length s.now ≤ 16777216) }
    ensures { result ≡ rank_at setting s.now (rows_of n table.now) id kind at }
{
    let (rank, p) = num::u32_at(s, at).ok_or(Refusal::CutShort)?;
    if shapes::is_rank(kind, rank) {
        return shape_at(s, table, n, id, rank, p, setting);
    }
    Err(Refusal::BadCount)
}

// Array types 0 to 2 are taken, Single, Jagged and Rectangular (2.4.1.1). 3 to 5 have lower bounds; they are refused by name, and no bound is read.
fn array_type_at(
    s: &[u8],
    table: &[u32],
    n: usize,
    id: u32,
    at: usize,
    setting: Setting,
) -> Result<Head, Refusal>
    requires { (n ≤ room_of table.now) × (length s.now ≤ 16777216) }
    ensures { result ≡ array_type_at setting s.now (rows_of n table.now) id at }
{
    if s.len() <= at {
        return Err(Refusal::CutShort);
    }
    let kind = s[at];
    if kind <= 2 {
        return rank_at(s, table, n, id, kind, at + 1, setting);
    }
    if kind <= 5 {
        return Err(Refusal::NotTaken);
    }
    Err(Refusal::BadType)
}

// 7, BinaryArray (2.4.3.1): ObjectId, array type, rank, lengths, type byte, type info; then primitive items.
pub fn binary_array_at(
    s: &[u8],
    table: &[u32],
    n: usize,
    at: usize,
    setting: Setting,
) -> Result<Head, Refusal>
    requires { (n ≤ room_of table.now) × (length s.now ≤ 16777216) × (at < length s.now) }
    ensures { result ≡ binary_array_at setting s.now (rows_of n table.now) at }
{
    let (id, p) = num::u32_at(s, at + 1).ok_or(Refusal::CutShort)?;
    if arrays::is_free_id(table, n, ObjectNo(id)) {
        return array_type_at(s, table, n, id, p, setting);
    }
    Err(Refusal::BadId)
}
