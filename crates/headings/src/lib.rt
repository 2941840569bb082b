// The fields of a record, whatever its kind: the one function that asks the kind byte.
#![tactic(auto)]

ghost use Rattle.std.specs.Prelude.{◌≤◌, ◌<◌, ◌≡◌, true, false, length};
ghost use Rattle.format.specs.Rows.{room_of, rows_of};
ghost use Rattle.format.specs.Records.{heading_at};
ghost use Rattle.kinds.specs.Kinds.{is_brief, Hollow};
ghost use Rattle.format.specs.Terms.{terms};

use format::{Head, Refusal, Setting, SlotType};

// ---- all kinds

// The fields of a record of a kind that is taken and not brief; each function has the name and section of its record in MS-NRBF. 11, MessageEnd
// (2.6.3), has none.
pub fn heading_at(
    s: &[u8],
    book: &[u8],
    table: &[u32],
    n: usize,
    k: u8,
    at: usize,
    setting: Setting,
) -> Result<Head, Refusal>
    requires { (n ≤ room_of table.now) × (length s.now ≤ 16777216) × (n ≤ 16777216) × (at < length s.now) × (is_brief k ≡ false) }
    ensures { result ≡ heading_at (terms setting book.now) s.now (rows_of n table.now) k at }
{
    match k {
        0 => records::header_at(s, at),
        1 => class_by_id::class_by_id_at(s, book, table, n, at),
        4 => {
            let h = classes::class_at(s, table, n, false, at, setting);
            h
        }
        5 => {
            let h = classes::class_at(s, table, n, true, at, setting);
            h
        }
        7 => binary_arrays::binary_array_at(s, table, n, at, setting),
        11 => arrays::plain_head(0, at + 1, 0),
        12 => records::library_at(s, table, n, at, setting),
        13 => records::nulls_at(s, at),
        14 => records::long_nulls_at(s, at),
        15 => arrays::primitive_array_at(s, table, n, at, setting),
        16 => arrays::slot_array_at(s, table, n, SlotType::Object, at),
        _ => arrays::slot_array_at(s, table, n, SlotType::Text, at),
    }
}

// ---- brief kinds

// The fields of a record of a brief kind. It has no slots of its own.
pub fn brief_at(
    s: &[u8],
    book: &[u8],
    table: &[u32],
    n: usize,
    k: u8,
    at: usize,
    setting: Setting,
) -> Result<Head, Refusal>
    requires { (is_brief k ≡ true) × (n ≤ room_of table.now) × (at < length s.now) }
    ensures { (result ≡ heading_at (terms setting book.now) s.now (rows_of n table.now) k at) × Hollow result }
{
    match k {
        6 => records::string_record_at(s, table, n, at, setting),
        8 => records::typed_primitive_at(s, at, setting),
        9 => records::reference_at(s, at),
        _ => arrays::plain_head(0, at + 1, 1),
    }
}
