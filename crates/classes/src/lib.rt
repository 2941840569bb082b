// Class records: the fields of kinds 4 and 5, each judged where it stands. Numbers like 2.3.1.1 are sections of MS-NRBF.
#![tactic(auto)]

ghost use Rattle.std.specs.Prelude.{◌+◌, ◌-◌, ◌≤◌, ◌<◌, ◌≡◌, length};
ghost use Rattle.format.specs.Rows.{room_of, rows_of};
ghost use Rattle.format.specs.Records.{good_class_id, class_at};
ghost use Rattle.class_info.specs.Stages.{named_class_at};

use format::{Head, ObjectNo, Refusal, Setting};

// ---- ids

// Whether a class may have this ObjectId: not 0, and used once.
pub fn is_free_class_id(table: &[u32], n: usize, id: ObjectNo) -> bool
    requires { n ≤ room_of table.now }
    ensures { result ≡ good_class_id (rows_of n table.now) id.0 }
{
    if id.0 == 0 {
        return false;
    }
    let row = lookups::find_object(table, n, id);
    row == 0
}

// ---- kinds 4 and 5

// A class whose ObjectId is read: name, member count, members (ClassInfo, 2.3.1.1, and MemberTypeInfo, 2.3.1.2).
fn named_class_at(
    s: &[u8],
    table: &[u32],
    n: usize,
    own: bool,
    id: u32,
    at: usize,
    setting: Setting,
) -> Result<Head, Refusal>
    requires { (n ≤ room_of table.now) × (length s.now ≤ 16777216) }
    ensures { result ≡ named_class_at setting s.now (rows_of n table.now) own id at }
{
    let q = types::name_at(s, at, setting)?;
    let (count, r) = num::u32_at(s, q).ok_or(Refusal::CutShort)?;
    if num::is_negative(count) {
        return Err(Refusal::BadCount);
    }
    class_info::members_at(s, table, n, own, id, count, r, setting)
}

// SystemClassWithMembersAndTypes (kind 4, 2.3.2.3), or with its own LibraryId ClassWithMembersAndTypes (kind 5, 2.3.2.1).
pub fn class_at(
    s: &[u8],
    table: &[u32],
    n: usize,
    own: bool,
    at: usize,
    setting: Setting,
) -> Result<Head, Refusal>
    requires { (n ≤ room_of table.now) × (length s.now ≤ 16777216) × (at < length s.now) }
    ensures { result ≡ class_at setting s.now (rows_of n table.now) own at }
{
    let (id, p) = num::u32_at(s, at + 1).ok_or(Refusal::CutShort)?;
    if is_free_class_id(table, n, ObjectNo(id)) {
        return named_class_at(s, table, n, own, id, p, setting);
    }
    Err(Refusal::BadId)
}
