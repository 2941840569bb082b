// What the fields of a record say: a function for each kind that has neither members nor slots, with its name and section in MS-NRBF. Every
// field is judged where it stands: missing bytes, then its content, before the next one is looked at.
#![tactic(auto)]

ghost use Rattle.std.specs.Prelude.{◌≤◌, ◌<◌, ◌≡◌, length};
ghost use Rattle.format.specs.Rows.{room_of, rows_of};
ghost use Rattle.format.specs.Records.{header_at, string_record_at, typed_primitive_at, reference_at, nulls_at, long_nulls_at, library_at};
ghost use Rattle.records.specs.Stages.{version_at, named_at, free_library};

use format::{Head, LibraryNo, ObjectNo, Refusal, Setting};

// ---- parts of records

// The LibraryId of a library: positive, and used once.
fn is_free_library(table: &[u32], n: usize, id: LibraryNo) -> bool
    requires { n ≤ room_of table.now }
    ensures { result ≡ free_library (rows_of n table.now) id.0 }
{
    if types::is_positive(id.0) {
        return lookups::find_library(table, n, id) == 0;
    }
    false
}

// The text that ends a record of this id.
fn named_at(s: &[u8], id: u32, at: usize, setting: Setting) -> Result<Head, Refusal>
    ensures { result ≡ named_at setting s.now id at }
{
    let end = types::name_at(s, at, setting)?;
    arrays::plain_head(id, end, 0)
}

// The two numbers of the version: a bad major comes before a missing minor.
fn version_at(s: &[u8], root: u32, at: usize) -> Result<Head, Refusal>
    ensures { result ≡ version_at s.now root at }
{
    let (major, p) = num::u32_at(s, at).ok_or(Refusal::CutShort)?;
    if major != 1 {
        return Err(Refusal::BadVersion);
    }
    let (minor, end) = num::u32_at(s, p).ok_or(Refusal::CutShort)?;
    if minor != 0 {
        return Err(Refusal::BadVersion);
    }
    arrays::plain_head(root, end, 0)
}

// ---- the kinds without members or slots

// 0, SerializationHeaderRecord (2.6.1): the RootId has no sign rule, and the HeaderId is not judged.
pub fn header_at(s: &[u8], at: usize) -> Result<Head, Refusal>
    requires { at < length s.now }
    ensures { result ≡ header_at s.now at }
{
    let (root, p) = num::u32_at(s, at + 1).ok_or(Refusal::CutShort)?;
    let (_, q) = num::u32_at(s, p).ok_or(Refusal::CutShort)?;
    version_at(s, root, q)
}

// 6, BinaryObjectString (2.5.7): ObjectId, text.
pub fn string_record_at(
    s: &[u8],
    table: &[u32],
    n: usize,
    at: usize,
    setting: Setting,
) -> Result<Head, Refusal>
    requires { (n ≤ room_of table.now) × (at < length s.now) }
    ensures { result ≡ string_record_at setting s.now (rows_of n table.now) at }
{
    let (id, p) = num::u32_at(s, at + 1).ok_or(Refusal::CutShort)?;
    if arrays::is_free_id(table, n, ObjectNo(id)) {
        return named_at(s, id, p, setting);
    }
    Err(Refusal::BadId)
}

// 8, MemberPrimitiveTyped (2.5.1): a primitive code, then a value of it.
pub fn typed_primitive_at(s: &[u8], at: usize, setting: Setting) -> Result<Head, Refusal>
    requires { at < length s.now }
    ensures { result ≡ typed_primitive_at setting s.now at }
{
    let p = codes::code_at(s, at + 1)?;
    let code = codes::coded_of(codes::primitive_of(codes::byte_at(s, at + 1)));
    let end = values::value_soon(s, code, p, setting)?;
    arrays::plain_head(0, end, 0)
}

// 9, MemberReference (2.5.3): the IdRef, by its sign alone; its target may come later.
pub fn reference_at(s: &[u8], at: usize) -> Result<Head, Refusal>
    requires { at < length s.now }
    ensures { result ≡ reference_at s.now at }
{
    let (target, end) = num::u32_at(s, at + 1).ok_or(Refusal::CutShort)?;
    if types::is_positive(target) {
        return arrays::plain_head(target, end, 0);
    }
    Err(Refusal::BadId)
}

// 13, ObjectNullMultiple256 (2.5.6): a byte count, also 0.
pub fn nulls_at(s: &[u8], at: usize) -> Result<Head, Refusal>
    requires { at < length s.now }
    ensures { result ≡ nulls_at s.now at }
{
    if at + 1 < s.len() {
        return arrays::plain_head(0, at + 2, s[at + 1] as u32);
    }
    Err(Refusal::CutShort)
}

// 14, ObjectNullMultiple (2.5.5): an INT32 count from 1.
pub fn long_nulls_at(s: &[u8], at: usize) -> Result<Head, Refusal>
    requires { at < length s.now }
    ensures { result ≡ long_nulls_at s.now at }
{
    let (count, end) = num::u32_at(s, at + 1).ok_or(Refusal::CutShort)?;
    if types::is_positive(count) {
        return arrays::plain_head(0, end, count);
    }
    Err(Refusal::BadCount)
}

// 12, BinaryLibrary (2.6.2): LibraryId, name. A second library of one number is refused, also where the names are equal.
pub fn library_at(
    s: &[u8],
    table: &[u32],
    n: usize,
    at: usize,
    setting: Setting,
) -> Result<Head, Refusal>
    requires { (n ≤ room_of table.now) × (at < length s.now) }
    ensures { result ≡ library_at setting s.now (rows_of n table.now) at }
{
    let (id, p) = num::u32_at(s, at + 1).ok_or(Refusal::CutShort)?;
    if is_free_library(table, n, LibraryNo(id)) {
        return named_at(s, id, p, setting);
    }
    Err(Refusal::BadId)
}
