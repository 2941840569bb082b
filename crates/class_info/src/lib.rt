// What a class says of its members: their names, their types, the details of the types, and the library of the class.
#![tactic(auto)]

ghost use Rattle.std.specs.Prelude.{◌+◌, ◌-◌, ◌≤◌, ◌≡◌, length};
ghost use Rattle.format.specs.Rows.{room_of, rows_of};
ghost use Rattle.format.specs.Records.{known_library, own_library_at, info_known, infos_at, members_at};
ghost use Rattle.class_info.specs.Stages.{details_at, typed_members_at};

use format::{Head, LibraryNo, Refusal, Setting};

// The LibraryId in the four bytes before a place: its library is known.
fn known_library(s: &[u8], table: &[u32], n: usize, end: usize) -> Result<usize, Refusal>
    requires { (n ≤ room_of table.now) × (4 ≤ end) × (end ≤ length s.now) }
    ensures { result ≡ known_library s.now (rows_of n table.now) end }
{
    // The four bytes are there: the number is never short.
    let (id, _) = num::u32_at(s, end - 4).ok_or(Refusal::CutShort)?;
    let row = lookups::find_library(table, n, LibraryNo(id));
    if row == 0 {
        return Err(Refusal::NoLibrary);
    }
    Ok(end)
}

// A class's own LibraryId: by its sign, then known.
pub fn own_library_at(s: &[u8], table: &[u32], n: usize, at: usize) -> Result<usize, Refusal>
    requires { n ≤ room_of table.now }
    ensures { result ≡ own_library_at s.now (rows_of n table.now) at }
{
    let end = types::library_id_at(s, at)?;
    known_library(s, table, n, end)
}

// ---- details

// The detail of a type, and for type 4 its library known.
pub fn info_known(
    s: &[u8],
    table: &[u32],
    n: usize,
    kind: u8,
    at: usize,
    setting: Setting,
) -> Result<usize, Refusal>
    requires { n ≤ room_of table.now }
    ensures { result ≡ info_known setting s.now (rows_of n table.now) kind at }
{
    let end = types::info_at(s, kind, at, setting)?;
    if kind == 4 {
        return known_library(s, table, n, end);
    }
    Ok(end)
}

// The details of as many members as count, their type bytes from a place on: the first that is bad or missing decides.
fn infos_at(
    s: &[u8],
    table: &[u32],
    n: usize,
    count: u32,
    types: usize,
    at: usize,
    setting: Setting,
) -> Result<usize, Refusal>
    requires { (n ≤ room_of table.now) × (types + count ≤ length s.now) }
    ensures { result ≡ infos_at setting s.now (rows_of n table.now) count types at }
{
    let mut p = at;
    for t in types..types + count as usize {
        p = info_known(s, table, n, s[t], p, setting)?;
    }
    Ok(p)
}

// ---- members

// The details, and for a class of kind 5 its own LibraryId after them.
fn details_at(
    s: &[u8],
    table: &[u32],
    n: usize,
    own: bool,
    count: u32,
    types: usize,
    infos: usize,
    setting: Setting,
) -> Result<usize, Refusal>
    requires { (n ≤ room_of table.now) × (types + count ≤ length s.now) }
    ensures { result ≡ details_at setting s.now (rows_of n table.now) own count types infos }
{
    let p = infos_at(s, table, n, count, types, infos, setting)?;
    if own {
        return own_library_at(s, table, n, p);
    }
    Ok(p)
}

// Members whose names are read: all type bytes, then the details.
fn typed_members_at(
    s: &[u8],
    table: &[u32],
    n: usize,
    own: bool,
    id: u32,
    count: u32,
    types: usize,
    setting: Setting,
) -> Result<Head, Refusal>
    requires { (n ≤ room_of table.now) × (length s.now ≤ 16777216) × (types ≤ length s.now) }
    ensures { result ≡ typed_members_at setting s.now (rows_of n table.now) own id count types }
{
    let infos = types::type_bytes_at(s, count, types)?;
    let end = details_at(s, table, n, own, count, types, infos, setting)?;
    let link = types as u32;
    let first = slots::typed_at(s, link, infos as u32);
    Ok(Head {
        id,
        end,
        count,
        slots: count,
        first,
        link,
    })
}

// Members: all names, then all type bytes, then the details.
pub fn members_at(
    s: &[u8],
    table: &[u32],
    n: usize,
    own: bool,
    id: u32,
    count: u32,
    at: usize,
    setting: Setting,
) -> Result<Head, Refusal>
    requires { (n ≤ room_of table.now) × (length s.now ≤ 16777216) × (at ≤ length s.now) }
    ensures { result ≡ members_at setting s.now (rows_of n table.now) own id count at }
{
    let types = types::names_at(s, count, at, setting)?;
    typed_members_at(s, table, n, own, id, count, types, setting)
}
