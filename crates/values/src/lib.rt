// A primitive value at a place, by its code: it answers the place after it, or the refusal. Bytes that are
// missing are cut short, whatever the place is, before the bytes are judged.
#![tactic(auto)]

ghost use Rattle.std.specs.Prelude.{◌≡◌};
ghost use Rattle.format.specs.Values.{size_of, value_at};

use format::{PrimitiveCode, Refusal, Setting};

// How many bytes a value has whose every pattern is taken; 0 for a value that is judged, as the definition has it (`size_of`): no Option.
pub fn size_of(code: PrimitiveCode) -> usize
    ensures { result ≡ size_of code }
{
    match code {
        PrimitiveCode::Boolean => 0,
        PrimitiveCode::Byte => 1,
        PrimitiveCode::Char => 0,
        PrimitiveCode::Decimal => 0,
        PrimitiveCode::Double => 8,
        PrimitiveCode::Int16 => 2,
        PrimitiveCode::Int32 => 4,
        PrimitiveCode::Int64 => 8,
        PrimitiveCode::SByte => 1,
        PrimitiveCode::Single => 4,
        PrimitiveCode::TimeSpan => 8,
        PrimitiveCode::DateTime => 0,
        PrimitiveCode::UInt16 => 2,
        PrimitiveCode::UInt32 => 4,
        PrimitiveCode::UInt64 => 8,
    }
}

pub fn value_at(
    s: &[u8],
    code: PrimitiveCode,
    at: usize,
    setting: Setting,
) -> Result<usize, Refusal>
    ensures { result ≡ value_at setting s.now code at }
{
    match code {
        PrimitiveCode::Boolean => value_forms::boolean_at(s, at),
        PrimitiveCode::Byte => value_forms::bytes_at(s, at, 1),
        PrimitiveCode::Char => value_forms::char_at(s, at),
        PrimitiveCode::Decimal => value_forms::decimal_at(s, at, setting),
        PrimitiveCode::Double => value_forms::bytes_at(s, at, 8),
        PrimitiveCode::Int16 => value_forms::bytes_at(s, at, 2),
        PrimitiveCode::Int32 => value_forms::bytes_at(s, at, 4),
        PrimitiveCode::Int64 => value_forms::bytes_at(s, at, 8),
        PrimitiveCode::SByte => value_forms::bytes_at(s, at, 1),
        PrimitiveCode::Single => value_forms::bytes_at(s, at, 4),
        PrimitiveCode::TimeSpan => value_forms::bytes_at(s, at, 8),
        PrimitiveCode::DateTime => value_forms::date_time_at(s, at),
        PrimitiveCode::UInt16 => value_forms::bytes_at(s, at, 2),
        PrimitiveCode::UInt32 => value_forms::bytes_at(s, at, 4),
        PrimitiveCode::UInt64 => value_forms::bytes_at(s, at, 8),
    }
}

// The same value on the short way: one of a code that has a size is one comparison, and the others have a result of their own.
pub fn value_soon(
    s: &[u8],
    code: PrimitiveCode,
    at: usize,
    setting: Setting,
) -> Result<usize, Refusal>
    ensures { result ≡ value_at setting s.now code at }
{
    let size = size_of(code);
    if size != 0 {
        return value_forms::bytes_at(s, at, size);
    }
    let q = value_at(s, code, at, setting);
    q
}
