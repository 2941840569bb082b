// One byte, one code of a primitive type and one binary type, judged where they stand.
#![tactic(auto)]

ghost use Rattle.std.specs.Prelude.{◌≡◌, get_or};
ghost use Rattle.format.specs.Types.{primitive_of, coded, code_at, type_byte_at};

use format::{PrimitiveCode, Refusal};

// The byte at a place; 0 past the end.
pub fn byte_at(s: &[u8], p: usize) -> u8
    ensures { result ≡ get_or s.now p 0 }
{
    if p < s.len() {
        return s[p];
    }
    0
}

// ---- primitive codes

// The code of a byte; 4, 17, 18 and all others are none.
pub fn primitive_of(b: u8) -> Option<PrimitiveCode>
    ensures { result ≡ primitive_of b }
{
    match b {
        1 => Some(PrimitiveCode::Boolean),
        2 => Some(PrimitiveCode::Byte),
        3 => Some(PrimitiveCode::Char),
        5 => Some(PrimitiveCode::Decimal),
        6 => Some(PrimitiveCode::Double),
        7 => Some(PrimitiveCode::Int16),
        8 => Some(PrimitiveCode::Int32),
        9 => Some(PrimitiveCode::Int64),
        10 => Some(PrimitiveCode::SByte),
        11 => Some(PrimitiveCode::Single),
        12 => Some(PrimitiveCode::TimeSpan),
        13 => Some(PrimitiveCode::DateTime),
        14 => Some(PrimitiveCode::UInt16),
        15 => Some(PrimitiveCode::UInt32),
        16 => Some(PrimitiveCode::UInt64),
        _ => None,
    }
}

// The code of a byte that was found to be one; Byte for any other.
pub fn coded_of(c: Option<PrimitiveCode>) -> PrimitiveCode
    ensures { result ≡ coded c }
{
    c.unwrap_or(PrimitiveCode::Byte)
}

pub fn code_at(s: &[u8], at: usize) -> Result<usize, Refusal>
    ensures { result ≡ code_at s.now at }
{
    if s.len() <= at {
        return Err(Refusal::CutShort);
    }
    match primitive_of(s[at]) {
        Some(_) => Ok(at + 1),
        None => Err(Refusal::BadType),
    }
}

// ---- types and their details

pub fn type_byte_at(s: &[u8], at: usize) -> Result<usize, Refusal>
    ensures { result ≡ type_byte_at s.now at }
{
    if s.len() <= at {
        return Err(Refusal::CutShort);
    }
    if s[at] > 7 {
        return Err(Refusal::BadType);
    }
    Ok(at + 1)
}
