// A slot type as a word and back.
#![tactic(auto)]

ghost use Rattle.std.specs.Prelude.{◌≡◌, ◌+◌, ◌-◌, ◌<◌};
ghost use Rattle.format.specs.Types.{code_number, primitive_of, coded};
ghost use Rattle.slot_words.specs.Words.{slot_code, slot_from};

use format::{PrimitiveCode, SlotType};

// ---- a slot type as a word

pub fn code_number(c: PrimitiveCode) -> u32
    ensures { result ≡ code_number c }
{
    match c {
        PrimitiveCode::Boolean => 1,
        PrimitiveCode::Byte => 2,
        PrimitiveCode::Char => 3,
        PrimitiveCode::Decimal => 5,
        PrimitiveCode::Double => 6,
        PrimitiveCode::Int16 => 7,
        PrimitiveCode::Int32 => 8,
        PrimitiveCode::Int64 => 9,
        PrimitiveCode::SByte => 10,
        PrimitiveCode::Single => 11,
        PrimitiveCode::TimeSpan => 12,
        PrimitiveCode::DateTime => 13,
        PrimitiveCode::UInt16 => 14,
        PrimitiveCode::UInt32 => 15,
        PrimitiveCode::UInt64 => 16,
    }
}

// The primitive code of a number; Byte for a number that is none.
fn code_from(k: u32) -> PrimitiveCode
    ensures { result ≡ coded (primitive_of k) }
{
    if 256 <= k {
        return PrimitiveCode::Byte;
    }
    codes::coded_of(codes::primitive_of(k as u8))
}

pub fn slot_code(t: SlotType) -> u32
    ensures { result ≡ slot_code t }
{
    match t {
        SlotType::Primitive(c) => code_number(c),
        SlotType::Text => 20,
        SlotType::Object => 21,
        SlotType::SystemClass => 22,
        SlotType::Class => 23,
        SlotType::ObjectArray => 24,
        SlotType::StringArray => 25,
        SlotType::PrimitiveArray(c) => 32 + code_number(c),
    }
}

#[tactic(auto, unfolding(crate::specs::Words::slot_from))]
pub fn slot_from(k: u32) -> SlotType
    ensures { result ≡ slot_from k }
{
    match k {
        0..=19 => SlotType::Primitive(code_from(k)),
        20 => SlotType::Text,
        21 => SlotType::Object,
        22 => SlotType::SystemClass,
        23 => SlotType::Class,
        24 => SlotType::ObjectArray,
        25 => SlotType::StringArray,
        _ => SlotType::PrimitiveArray(code_from(less(k, 32))),
    }
}

// ---- counts

// The difference, or 0 where b is greater.
pub fn less(a: u32, b: u32) -> u32
    ensures { result ≡ a - b }
{
    a.saturating_sub(b)
}
