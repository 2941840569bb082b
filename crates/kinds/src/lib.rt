// What may stand where: the kind byte, judged by the place where it stands.
#![tactic(auto)]

ghost use Rattle.std.specs.Prelude.{◌<◌, ◌≡◌};
ghost use Rattle.format.specs.declared.Where.TheVariants as W;
ghost use Rattle.format.specs.Records.{is_kind, not_taken, in_slot, allowed, kind_of, kind_at};
ghost use Rattle.kinds.specs.Kinds.{brief_in, brief_at};

use format::{Refusal, Where};

// ---- what may stand where

// 0 to 17, 21 and 22: RecordTypeEnumeration (2.1.2.1 in MS-NRBF).
fn is_kind(k: u8) -> bool
    ensures { result ≡ is_kind k }
{
    matches!(k, 0..=17 | 21 | 22)
}

// Refused by name: SystemClassWithMembers (2, 2.3.2.4), ClassWithMembers (3, 2.3.2.2), BinaryMethodCall (21, 2.2.3.1) and BinaryMethodReturn (22,
// 2.2.3.3).
fn not_taken(k: u8) -> bool
    ensures { result ≡ not_taken k }
{
    matches!(k, 2 | 3 | 21 | 22)
}

// References, nulls and libraries stand in every slot that waits for a record, libraries since they stand wherever a kind byte is expected after the header: MemberReference (9, 2.5.3), ObjectNull (10, 2.5.4), BinaryLibrary
// (12, 2.6.2), ObjectNullMultiple256 (13, 2.5.6), ObjectNullMultiple (14, 2.5.5).
fn in_slot(k: u8) -> bool
    ensures { result ≡ in_slot k }
{
    matches!(k, 9 | 10 | 12 | 13 | 14)
}

// ClassWithId (1, 2.3.2.5), the classes with types (4, 2.3.2.3; 5, 2.3.2.1), BinaryObjectString (6, 2.5.7), BinaryArray (7, 2.4.3.1), MessageEnd (11,
// 2.6.3), BinaryLibrary (12, 2.6.2), ArraySinglePrimitive, ArraySingleObject and ArraySingleString (15, 2.4.3.3; 16, 2.4.3.2; 17, 2.4.3.4).
#[tactic(auto, unfolding(format::specs::Records::allowed))]
fn at_top(k: u8) -> bool
    ensures { result ≡ allowed W.Top k }
{
    matches!(k, 1 | 4 | 5 | 6 | 7 | 11 | 12 | 15 | 16 | 17)
}

// BinaryObjectString (6, 2.5.7), and what stands in every slot.
#[tactic(auto, unfolding(format::specs::Records::allowed))]
fn in_string_slot(k: u8) -> bool
    ensures { result ≡ allowed W.StringSlot k }
{
    k == 6 || in_slot(k)
}

// ClassWithId (1, 2.3.2.5), the classes with types (4, 2.3.2.3; 5, 2.3.2.1), BinaryObjectString (6, 2.5.7), MemberPrimitiveTyped (8, 2.5.1), and what
// stands in every slot.
#[tactic(auto, unfolding(format::specs::Records::allowed))]
fn in_object_slot(k: u8) -> bool
    ensures { result ≡ allowed W.ObjectSlot k }
{
    matches!(k, 1 | 4 | 5 | 6 | 8) || in_slot(k)
}

// The header, SerializationHeaderRecord (0, 2.6.1), stands first and nowhere else.
fn allowed(w: Where, k: u8) -> bool
    ensures { result ≡ allowed w k }
{
    match w {
        Where::Start => k == 0,
        Where::Top => at_top(k),
        Where::StringSlot => in_string_slot(k),
        Where::ObjectSlot => in_object_slot(k),
        Where::ArraySlot => in_slot(k),
    }
}

// A kind byte where it stands: unknown, then refused by name, then in the wrong place. What is allowed is none of these, so the frequent
// answer is asked for first.
fn kind_of(w: Where, k: u8) -> Result<u8, Refusal>
    ensures { result ≡ kind_of w k }
{
    if allowed(w, k) {
        return Ok(k);
    }
    if is_kind(k) {
        if not_taken(k) {
            return Err(Refusal::NotTaken);
        }
        return Err(Refusal::WrongPlace);
    }
    Err(Refusal::UnknownKind)
}

pub fn kind_at(s: &[u8], w: Where, at: usize) -> Result<u8, Refusal>
    ensures { result ≡ kind_at s.now w at }
{
    if at < s.len() {
        return kind_of(w, s[at]);
    }
    Err(Refusal::CutShort)
}

// ---- brief kinds: they fill one slot and open nothing

// BinaryObjectString (6) stands at the top, in string slots and in object slots.
#[tactic(auto, unfolding(format::specs::Records::allowed))]
fn takes_string(w: Where) -> bool
    ensures { result ≡ allowed w 6 }
{
    matches!(w, Where::Top | Where::StringSlot | Where::ObjectSlot)
}

// MemberPrimitiveTyped (8) stands in object slots alone.
#[tactic(auto, unfolding(format::specs::Records::allowed))]
fn takes_typed(w: Where) -> bool
    ensures { result ≡ allowed w 8 }
{
    matches!(w, Where::ObjectSlot)
}

// MemberReference (9) and ObjectNull (10) stand in every slot.
#[tactic(auto, unfolding(format::specs::Records::allowed))]
fn takes_null(w: Where) -> bool
    ensures { (result ≡ allowed w 9) × (result ≡ allowed w 10) }
{
    matches!(w, Where::StringSlot | Where::ObjectSlot | Where::ArraySlot)
}

// Whether this kind is brief and may stand here.
fn is_brief_in(w: Where, k: u8) -> bool
    ensures { result ≡ brief_in w k }
{
    match k {
        6 => takes_string(w),
        8 => takes_typed(w),
        9 | 10 => takes_null(w),
        _ => false,
    }
}

// Whether a record of a brief kind stands at this place, and may. Asked by the kind first: most records are brief, and then one question is enough.
pub fn is_brief_at(s: &[u8], w: Where, at: usize) -> bool
    ensures { result ≡ brief_at s.now w at }
{
    at < s.len() && is_brief_in(w, s[at])
}
