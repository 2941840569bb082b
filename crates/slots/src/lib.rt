// The types of the slots that follow a record, one after the other: where the next one stands, and what waits there.
#![tactic(auto)]

ghost use Rattle.std.specs.Prelude.{◌≤◌, ◌<◌, ◌≡◌, length};
ghost use Rattle.format.specs.Types.{slot_of, typed_at, past, after_text, after_info, book_typed, next_booked, moved, is_primitive, passed_of};

use format::{SlotType, Typed};

// ---- the types of slots

// The slot type of a type byte and, where it has one, its primitive code.
pub fn slot_of(kind: u8, code: u8) -> SlotType
    ensures { result ≡ slot_of kind code }
{
    match kind {
        0 => SlotType::Primitive(codes::coded_of(codes::primitive_of(code))),
        1 => SlotType::Text,
        2 => SlotType::Object,
        3 => SlotType::SystemClass,
        4 => SlotType::Class,
        5 => SlotType::ObjectArray,
        6 => SlotType::StringArray,
        _ => SlotType::PrimitiveArray(codes::coded_of(codes::primitive_of(code))),
    }
}

// The type whose byte stands at one place and whose detail stands at another.
pub fn typed_at(s: &[u8], types: u32, infos: u32) -> Typed
    ensures { result ≡ typed_at s.now types infos }
{
    let slot = slot_of(
        codes::byte_at(s, types as usize),
        codes::byte_at(s, infos as usize),
    );
    Typed { slot, types, infos }
}

// The next place, never past the end.
fn next_place(s: &[u8], p: u32) -> u32
    requires { length s.now < 4294967296 }
    ensures { result ≡ past (length s.now) p }
{
    if (p as usize) < s.len() {
        return p + 1;
    }
    p
}

// The place after a detail that was judged before.
fn after_info(s: &[u8], kind: u8, p: u32) -> u32
    requires { length s.now < 4294967296 }
    ensures { result ≡ after_info s.now kind p }
{
    spans::after_info(s, kind, p as usize) as u32
}

// The place after a name that was judged before.
fn after_name(s: &[u8], p: u32) -> u32
    requires { length s.now < 4294967296 }
    ensures { result ≡ after_text s.now p }
{
    spans::after_text(s, p as usize) as u32
}

// ---- the types in the class book

// The type whose byte stands at a place of the book, its detail right after it.
pub fn booked_at(book: &[u8], types: u32) -> Typed
    ensures { result ≡ book_typed book.now types }
{
    let at = types as usize;
    let slot = slot_of(codes::byte_at(book, at), codes::byte_at(book, at + 1));
    Typed {
        slot,
        types,
        infos: 0,
    }
}

// The place of the type byte after this one: behind its detail stands the next member's name.
fn next_booked(book: &[u8], types: u32) -> u32
    requires { length book.now < 4294967296 }
    ensures { result ≡ next_booked book.now types }
{
    let kind = codes::byte_at(book, types as usize);
    after_name(book, after_info(book, kind, next_place(book, types)))
}

// ---- from slot to slot

// The type of the slot after this one, in the book or in the stream.
pub fn move_on(s: &[u8], book: &[u8], t: Typed) -> Typed
    requires { (length s.now ≤ 16777216) × (length book.now < 4294967296) }
    ensures { result ≡ moved book.now s.now t }
{
    let types = t.types;
    if types == 0 {
        return t;
    }
    if t.infos == 0 {
        let next = booked_at(book, next_booked(book, types));
        return next;
    }
    // The stream is lent and the answer laid down as copies of their own, so that the way above, which is taken most, stays in registers.
    let stream = s;
    let infos = after_info(stream, codes::byte_at(stream, types as usize), t.infos);
    let next = typed_at(stream, next_place(stream, types), infos);
    next
}

fn is_primitive(slot: SlotType) -> bool
    ensures { result ≡ is_primitive slot }
{
    matches!(slot, SlotType::Primitive(_))
}

// The type of the slot after a null run of n. The slots of an array are alike, and none of them is walked.
pub fn pass(s: &[u8], book: &[u8], t: Typed, n: u32) -> Option<Typed>
    requires { (length s.now ≤ 16777216) × (length book.now < 4294967296) }
    ensures { result ≡ passed_of book.now s.now t n }
{
    let types = t.types;
    if types == 0 {
        return Some(t);
    }
    let mut u = t;
    for _ in 0..n {
        if is_primitive(u.slot) {
            return None;
        }
        u = move_on(s, book, u);
    }
    Some(u)
}
