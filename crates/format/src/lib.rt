// What the promises speak of: the refusals by name, the answers of the four public jobs, primitive codes and slot types, the two
// counts, rows, frames, and what the readers of fields answer. The definitions that use them stand in specs/, in the order of the
// format: replies, numbers, prefix, text, values, types, entries, rows, records, machine, view, contents, book, grammar, says, tidy. After them stand the
// promises of the jobs, and worked examples that hold the definitions.
#![tactic(auto)]

ghost use Rattle.std.specs.Prelude.{◌≡◌, replicate};
ghost use Rattle.format.specs.Replies.{number_of};
ghost use Rattle.format.specs.Machine.{top_level};

// ---- replies

// The refusals, by name. `number_of` has their numbers.
#[derive(Clone, Copy)]
pub enum Refusal {
    TooLarge,
    CutShort,
    UnknownKind,
    NotTaken,
    WrongPlace,
    BadVersion,
    BadLength,
    BadText,
    BadCount,
    BadType,
    BadValue,
    BadId,
    NoLibrary,
    NoClass,
    TooDeep,
    NoRoom,
    Trailing,
    NoRoot,
    NoObject,
    OutFull,
    NoSuchRow,
    BadBook,
}

// The number of a refusal.
pub fn number_of(r: Refusal) -> u32
    ensures { result ≡ number_of r }
{
    match r {
        Refusal::TooLarge => 1,
        Refusal::CutShort => 2,
        Refusal::UnknownKind => 3,
        Refusal::NotTaken => 4,
        Refusal::WrongPlace => 5,
        Refusal::BadVersion => 6,
        Refusal::BadLength => 7,
        Refusal::BadText => 8,
        Refusal::BadCount => 9,
        Refusal::BadType => 10,
        Refusal::BadValue => 11,
        Refusal::BadId => 12,
        Refusal::NoLibrary => 13,
        Refusal::NoClass => 14,
        Refusal::TooDeep => 15,
        Refusal::NoRoom => 16,
        Refusal::Trailing => 17,
        Refusal::NoRoot => 18,
        Refusal::NoObject => 19,
        Refusal::OutFull => 20,
        Refusal::NoSuchRow => 21,
        Refusal::BadBook => 22,
    }
}

// A refusal, and its place.
#[derive(Clone, Copy)]
pub struct Refused {
    pub refusal: Refusal,
    pub place: usize,
}

// What the row question answers. Neither answer carries anything, so two names are plainer than an empty Result.
#[derive(Clone, Copy)]
pub enum RowAnswer {
    HasText,
    NoSuchRow,
}

// Why no tidy copy is written: the reading is refused; or the copy has no room, with the length that it needs.
#[derive(Clone, Copy)]
pub enum Untidied {
    Refused(Refused),
    OutFull(usize),
}

// Why two lists are not compared: the first or the second has no tidy copy.
#[derive(Clone, Copy)]
pub enum Uncompared {
    First(Untidied),
    Second(Untidied),
}

// ---- the two counts

// The number of an object: an ObjectId, an IdRef, a MetadataId or a RootId.
#[derive(Clone, Copy)]
pub struct ObjectNo(pub u32);

// The number of a library: a LibraryId.
#[derive(Clone, Copy)]
pub struct LibraryNo(pub u32);

// ---- types

#[derive(Clone, Copy)]
pub enum PrimitiveCode {
    Boolean,
    Byte,
    Char,
    Decimal,
    Double,
    Int16,
    Int32,
    Int64,
    SByte,
    Single,
    TimeSpan,
    DateTime,
    UInt16,
    UInt32,
    UInt64,
}

// The type of a member or an item. The primitive cases hold their code; the other details are told apart by place alone.
#[derive(Clone, Copy)]
pub enum SlotType {
    Primitive(PrimitiveCode),
    Text,
    Object,
    SystemClass,
    Class,
    ObjectArray,
    StringArray,
    PrimitiveArray(PrimitiveCode),
}

// The type of a slot, the place of its type byte and the place of its detail. Where all slots are alike `types` is 0.
#[derive(Clone, Copy)]
pub struct Typed {
    pub slot: SlotType,
    pub types: u32,
    pub infos: u32,
}

// ---- fields: what stands at a place

// How length prefixes are judged: strict takes the shortest form alone, lenient any form of at most five bytes whose fifth is at most 7.
#[derive(Clone, Copy)]
pub enum Setting {
    Strict,
    Lenient,
}

// Where the text of a string, or what a value says, begins and ends.
#[derive(Clone, Copy)]
pub struct Span {
    pub from: usize,
    pub to: usize,
}

// The state of the text check between two bytes. need: how many bytes must still follow, 4 where nothing can mend it; the next one
// lies in lo..=hi.
#[derive(Clone, Copy)]
pub struct Utf8 {
    pub need: u8,
    pub lo: u8,
    pub hi: u8,
}

// ---- rows

// A row of the table: kind; offset; offset after its own bytes; id; owner, a row number plus 1; first slot filled; link, a row number
// plus 1; count. While a stream is read the link of a class's row is the place of its type bytes, that of a member value's the number of its code.
#[derive(Clone, Copy)]
pub struct Row {
    pub kind: u32,
    pub offset: u32,
    pub end: u32,
    pub id: u32,
    pub owner: u32,
    pub slot: u32,
    pub link: u32,
    pub count: u32,
}

// ---- records

// Where a kind byte stands: at the start, at top level, or in a slot that takes strings, objects, or neither.
#[derive(Clone, Copy)]
pub enum Where {
    Start,
    Top,
    StringSlot,
    ObjectSlot,
    ArraySlot,
}

// What a record's fields say: its id, the place after them, its count, how many slots wait to be filled, the type of the first of
// them, and the link word.
#[derive(Clone, Copy)]
pub struct Head {
    pub id: u32,
    pub end: usize,
    pub count: u32,
    pub slots: u32,
    pub first: Typed,
    pub link: u32,
}

// ---- the machine

// An object that is open: the number of its row plus 1, how many slots it has, how many are left, and the type of the next one. The
// top level is such a frame too, with no slots.
#[derive(Clone, Copy)]
pub struct Frame {
    pub owner: u32,
    pub count: u32,
    pub left: u32,
    pub typed: Typed,
}

// The reader between two records: the place, how many rows there are, how many frames are saved below the innermost object, and its
// frame.
#[derive(Clone, Copy)]
pub struct Reader {
    pub at: usize,
    pub rows: usize,
    pub depth: usize,
    pub top: Frame,
}

impl Reader {
    // A stream has at most so many bytes.
    pub const LIMIT: usize = 16777216;
    // So many objects may be open.
    pub const OPEN: usize = 64;
    // The rank of a rectangular array.
    pub const LEAST_RANK: u32 = 2;

    pub const MOST_RANK: u32 = 32;
    // An array has at most so many slots.
    pub const MOST_SLOTS: u32 = 2147483647;
    // The words of the saved frames, six to a frame.
    pub const WORDS: usize = 6 * Reader::OPEN;

    // At the start, with nothing read and nothing open.
    pub fn fresh() -> Reader
        ensures { result ≡ record { at = 0; rows = 0; depth = 0; top = top_level } }
    {
        Reader {
            at: 0,
            rows: 0,
            depth: 0,
            top: Frame {
                owner: 0,
                count: 0,
                left: 0,
                typed: Typed {
                    slot: SlotType::Object,
                    types: 0,
                    infos: 0,
                },
            },
        }
    }

    // Room for the frames of as many objects as may be open.
    pub fn frames() -> [u32; Reader::WORDS]
        ensures { result ≡ replicate 384 0 }
    {
        [0; Reader::WORDS]
    }
}
