// The four public jobs and the comparing one in the forms that C and Rust call. Nothing else is public to a user.
#![tactic(auto)]

ghost use Rattle.std.specs.Prelude.{◌≡◌, length};
ghost use Rattle.format.specs.Rows.{room_of};
ghost use Rattle.format.specs.Machine.{read_of, read_answer, table_words};
ghost use Rattle.format.specs.View.{row_question};
ghost use Rattle.format.specs.Replies.{read_reply, row_reply};
ghost use Rattle.replies.specs.Replies.{Answered};
ghost use Rattle.terminal.specs.Terminal.{setting_of, terms_of, Shown, Tidied, Compared};

use format::Setting;

// A setting by its number: 0 is strict, every other number lenient.
fn setting_of(n: u32) -> Setting
    ensures { result ≡ setting_of n }
{
    if n == 0 {
        return Setting::Strict;
    }
    Setting::Lenient
}

// Reads a stream into a table of rows. Answers 0, or the number of the refusal; `place` is then its place, and `rows` is how many rows there
// are where there is none.
#[unsafe(no_mangle)]
pub extern "C" fn strelinga_read(
    stream: &[u8],
    book: &[u8],
    table: &mut [u32],
    setting: u32,
    place: &mut u64,
    rows: &mut u64,
) -> u32
    ensures { Answered (read_reply (read_answer (read_of (terms_of setting book.now) stream.now (room_of table.old)))) result place.new rows.new
        × (table.new ≡ table_words (length table.old) (read_of (terms_of setting book.now) stream.now (room_of table.old))) }
{
    let a = reader::read(stream, book, table, setting_of(setting));
    let r = replies::read_reply(a);
    *place = r.place;
    *rows = r.value;
    r.number
}

// Whether a row has text. Answers 0, or 21 where it has none.
#[unsafe(no_mangle)]
pub extern "C" fn strelinga_row_question(
    stream: &[u8],
    table: &[u32],
    row: u64,
    setting: u32,
) -> u32
    ensures { result ≡ (row_reply (row_question (setting_of setting) stream.now table.now row)).number }
{
    replies::row_number(view::row_question(stream, table, row as usize, setting_of(setting)))
}

// The text of a row: `from` is its place in the stream and `size` how many bytes it has, both 0 where there is none. Answers as the row
// question does.
#[unsafe(no_mangle)]
pub extern "C" fn strelinga_text_view(
    stream: &[u8],
    table: &[u32],
    row: u64,
    setting: u32,
    from: &mut u64,
    size: &mut u64,
) -> u32
    ensures { Shown (setting_of setting) stream.now table.now row result from.new size.new }
{
    let t = view::row_text(stream, table, row as usize, setting_of(setting));
    let r = replies::text_reply(t);
    *from = r.place;
    *size = r.value;
    r.number
}

// Writes the tidy copy of a stream to the front of the output. Answers 0, or the number of the refusal; `place` is then its place, and `size`
// is how long the copy is or, with 20, would be.
#[unsafe(no_mangle)]
pub extern "C" fn strelinga_tidy(
    stream: &[u8],
    book: &[u8],
    table: &mut [u32],
    out: &mut [u8],
    setting: u32,
    place: &mut u64,
    size: &mut u64,
) -> u32
    ensures { Tidied (terms_of setting book.now) stream.now table.old out.old table.new out.new result place.new size.new }
{
    let a = tidy::tidy(stream, book, table, out, setting_of(setting));
    let w = replies::tidy_reply(a);
    *place = w.place;
    *size = w.value;
    w.number
}

// Whether two lists say the same. Answers 0 where both have their tidy copies, and `same` is then 1 or 0; else the number of the refusal of the
// list that `list` names, with its `place` or, with 20, what its copy needs as `wanted`.
#[unsafe(no_mangle)]
pub extern "C" fn strelinga_say_the_same(
    a: &[u8],
    a_book: &[u8],
    b: &[u8],
    b_book: &[u8],
    table: &mut [u32],
    first: &mut [u8],
    second: &mut [u8],
    a_setting: u32,
    b_setting: u32,
    same: &mut u64,
    list: &mut u64,
    place: &mut u64,
    wanted: &mut u64,
) -> u32
    ensures { Compared (terms_of a_setting a_book.now) (terms_of b_setting b_book.now) a.now b.now table.old first.old second.old table.new first.new second.new result same.new list.new place.new wanted.new }
{
    let p = setting_of(a_setting);
    let r = setting_of(b_setting);
    let q = sameness::say_the_same(a, a_book, b, b_book, table, first, second, p, r);
    let w = replies::same_reply(q);
    *same = replies::same_of(q);
    *list = replies::list_of(q);
    *place = w.place;
    *wanted = w.value;
    w.number
}
