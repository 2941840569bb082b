// The row question and the text view: whether a row has text, and that text as a part of the stream. The table may hold any words, so a
// string record is judged by itself.
#![tactic(auto)]

ghost use Rattle.std.specs.Prelude.{◌≡◌};
ghost use Rattle.format.specs.View.{record_text, row_text};
ghost use Rattle.format.specs.Promises.{QuestionPromise, ViewPromise};

use format::{Refusal, RowAnswer, Setting, Span};

// The text of a whole string record at a place.
fn record_text(s: &[u8], at: usize, setting: Setting) -> Result<Span, Refusal>
    ensures { result ≡ record_text setting s.now at }
{
    if s.len() <= at {
        return Err(Refusal::NoSuchRow);
    }
    if s[at] != 6 {
        return Err(Refusal::NoSuchRow);
    }
    let (id, next) = num::u32_at(s, at + 1).ok_or(Refusal::NoSuchRow)?;
    if types::is_positive(id) {
        return strings::string_at(s, next, setting);
    }
    Err(Refusal::NoSuchRow)
}

// Where the text of a row stands: only a record that ends at the end word is the row's own.
pub fn row_text(s: &[u8], table: &[u32], row: usize, setting: Setting) -> Result<Span, Refusal>
    ensures { result ≡ row_text setting s.now table.now row }
{
    let n = table::room(table);
    if n <= row {
        return Err(Refusal::NoSuchRow);
    }
    let r = table::row_at(table, n, row);
    if r.kind != 6 {
        return Err(Refusal::NoSuchRow);
    }
    let Ok(text) = record_text(s, r.offset as usize, setting) else {
        return Err(Refusal::NoSuchRow);
    };
    let end = r.end as usize;
    if text.to == end {
        return Ok(text);
    }
    Err(Refusal::NoSuchRow)
}

// Whether a row has text.
pub fn row_question(s: &[u8], table: &[u32], row: usize, setting: Setting) -> RowAnswer
    ensures { QuestionPromise setting s.now table.now row result }
{
    match row_text(s, table, row, setting) {
        Ok(_) => RowAnswer::HasText,
        Err(_) => RowAnswer::NoSuchRow,
    }
}

// The text of a row, or nothing.
pub fn text_view<'a>(s: &'a [u8], table: &[u32], row: usize, setting: Setting) -> &'a [u8]
    ensures { ViewPromise setting s.now table.now row result.now }
{
    match row_text(s, table, row, setting) {
        Ok(Span { from, to }) => &s[from..to],
        Err(_) => &s[0..0],
    }
}
