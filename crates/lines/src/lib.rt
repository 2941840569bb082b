// Prints what reading a stream answers, as the listing has it: unsigned decimal words, one blank between, a newline after every line. What is
// written cannot be promised; the programs' stored outputs hold it.
#![tactic(auto)]

use format::Refused;
use output::{Output, say};
use std::fmt;

// The words of a row, as a line.
#[derive(Drop)]
struct Line<'a>(&'a [u32]);

impl fmt::Display for Line<'_> {
    fn fmt<W: fmt::Write>(&self, f: &mut fmt::Formatter<W>) -> fmt::Result {
        for (i, w) in self.0.iter().enumerate() {
            write!(f, "{w}{}", if i == 7 { "\n" } else { " " })?;
        }
        Ok(())
    }
}

// `refused` number `at` place, to an output. The number is any that a caller has: a `Refusal` in its place would ask more.
pub fn refusal(to: Output, number: u32, place: usize) {
    say!(to; "refused {number} at {place}");
}

// The same as a line.
pub fn refused(number: u32, place: usize) {
    refusal(Output::Standard, number, place);
    say!("\n");
}

// `accepted` and the number of rows, then the rows.
pub fn accepted(table: &[u32], rows: usize) {
    say!("accepted {rows}\n");
    if rows <= table.len() / 8 {
        for row in table.chunks_exact(8).take(rows) {
            say!("{}", Line(row));
        }
    }
}

// The answer, with the table that came with it.
pub fn answer(table: &[u32], a: Result<usize, Refused>) {
    match a {
        Ok(rows) => accepted(table, rows),
        Err(r) => refused(format::number_of(r.refusal), r.place),
    }
}
