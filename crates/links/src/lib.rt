// The links of references: every reference gets the row that it names, wherever that row stands, and so does the header.
#![tactic(auto)]

ghost use Rattle.std.specs.Prelude.{◌≡◌, ◌≤◌, ◌<◌};
ghost use Rattle.format.specs.Rows.{room_of, rows_of, link_of};
ghost use Rattle.links.specs.Links.{has_link, lost_by, Linking};

use format::{ObjectNo, Row};

// ---- one row

// Whether row r has its link already: all but references and the header were given theirs with the row. What is no row's number
// goes unless it is to be kept.
#[tactic(auto, unfolding(crate::specs::Links::has_link))]
fn has_link(r: Row, keep: bool) -> bool
    ensures { result ≡ has_link keep r }
{
    match r.kind {
        0 | 9 => false,
        1 => true,
        _ => keep || r.link == 0,
    }
}

// The link of row r. It is a row number plus 1, which has to fit a word.
#[tactic(auto, unfolding(format::specs::Rows::link_of))]
fn link_of(table: &[u32], n: usize, r: Row) -> u32
    requires { (n ≤ room_of table.now) × (n < 4294967296) }
    ensures { result ≡ link_of (rows_of n table.now) r }
{
    match r.kind {
        0 | 9 => lookups::find_object(table, n, ObjectNo(r.id)) as u32,
        1 => r.link,
        _ => 0,
    }
}

// Whether a row of this kind and link is a reference with no target.
#[tactic(auto, unfolding(crate::specs::Links::lost_by))]
fn is_lost(kind: u32, link: u32) -> bool
    ensures { result ≡ lost_by kind link }
{
    kind == 9 && link == 0
}

// ---- all rows

// Each of the first n rows gets its link, up to the first reference with no target: the number of its row plus 1; 0 if there is none.
// As the lookups it answers a number as a link word has it (`Linking`), no Option. With keep all rows but references and the header keep the link that they were read with.
pub fn link_all(table: &mut [u32], n: usize, keep: bool) -> usize
    requires { (n ≤ room_of table.old) × (n < 4294967296) }
    ensures { Linking keep (rows_of n table.old) (rows_of n table.new) result }
{
    for i in 0..n {
        let r = table::row_at(table, n, i);
        if !has_link(r, keep) {
            let link = link_of(table, n, r);
            if is_lost(r.kind, link) {
                return i + 1;
            }
            table::set_link(table, n, i, link);
        }
    }
    0
}
