// What the writers have gathered between two rows. What they write, piece by piece, stands in specs/.
#![tactic(auto)]

// Nulls of one object that wait to be written: the row of the object plus 1, and how many.
#[derive(Clone, Copy)]
pub struct Gathered {
    pub owner: u32,
    pub count: usize,
}
