// A job table: its jobs in arrays by number, and a square of its strongest links.

#![tactic(auto)]

pub mod load;

// The jobs of a table by number: whether there is one, its cost and its window.
#[derive(Clone, Copy)]
pub struct Jobs {
    pub present: [bool; 48],
    pub cost: [u16; 48],
    pub release: [u16; 48],
    pub deadline: [u16; 48],
}
