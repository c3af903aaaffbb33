// A pass table: read and judged, its passes by number, its cycle, and the jobs and links that it expands to.

#![tactic(auto)]

pub mod cycle;
pub mod expand;
pub mod judge;
pub mod load;

use records::Pass;

// The passes of a table by number: what the record of each says, where there is one.
#[derive(Clone, Copy)]
pub struct Passes {
    pub by_number: [Option<Pass>; 24],
}
