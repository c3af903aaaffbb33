// The normal form of a job table: gaps, rings, windows, and the records that are written.

#![tactic(auto)]

pub mod choose;
pub mod form;
pub mod gaps;
pub mod tighten;
pub mod write;

// The windows by job number: each job's earliest and its latest permitted start.
#[derive(Clone, Copy)]
pub struct Windows {
    pub earliest: [u16; 48],
    pub latest: [u16; 48],
}
