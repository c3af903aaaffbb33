// A table of either kind: its records, read one after another, and the refusals that both kinds share, judged once.

#![tactic(auto)]

pub mod judge;
pub mod kind;
pub mod table;
