// The five 12-byte records as plain values; reading one at a place of a table, and writing one at a place of an output.

#![tactic(auto)]

pub mod plain;
pub mod read;
pub mod reader;
pub mod refusal;
pub mod table;
pub mod write;

// A pass: what it costs, how often it runs, when in its period it is released, and within what time it must finish.
#[derive(Clone, Copy)]
pub struct Pass {
    pub number: u8,
    pub cost: u16,
    pub period: u16,
    pub phase: u16,
    pub within: u16,
}

// The target pass reads what the source pass wrote, at least `latency` after the source's end.
#[derive(Clone, Copy)]
pub struct Flow {
    pub source: u8,
    pub target: u8,
    pub latency: u16,
}

// A job: it may start at its release and must end by its deadline.
#[derive(Clone, Copy)]
pub struct Job {
    pub number: u8,
    pub cost: u16,
    pub release: u16,
    pub deadline: u16,
}

// The to job starts at least `latency` after the from job's end.
#[derive(Clone, Copy)]
pub struct Link {
    pub from: u8,
    pub to: u8,
    pub latency: u16,
}

// A job's place on the core.
#[derive(Clone, Copy)]
pub struct Slot {
    pub number: u8,
    pub start: u16,
    pub end: u16,
}

// A pass table holds P and F.
#[derive(Clone, Copy)]
pub enum PassRecord {
    P(Pass),
    F(Flow),
}

// A job table holds J and L.
#[derive(Clone, Copy)]
pub enum JobRecord {
    J(Job),
    L(Link),
}
