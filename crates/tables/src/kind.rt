// What judging asks of a record, and the two kinds of table.
ghost use Rattle.std.specs.Prelude.{ℕ, ◌≡◌};
ghost use Rattle.tables.specs.Rules.{Rules, pass_rules, job_rules};

use records::plain::Readable;
use records::{JobRecord, PassRecord};

// The records of a kind of table, as judging looks at them.
pub trait Kind: Readable {
    // What is asked of a record.
    ghost rules: { Rules Self };

    // The largest number that a record may give.
    fn largest() -> u8
        ensures { result ≡ rules.largest };

    // The number that a record gives, if it gives one.
    fn number(self) -> Option<u8>
        ensures { result ≡ rules.number self };

    // The two numbers that it joins, if it joins two.
    fn ends(self) -> Option<(u8, u8)>
        ensures { result ≡ rules.ends self };

    // A value of it is out of its bounds.
    fn bad_value(self) -> bool
        ensures { result ≡ rules.bad_value self };
}

impl Kind for PassRecord {
    ghost rules = { pass_rules };

    fn largest() -> u8 {
        23
    }

    fn number(self) -> Option<u8> {
        match self {
            PassRecord::P(pass) => Some(pass.number),
            PassRecord::F(_) => None,
        }
    }

    fn ends(self) -> Option<(u8, u8)> {
        match self {
            PassRecord::P(_) => None,
            PassRecord::F(flow) => Some((flow.source, flow.target)),
        }
    }

    fn bad_value(self) -> bool {
        match self {
            PassRecord::P(pass) => {
                pass.cost == 0
                    || pass.period == 0
                    || u32::from(pass.period) < u32::from(pass.phase) + u32::from(pass.within)
            }
            PassRecord::F(flow) => 48000 < flow.latency,
        }
    }
}

impl Kind for JobRecord {
    ghost rules = { job_rules };

    fn largest() -> u8 {
        47
    }

    fn number(self) -> Option<u8> {
        match self {
            JobRecord::J(job) => Some(job.number),
            JobRecord::L(_) => None,
        }
    }

    fn ends(self) -> Option<(u8, u8)> {
        match self {
            JobRecord::J(_) => None,
            JobRecord::L(link) => Some((link.from, link.to)),
        }
    }

    fn bad_value(self) -> bool {
        match self {
            JobRecord::J(job) => job.cost == 0 || 48000 < job.deadline,
            JobRecord::L(link) => 48000 < link.latency,
        }
    }
}
