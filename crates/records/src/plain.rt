// What twelve bytes say: the records of each kind of table as byte patterns. Bytes that say nothing are zero.
// A 16-bit number stands as two letters, one for its low byte, which comes first, and the same doubled for its high byte.
ghost use Rattle.std.specs.Prelude.{ℕ, ◌≡◌, Option};
ghost use Rattle.records.specs.Bytes.{bytes_from, word, twelve};
ghost use Rattle.records.specs.Record.{in_passes, in_jobs, passes_local, jobs_local};

use crate::{Flow, Job, JobRecord, Link, Pass, PassRecord};

// The records of one kind of table.
pub trait Readable: Copy {
    // What a record's bytes say, if they are a record of this kind of table.
    ghost reading: { (ℕ → ℕ) → Option Self };

    // The record that twelve bytes are, if they are one.
    fn from_bytes(bytes: &[u8; 12]) -> Option<Self>
        ensures { result ≡ reading (bytes_from bytes.now 0) };

    // Twelve bytes say it all.
    ghost local: { (b : ℕ → ℕ) → reading b ≡ reading (bytes_from (twelve b) 0) };
}

// The 16-bit number that two bytes hold, the low one first.
fn word(low: u8, high: u8) -> u16
    ensures { result ≡ word low high }
{
    u16::from_le_bytes([low, high])
}

impl Readable for PassRecord {
    ghost reading = { in_passes };

    ghost local = { passes_local };

    #[tactic(auto, unfolding(crate::specs::Record::in_passes, crate::specs::Record::read_pass, crate::specs::Record::read_flow))]
    fn from_bytes(bytes: &[u8; 12]) -> Option<PassRecord> {
        match *bytes {
            [b'P', number, c, cc, t, tt, p, pp, w, ww, 0, 0] => Some(PassRecord::P(Pass {
                number,
                cost: word(c, cc),
                period: word(t, tt),
                phase: word(p, pp),
                within: word(w, ww),
            })),
            [b'F', source, target, 0, l, ll, 0, 0, 0, 0, 0, 0] => Some(PassRecord::F(Flow {
                source,
                target,
                latency: word(l, ll),
            })),
            _ => None,
        }
    }
}

impl Readable for JobRecord {
    ghost reading = { in_jobs };

    ghost local = { jobs_local };

    #[tactic(auto, unfolding(crate::specs::Record::in_jobs, crate::specs::Record::read_job, crate::specs::Record::read_link))]
    fn from_bytes(bytes: &[u8; 12]) -> Option<JobRecord> {
        match *bytes {
            [b'J', number, c, cc, r, rr, d, dd, 0, 0, 0, 0] => Some(JobRecord::J(Job {
                number,
                cost: word(c, cc),
                release: word(r, rr),
                deadline: word(d, dd),
            })),
            [b'L', from, to, 0, l, ll, 0, 0, 0, 0, 0, 0] => Some(JobRecord::L(Link {
                from,
                to,
                latency: word(l, ll),
            })),
            _ => None,
        }
    }
}
