// Writing a record at a place of an output. A 16-bit number's two bytes are named as where records are read.
ghost use Rattle.std.specs.Prelude.{List, ℕ, ◌≡◌, ◌+◌, ◌*◌, ◌≤◌, length};
ghost use Rattle.std.proofs.Math.Seq.{paste};
ghost use Rattle.records.specs.Record.{job_bytes, slot_bytes};

use crate::{JobRecord, Slot};

// Records that are written as twelve bytes each.
pub trait Writable: Copy {
    // A record's bytes.
    ghost written: { Self → List ℕ };

    // A record's twelve bytes.
    fn to_bytes(self) -> [u8; 12]
        ensures { result ≡ written self };
}

impl Writable for JobRecord {
    ghost written = { job_bytes };

    #[tactic(auto, using(crate::proofs::Words::le_pair), unfolding(crate::specs::Record::job_bytes))]
    fn to_bytes(self) -> [u8; 12] {
        match self {
            JobRecord::J(job) => {
                let [c, cc] = job.cost.to_le_bytes();
                let [r, rr] = job.release.to_le_bytes();
                let [d, dd] = job.deadline.to_le_bytes();
                [b'J', job.number, c, cc, r, rr, d, dd, 0, 0, 0, 0]
            }
            JobRecord::L(link) => {
                let [l, ll] = link.latency.to_le_bytes();
                [b'L', link.from, link.to, 0, l, ll, 0, 0, 0, 0, 0, 0]
            }
        }
    }
}

impl Writable for Slot {
    ghost written = { slot_bytes };

    #[tactic(auto, using(crate::proofs::Words::le_pair), unfolding(crate::specs::Record::slot_bytes))]
    fn to_bytes(self) -> [u8; 12] {
        let [s, ss] = self.start.to_le_bytes();
        let [e, ee] = self.end.to_le_bytes();
        [b'S', self.number, s, ss, e, ee, 0, 0, 0, 0, 0, 0]
    }
}

// Twelve bytes, written over.
fn fill(place: &mut [u8], bytes: [u8; 12])
    requires { length place.old ≡ 12 }
    ensures { place.new ≡ bytes }
{
    let Some(room) = place.as_mut_array::<12>() else {
        unreachable!()
    };
    *room = bytes;
}

// A record at a place of the output.
pub fn write<W: Writable>(out: &mut [u8], place: usize, record: W)
    requires { 12 * place + 12 ≤ length out.old }
    ensures { out.new ≡ paste out.old (12 * place) (W.written «record») 12 }
{
    let at = 12 * place;
    fill(&mut out[at..at + 12], record.to_bytes());
}
