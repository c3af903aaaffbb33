// What normalising and scheduling have in common: a job table's jobs and gaps, where nothing up to its start times is refused.
ghost use Rattle.argilosco.specs.Answer.{HeldAs};

use jobs::Jobs;
use jobs::load::{load_jobs, load_links};
use normal::gaps::{gaps, ring_in};
use normal::tighten::no_starts;
use records::JobRecord;
use records::refusal::Refusal;
use tables::judge::{Judged, judge};

// The jobs of a table that permits start times, with the gaps between them put into a square, or the first refusal that holds.
pub(crate) fn hold(bytes: &[u8], square: &mut [[u32; 48]; 48]) -> Result<Jobs, Refusal>
    ensures { HeldAs bytes.now result square.new }
{
    let judged: Judged<JobRecord> = judge(bytes)?;
    let jobs = load_jobs(&judged);
    *square = gaps(jobs, load_links(&judged));
    if ring_in(*square) {
        return Err(Refusal::Ring);
    }
    if no_starts(jobs, *square) {
        return Err(Refusal::NoStarts);
    }
    Ok(jobs)
}
