// Judging a pass table: the refusals that both kinds of table share, and then its size.
ghost use Rattle.std.specs.Prelude.{◌≡◌, [], ◌∷◌, ◌≤◌, length, ltb, MatchResult};
ghost use Rattle.records.specs.Outcome.{number_of};
ghost use Rattle.passes.specs.Expand.{flows_of, cycle_of, passes_in_order, job_count};
ghost use Rattle.passes.specs.Call.{pass_table, passes_number};
ghost use Rattle.passes.specs.Arrays.{Accepted};

use crate::cycle::{Plan, cycle_of};
use crate::load::load_passes;
use records::PassRecord;
use records::refusal::Refusal;
use tables::judge::Judged;

// A pass table within the limits: its records, its passes with their cycle, and how many jobs they have.
#[derive(Clone, Copy)]
pub struct Accepted<'a> {
    pub judged: Judged<'a, PassRecord>,
    pub plan: Plan,
    pub jobs: usize,
    pub ghost accepted: { Accepted judged.table.bytes.now plan.passes plan.cycle },
    pub ghost counted: { jobs ≡ job_count (cycle_of (pass_table judged.table.bytes.now)) (passes_in_order (pass_table judged.table.bytes.now)) },
}

// How many F records a record is.
fn one_flow(r: PassRecord) -> usize
    ensures { (result ≡ length (flows_of (r ∷ []))) × (result ≤ 1) }
{
    usize::from(matches!(r, PassRecord::F(_)))
}

// There are over 64 F records, repeats counted. No more are counted than tell it.
fn too_many_flows(judged: &Judged<PassRecord>) -> bool
    ensures { result ≡ ltb 64 (length (flows_of (pass_table judged.now.table.bytes.now))) }
{
    let mut flows = 0;
    for place in 0..judged.table.count() {
        flows += one_flow(judged.table.at(place));
        if 64 < flows {
            return true;
        }
    }
    false
}

// The pass table of some bytes within the limits, or the first refusal that holds.
pub fn judge<'a>(bytes: &'a [u8]) -> Result<Accepted<'a>, Refusal>
    ensures { MatchResult result (λ accepted. accepted.judged.table.bytes.now ≡ bytes.now) (λ refusal. passes_number bytes.now 0 ≡ number_of refusal) }
{
    let judged: Judged<'a, PassRecord> = tables::judge::judge(bytes)?;
    if too_many_flows(&judged) {
        return Err(Refusal::TooLarge);
    }
    let passes = load_passes(&judged);
    let Some(cycle) = cycle_of(&passes) else {
        return Err(Refusal::TooLarge);
    };
    let plan = Plan { passes, cycle };
    let jobs = plan.job_count();
    if 48 < jobs {
        return Err(Refusal::TooLarge);
    }
    Ok(Accepted { judged, plan, jobs })
}
