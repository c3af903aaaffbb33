// The search for the first schedule in order, on a normal form.

#![tactic(auto)]

ghost use Rattle.std.specs.Prelude.{◌≡◌, not, List, map, ◌*◌, ◌≤◌, length};
ghost use Rattle.records.specs.declared.JobRecord.{JobRecord};
ghost use Rattle.jobs.specs.Judge.{Sound};
ghost use Rattle.jobs.specs.Arrays.{jobs_of};
ghost use Rattle.normal.specs.Chosen.{present_in};
ghost use Rattle.search.specs.Call.{searched};
ghost use Rattle.search.specs.State.{limit_of, links_into, Answers};

use crate::problem::Problem;
use jobs::Jobs;
use normal::write::count_jobs;

pub mod fit;
pub mod problem;
pub mod tree;

// Which jobs have run, in what order, when each of them ended, and when the core is free. A number that no job has is marked as placed.
#[derive(Clone, Copy)]
pub struct State {
    pub placed: [bool; 48],
    pub order: [u8; 48],
    pub ends: [u16; 48],
    pub free: u16,
}

// What a search finds, and how many sequences it opened: the schedule, whose slots it wrote; that there is none; or that the budget is spent.
#[derive(Clone, Copy)]
pub enum Found {
    Schedule { openings: u32 },
    Nothing { openings: u32 },
    Spent { openings: u32 },
}

// The numbers that no job has.
fn absent(present: [bool; 48]) -> [bool; 48]
    ensures { result ≡ map not present }
{
    present.map(|p| !p)
}

// One more than the largest job number.
fn limit_of(jobs: &Jobs) -> usize
    ensures { (result ≡ limit_of jobs.now) × (result ≤ 48) }
{
    match jobs.present.iter().rposition(|p| *p) {
        Some(last) => last + 1,
        None => 0,
    }
}

// The search under a budget on a normal form, given as its jobs by number and, by number too, the links into each job: `into[k][i]` is one more than the latency
// of the link from i to k, 0 where there is none. The output has room for a slot of each job.
pub fn search(jobs: Jobs, into: &[[u16; 48]; 48], budget: u32, out: &mut [u8]) -> Found
    requires { 12 * length (present_in jobs) ≤ length out.old }
    ensures { (table : List JobRecord) → Sound table → jobs ≡ jobs_of table → into.now ≡ links_into table → Answers (searched table budget) result out.old out.new }
{
    let problem = Problem {
        jobs: &jobs,
        into,
        limit: limit_of(&jobs),
        count: count_jobs(jobs),
        budget,
    };
    let placed = absent(jobs.present);
    if !problem.rest_fits(&placed, None, 0) {
        return Found::Nothing { openings: 0 };
    }
    let begun = State {
        placed,
        order: [0; 48],
        ends: [0; 48],
        free: 0,
    };
    problem.open(begun, 0, 0, out)
}
