// Scheduling a job table.
ghost use Rattle.std.specs.Prelude.{◌≡◌, length};
ghost use Rattle.search.specs.State.{number_of, openings_of};
ghost use Rattle.search.specs.Call.{scheduled};
ghost use Rattle.argilosco.specs.Promise.{SchedulePromise};
ghost use Rattle.argilosco.specs.Answer.{Schedules};

use crate::Scheduled;
use crate::hold::hold;
use normal::choose::choose;
use normal::form::{tightened, turned};
use normal::tighten::windows;
use normal::write::count_jobs;
use records::refusal::Refusal;
use search::{Found, search};

// What the call answers once it has searched: the search's number and openings, and the room for the slots where they were written.
fn answered(found: Found, room: u32) -> Scheduled
    ensures number { result.number ≡ number_of found }
    ensures openings { result.openings ≡ openings_of found }
    ensures written { number_of found ≡ 0 → result.written ≡ room }
    ensures nothing_written { (number_of found ≡ 0 → ⊥) → result.written ≡ 0 }
{
    let (number, written, openings) = match found {
        Found::Schedule { openings } => (0, room, openings),
        Found::Nothing { openings } => (10, 0, openings),
        Found::Spent { openings } => (11, 0, openings),
    };
    Scheduled {
        number,
        written,
        openings,
    }
}

// What a search of the table's normal form answers, its slots written to the start of the output. It is begun only where there is room for a slot of each job.
fn schedule(jobs: &[u8], budget: u32, out: &mut [u8]) -> Result<Scheduled, Refusal>
    ensures { Schedules (scheduled jobs.now budget (length out.old)) out.old result out.new }
{
    let mut square = [[0; 48]; 48];
    let held = hold(jobs, &mut square)?;
    let room = 12 * count_jobs(held);
    if out.len() < room {
        return Err(Refusal::NoRoom);
    }
    let tight = windows(held, square);
    let into = turned(choose(held, tight, square));
    let found = search(tightened(held, tight), &into, budget, out);
    Ok(answered(found, room as u32))
}

// The table's schedule, written to the start of the output; or the lowest of 1 to 5 and 7 to 11 that holds, and nothing written.
pub fn argilosco_schedule(jobs: &[u8], budget: u32, out: &mut [u8]) -> Scheduled
    ensures { SchedulePromise jobs.now budget out.old result out.new }
{
    Scheduled::from(schedule(jobs, budget, out))
}
