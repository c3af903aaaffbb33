// The jobs of a judged table in arrays by number, and its links in a square.
ghost use Rattle.std.specs.Prelude.{◌≡◌, List, [], ◌∷◌, ◌+◌, ◌<◌, max, get_or, set};
ghost use Rattle.records.specs.declared.JobRecord.{JobRecord};
ghost use Rattle.records.specs.declared.JobRecord.TheVariants.{J};
ghost use Rattle.jobs.specs.Call.{job_table};
ghost use Rattle.jobs.specs.Arrays.{jobs_of, links_of};

use crate::Jobs;
use records::{Job, JobRecord, Link};
use tables::judge::Judged;

// No jobs.
fn no_jobs() -> Jobs
    ensures { result ≡ jobs_of [] }
{
    Jobs {
        present: [false; 48],
        cost: [0; 48],
        release: [0; 48],
        deadline: [0; 48],
    }
}

// One job more.
fn add_job(jobs: &mut Jobs, job: Job)
    requires { job.number < 48 }
    ensures { (before : List JobRecord) → jobs.old ≡ jobs_of before → jobs.new ≡ jobs_of (J job ∷ before) }
{
    let number = usize::from(job.number);
    jobs.present[number] = true;
    jobs.cost[number] = job.cost;
    jobs.release[number] = job.release;
    jobs.deadline[number] = job.deadline;
}

// The jobs of a table.
pub fn load_jobs(judged: &Judged<JobRecord>) -> Jobs
    ensures { result ≡ jobs_of (job_table judged.now.table.bytes.now) }
{
    let mut jobs = no_jobs();
    for place in 0..judged.table.count() {
        if let JobRecord::J(job) = judged.table.at(place) {
            add_job(&mut jobs, job);
        }
    }
    jobs
}

// One link more in a row of them: the strongest counts.
fn add_link(row: &mut [u16; 48], link: Link)
    requires { (link.to < 48) × (link.latency < 65535) }
    ensures { row.new ≡ set row.old link.to (max (link.latency + 1) (get_or row.old link.to 0)) }
{
    let to = usize::from(link.to);
    row[to] = row[to].max(link.latency + 1);
}

// The square of the strongest links of a table.
pub fn load_links(judged: &Judged<JobRecord>) -> [[u16; 48]; 48]
    ensures { result ≡ links_of (job_table judged.now.table.bytes.now) }
{
    let mut links = [[0; 48]; 48];
    for place in 0..judged.table.count() {
        if let JobRecord::L(link) = judged.table.at(place) {
            add_link(&mut links[usize::from(link.from)], link);
        }
    }
    links
}
