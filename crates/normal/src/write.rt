// The records of the normal form, counted and written: the jobs by number, and the links straight after the last job.
ghost use Rattle.std.specs.Prelude.{◌≡◌, ◌==◌, not, map, ◌++◌, ◌+◌, ◌*◌, ◌≤◌, ◌<◌, length, count_by, slice_index};
ghost use Rattle.laws.specs.Lists.{count};
ghost use Rattle.std.proofs.Math.Seq.{paste};
ghost use Rattle.records.specs.Record.{job_bytes};
ghost use Rattle.records.specs.Table.{encode};
ghost use Rattle.records.specs.Outcome.{overwrite};
ghost use Rattle.records.specs.declared.JobRecord.TheVariants.{J, L};
ghost use Rattle.normal.specs.Chosen.{present_in, jobs_in, EndsFit, row_links, links_in};

use crate::Windows;
use jobs::Jobs;
use records::write::write;
use records::{Job, JobRecord, Link};

// How many jobs there are.
pub fn count_jobs(jobs: Jobs) -> usize
    ensures { (result ≤ 48) × (result ≡ length (present_in jobs)) }
{
    jobs.present.iter().filter(|present| **present).count()
}

// How many links a row holds: a cell that is not 0 holds one.
fn count_row(row: &[u16; 48]) -> usize
    ensures upper_bound { result ≤ 48 }
    ensures value { result ≡ count_by (λ j. not (slice_index row.now j == 0)) (count 0 48) }
{
    let mut count = 0;
    for cell in row {
        if *cell != 0 {
            count += 1;
        }
    }
    count
}

// How many links are written.
pub fn count_links(links: [[u16; 48]; 48]) -> usize
    ensures { (result ≤ 2304) × (result ≡ length (links_in links)) }
{
    links.iter().map(count_row).sum()
}

// The jobs, from the start of the output on.
fn write_jobs(out: &mut [u8], jobs: &Jobs, windows: &Windows)
    requires { EndsFit jobs.now windows.now × (12 * length (present_in jobs.now) ≤ length out.old) }
    ensures { out.new ≡ overwrite (encode job_bytes (map J (jobs_in jobs.now windows.now))) out.old }
{
    let mut place = 0;
    for n in 0..48 {
        if jobs.present[n] {
            let cost = jobs.cost[n];
            let job = Job {
                number: n as u8,
                cost,
                release: windows.earliest[n],
                deadline: windows.latest[n] + cost,
            };
            write(out, place, JobRecord::J(job));
            place += 1;
        }
    }
}

// The links from job i, from a place on: the place after them.
fn write_row(out: &mut [u8], first: usize, links: &[[u16; 48]; 48], i: usize) -> usize
    requires { (i < 48) × (12 * (first + length (row_links links.now i)) ≤ length out.old) }
    ensures value { result ≡ first + length (row_links links.now i) }
    ensures out_after { out.new ≡ paste out.old (12 * first) (encode job_bytes (map L (row_links links.now i))) (12 * length (map L (row_links links.now i))) }
{
    let mut place = first;
    for j in 0..48 {
        let cell = links[i][j];
        if cell != 0 {
            let link = Link {
                from: i as u8,
                to: j as u8,
                latency: cell - 1,
            };
            write(out, place, JobRecord::L(link));
            place += 1;
        }
    }
    place
}

// The links, from the start of the writer's own part of the output on.
fn write_links(out: &mut [u8], links: &[[u16; 48]; 48])
    requires { 12 * length (links_in links.now) ≤ length out.old }
    ensures { out.new ≡ overwrite (encode job_bytes (map L (links_in links.now))) out.old }
{
    let mut place = 0;
    for i in 0..48 {
        place = write_row(out, place, links, i);
    }
}

// The whole normal form: links follow straight after the last job record.
pub fn write_normal(out: &mut [u8], jobs: Jobs, windows: Windows, links: [[u16; 48]; 48])
    requires { EndsFit jobs windows × (12 * (length (present_in jobs) + length (links_in links)) ≤ length out.old) }
    ensures { out.new ≡ overwrite (encode job_bytes (map J (jobs_in jobs windows) ++ map L (links_in links))) out.old }
{
    let middle = 12 * count_jobs(jobs);
    write_jobs(out, &jobs, &windows);
    write_links(&mut out[middle..], &links);
}
