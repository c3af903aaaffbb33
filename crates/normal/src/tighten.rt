// The windows of the jobs: refusal 8, and each job's earliest and latest permitted start, from a square of gaps without a ring.
ghost use Rattle.std.specs.Prelude.{◌≡◌, ℕ, List, ◌+◌, ◌≤◌, ◌<◌, ltb};
ghost use Rattle.records.specs.declared.JobRecord.{JobRecord};
ghost use Rattle.jobs.specs.Jobs.{cost, deadline};
ghost use Rattle.jobs.specs.Arrays.{jobs_of};
ghost use Rattle.normal.specs.Gaps.{cell};
ghost use Rattle.normal.specs.Windows as windows;
ghost use Rattle.normal.specs.Arrays.{ceiling, Within, Holds};

use crate::Windows;
use jobs::Jobs;
use std::array;

// A time and the gap after it, and 0 where there is none.
fn after(time: u16, gap: u32) -> u32
    requires { gap ≤ ceiling }
    ensures upper_bound { result < 131072 }
    ensures value { result ≡ windows.after time gap }
{
    if gap == 0 { 0 } else { u32::from(time) + gap }
}

// A time less the gap before it, no less than 0, and another time where there is none.
fn before(other: u16, time: u16, gap: u32) -> u16
    requires { gap ≤ ceiling }
    ensures { result ≡ windows.before other time gap }
{
    if gap == 0 {
        other
    } else {
        time.saturating_sub(gap as u16)
    }
}

// The jobs of a table and the square of the gaps between them.
#[derive(Clone, Copy)]
struct SpacedJobs<'a> {
    jobs: &'a Jobs,
    square: &'a [[u32; 48]; 48],
    ghost within: { (i j : ℕ) → cell square.now i j ≤ ceiling },
}

impl SpacedJobs<'_> {
    // The earliest permitted start of job j: its release, and each release of a job that leads to it with the gap between them.
    fn earliest_of(&self, j: usize) -> u32
        requires { j < 48 }
        ensures upper_bound { result < 131072 }
        ensures value { (table : List JobRecord) → self.now.jobs.now ≡ jobs_of table → result ≡ windows.earliest_of table self.now.square.now j }
    {
        let mut earliest = u32::from(self.jobs.release[j]);
        for i in 0..48 {
            if self.jobs.present[i] {
                earliest = earliest.max(after(self.jobs.release[i], self.square[i][j]));
            }
        }
        earliest
    }

    // Job j cannot end by its deadline, even from its earliest start.
    fn late(&self, j: usize) -> bool
        requires { j < 48 }
        ensures { (table : List JobRecord) → self.now.jobs.now ≡ jobs_of table → result ≡ ltb (deadline table j) (windows.earliest_of table self.now.square.now j + cost table j) }
    {
        u32::from(self.jobs.deadline[j]) < self.earliest_of(j) + u32::from(self.jobs.cost[j])
    }

    // The last start by which job j ends by its deadline, no less than 0.
    fn last_start(&self, j: usize) -> u16
        requires { j < 48 }
        ensures { (table : List JobRecord) → self.now.jobs.now ≡ jobs_of table → result ≡ windows.last_start table j }
    {
        self.jobs.deadline[j].saturating_sub(self.jobs.cost[j])
    }

    // The latest permitted start of job j: its last start, and that of each job it leads to, less the gap between them.
    fn latest_of(&self, j: usize) -> u16
        requires { j < 48 }
        ensures { (table : List JobRecord) → self.now.jobs.now ≡ jobs_of table → result ≡ windows.latest_of table self.now.square.now j }
    {
        let own = self.last_start(j);
        let mut latest = own;
        for k in 0..48 {
            if self.jobs.present[k] {
                latest = latest.min(before(own, self.last_start(k), self.square[j][k]));
            }
        }
        latest
    }
}

// 8: no start times meet windows and links, even with overlap allowed.
pub fn no_starts(jobs: Jobs, square: [[u32; 48]; 48]) -> bool
    requires { Within ceiling square }
    ensures { (table : List JobRecord) → jobs ≡ jobs_of table → result ≡ windows.no_starts table square }
{
    let spaced = SpacedJobs {
        jobs: &jobs,
        square: &square,
    };
    (0..48).any(|j| jobs.present[j] && spaced.late(j))
}

// The windows of all jobs.
pub fn windows(jobs: Jobs, square: [[u32; 48]; 48]) -> Windows
    requires { (table : List JobRecord) × Holds table jobs square }
    ensures { (table : List JobRecord) → Holds table jobs square → result ≡ windows.windows table square }
{
    let spaced = SpacedJobs {
        jobs: &jobs,
        square: &square,
    };
    Windows {
        earliest: array::from_fn(|j| spaced.earliest_of(j) as u16),
        latest: array::from_fn(|j| spaced.latest_of(j)),
    }
}
