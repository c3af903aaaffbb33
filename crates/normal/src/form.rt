// The normal form as the search takes it: its jobs by number, and the links that are written, by the job they lead to.
ghost use Rattle.std.specs.Prelude.{◌≡◌, List, map, ◌<◌};
ghost use Rattle.laws.specs.Lists.{count};
ghost use Rattle.records.specs.declared.JobRecord.{JobRecord};
ghost use Rattle.jobs.specs.Arrays.{jobs_of};
ghost use Rattle.normal.specs.Gaps.{Square, cell};
ghost use Rattle.normal.specs.Windows.{windows};
ghost use Rattle.normal.specs.Normal.{normal_form};
ghost use Rattle.normal.specs.Arrays.{Holds};
ghost use Rattle.normal.specs.Chosen.{EndsFit};

use crate::Windows;
use jobs::Jobs;
use std::array;

// The normal form's jobs: cost as it was, release = earliest start, deadline = latest start + cost.
pub fn tightened(jobs: Jobs, tight: Windows) -> Jobs
    requires { EndsFit jobs tight }
    ensures { (table : List JobRecord) (square : Square) → Holds table jobs square → tight ≡ windows table square → result ≡ jobs_of (normal_form table) }
{
    Jobs {
        present: jobs.present,
        cost: jobs.cost,
        release: tight.earliest,
        deadline: array::from_fn(|n| tight.latest[n] + jobs.cost[n]),
    }
}

// The links to job k, by from.
fn turned_row(links: &[[u16; 48]; 48], k: usize) -> [u16; 48]
    requires { k < 48 }
    ensures { result ≡ map (λ i. cell links.now i k) (count 0 48) }
{
    array::from_fn(|i| links[i][k])
}

// The links by to and then from, given by from and then to.
pub fn turned(links: [[u16; 48]; 48]) -> [[u16; 48]; 48]
    ensures { result ≡ map (λ k. map (λ i. cell links i k) (count 0 48)) (count 0 48) }
{
    let mut into = [[0; 48]; 48];
    for k in 0..48 {
        into[k] = turned_row(&links, k);
    }
    into
}
