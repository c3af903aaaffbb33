// The test for live: when a job could start next, and whether the jobs that remain fit after it.
ghost use Rattle.std.specs.Prelude.{◌≡◌, ◌<◌, IfSome};
ghost use Rattle.search.specs.State.{given_of, start_next, fits_after, rest_after, number_or_none, next_at};

use crate::State;
use crate::problem::Problem;

impl<'a> Problem<'a> {
    // When job k may start that could start at `first` but for its links: not yet, if a job that it is linked from has not run.
    #[tactic(auto, using(crate::proofs::FitLaws::start_laws))]
    fn start_after(&self, s: &State, k: usize, first: u32) -> Option<u32>
        requires { (k < 48) × (first < 131072) }
        ensures value { result ≡ start_next (given_of self.now) s.now k first }
        ensures start_below { IfSome result (λ start. start < 131072) }
    {
        let mut start = first;
        for i in 0..self.limit {
            let link = u32::from(self.into[k][i]);
            if link != 0 {
                if !s.placed[i] {
                    return None;
                }
                start = start.max(u32::from(s.ends[i]) + (link - 1));
            }
        }
        Some(start)
    }

    // Job m, run by itself, fits after the time t.
    #[tactic(auto, unfolding(crate::specs::State::fits_after))]
    fn fits_alone(&self, t: u32, m: usize) -> bool
        requires { (m < 48) × (t < 65536) }
        ensures { result ≡ fits_after self.now.jobs.now.cost self.now.jobs.now.release self.now.jobs.now.deadline t m }
    {
        t.max(u32::from(self.jobs.release[m])) + u32::from(self.jobs.cost[m])
            <= u32::from(self.jobs.deadline[m])
    }

    // The jobs that remain after the last one, if there is one, fit after the time t: each by itself, and all together.
    // Costs are above 0, so that their sum is 0 where none remain.
    #[tactic(auto, using(crate::proofs::FitLaws::rest_laws), unfolding(crate::specs::State::together_after))]
    pub fn rest_fits(&self, placed: &[bool; 48], last_job: Option<usize>, t: u32) -> bool
        requires { t < 65536 }
        ensures { result ≡ rest_after (given_of self.now) placed.now (number_or_none last_job) t }
    {
        let mut costs = 0u32;
        let mut last = 0u32;
        for m in 0..self.limit {
            if last_job != Some(m) && !placed[m] {
                if !self.fits_alone(t, m) {
                    return false;
                }
                costs += u32::from(self.jobs.cost[m]);
                last = last.max(u32::from(self.jobs.deadline[m]));
            }
        }
        costs == 0 || t + costs <= last
    }

    // When job k ends, if it may come next and what it makes of the sequence is live.
    #[tactic(auto, unfolding(crate::specs::State::opens_at, crate::specs::State::ends_at))]
    pub fn opens_at(&self, s: &State, k: usize) -> Option<u16>
        requires { k < 48 }
        ensures { result ≡ next_at (given_of self.now) s.now k }
    {
        if s.placed[k] {
            return None;
        }
        let first = u32::from(s.free).max(u32::from(self.jobs.release[k]));
        let start = self.start_after(s, k, first)?;
        let end = start + u32::from(self.jobs.cost[k]);
        if u32::from(self.jobs.deadline[k]) < end {
            return None;
        }
        if !self.rest_fits(&s.placed, Some(k), end) {
            return None;
        }
        Some(end as u16)
    }
}
