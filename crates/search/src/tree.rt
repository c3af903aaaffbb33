// The tree of open sequences, gone through in the order of words.
ghost use Rattle.std.specs.Prelude.{◌≡◌, List, ℕ, ◌+◌, ◌*◌, ◌<◌, ◌≤◌, length};
ghost use Rattle.records.specs.Outcome.{overwrite};
ghost use Rattle.search.specs.State.{at, place_at, slots_in, HaveRun, given_of, opening, trying, openings_of, Answers};

use crate::problem::Problem;
use crate::{Found, State};
use records::Slot;
use records::write::write;

impl State {
    // The state with job k run next, at the place `depth`, until `end`.
    #[tactic(auto, unfolding(crate::specs::State::place_at))]
    fn place(&self, k: usize, end: u16, depth: usize) -> State
        requires { (k < 48) × (depth < 48) }
        ensures value { result ≡ place_at self.now k end depth }
        ensures by_index { (cost : List ℕ) → HaveRun cost self.now.order self.now.ends depth → at cost k ≤ end → HaveRun cost result.order result.ends (depth + 1) }
    {
        let mut next = *self;
        next.placed[k] = true;
        next.order[depth] = k as u8;
        next.ends[k] = end;
        next.free = end;
        next
    }
}

impl<'a> Problem<'a> {
    // The slots of all jobs in order, written from the start of the output on.
    #[tactic(auto, using(crate::proofs::SlotLaws::slots_laws))]
    fn write_slots(&self, s: &State, out: &mut [u8])
        requires room { 12 * self.now.count ≤ length out.old }
        requires have_run { HaveRun self.now.jobs.now.cost s.now.order s.now.ends self.now.count }
        ensures { out.new ≡ overwrite (slots_in self.now.jobs.now.cost s.now.order s.now.ends self.now.count) out.old }
    {
        for i in 0..self.count {
            let number = s.order[i];
            let k = usize::from(number);
            let end = s.ends[k];
            let start = end - self.jobs.cost[k];
            write(out, i, Slot { number, start, end });
        }
    }

    // Opens a sequence, with so many opened before it: counts it, unless the budget is spent; writes its slots, if it holds all jobs; else tries its next job.
    #[cycle(open_try_next)]
    pub fn open(&self, s: State, depth: usize, opened: u32, out: &mut [u8]) -> Found
        requires depth_in { depth ≤ self.now.count }
        requires within_budget { opened ≤ self.now.budget }
        requires room { 12 * self.now.count ≤ length out.old }
        requires have_run { HaveRun self.now.jobs.now.cost s.order s.ends depth }
        ensures openings_le_budget { openings_of result ≤ self.now.budget }
        ensures answers { Answers (opening (given_of self.now) self.now.budget s depth opened) result out.old out.new }
    {
        if opened == self.budget {
            return Found::Spent { openings: opened };
        }
        if depth == self.count {
            self.write_slots(&s, out);
            return Found::Schedule {
                openings: opened + 1,
            };
        }
        self.try_next(&s, 0, depth, opened + 1, out)
    }

    // Tries the jobs from `from` on as the next one: opens the sequence with the first of them that may come next, and then tries those after it.
    #[cycle(open_try_next)]
    fn try_next(&self, s: &State, from: usize, depth: usize, opened: u32, out: &mut [u8]) -> Found
        requires depth_in { depth < self.now.count }
        requires within_budget { opened ≤ self.now.budget }
        requires room { 12 * self.now.count ≤ length out.old }
        requires have_run { HaveRun self.now.jobs.now.cost s.now.order s.now.ends depth }
        ensures openings_le_budget { openings_of result ≤ self.now.budget }
        ensures answers { Answers (trying (given_of self.now) self.now.budget s.now depth from opened) result out.old out.new }
    {
        for k in from..self.limit {
            if let Some(end) = self.opens_at(s, k) {
                return match self.open(s.place(k, end, depth), depth + 1, opened, out) {
                    Found::Nothing { openings } => self.try_next(s, k + 1, depth, openings, out),
                    found => found,
                };
            }
        }
        Found::Nothing { openings: opened }
    }
}
