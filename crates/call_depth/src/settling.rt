// The depths of functions, pass by pass: a row is settled when all that it calls is.
ghost use Rattle.std.specs.Prelude.{◌≡◌, ◌≤◌, ◌<◌, ltb, length, get_or};
ghost use Rattle.ebpf.specs.Choice.{◌if◌else◌};
ghost use Rattle.call_graph.specs.Profile.{next_above};
ghost use Rattle.call_graph.specs.Marks.{Each};
ghost use Rattle.call_graph.specs.Words.{FLAG, Good, unsettled, WordsReady, RowTried, Passing, Stopped};
ghost use Rattle.call_depth.specs.Called.{profile_now, profile_of, slots_in, WorkLent, Tried};

use crate::profile::Profile;
use crate::slots::FLAG;

// How many rows that wait for another are remembered.
const WAITING: usize = 1024;

// An index above `i`, or the largest number.
#[tactic(auto, using(ebpf::specs::Choice::choices))]
fn above(i: u32, x: u32) -> u32
    ensures { result ≡ (x if ltb i x else 0xffff_ffff) }
{
    if i < x { x } else { u32::MAX }
}

// The smallest index above `i`, or `count`. By `min`, which the processor does of several numbers at once.
#[tactic(auto, using(call_graph::proofs::Ends::next_turn, call_graph::proofs::Ends::next_end))]
fn end_of(indices: &[u32], i: u32, count: u32) -> u32
    ensures { result ≡ next_above i count indices.now }
{
    let mut best = count;
    for index in indices {
        best = best.min(above(i, *index));
    }
    best
}

impl Profile<'_> {
    // No row is settled yet: each word holds the end of its function's slots.
    #[tactic(auto, using(call_graph::proofs::Least::each_start, call_graph::proofs::Least::each_next, call_graph::proofs::Ends::next_within))]
    fn prepare(self, work: &mut [u32])
        requires { WorkLent self.text.now self.indices.now work.old }
        ensures { Each (unsettled (profile_of self)) (length self.entry.indices.now) work.old work.new }
    {
        let count = (self.text.len() / 8) as u32;
        for (r, word) in work.iter_mut().enumerate() {
            *word = FLAG + end_of(self.indices, self.indices[r], count);
        }
    }

    // Tries row `r`, which is not settled: none where it is now, else a row that it waits for.
    #[tactic(auto, using(call_graph::proofs::Settling::tried_zero, call_graph::proofs::Settling::tried_some, call_graph::proofs::Settling::end_within))]
    fn settle_row(self, work: &mut [u32], r: usize) -> Option<usize>
        requires { WordsReady (profile_now self) (slots_in self.text.now) work.old × (r < length self.indices.now) × (FLAG ≤ get_or work.old r 0) }
        ensures { Tried (profile_of self) work.old work.new r result }
    {
        let from = self.indices[r] as usize;
        let end = (work[r] - FLAG) as usize;
        match self.depth_over(work, from, end) {
            Ok(d) => {
                work[r] = d;
                None
            }
            Err(called) => Some(called),
        }
    }

    // Tries row `r`: whether it is newly settled.
    #[tactic(auto, using(call_graph::proofs::Settling::tried_kept))]
    fn settle_one(self, work: &mut [u32], r: usize) -> bool
        requires { WordsReady (profile_now self) (slots_in self.text.now) work.old × (r < length self.indices.now) }
        ensures { RowTried (profile_of self) work.old work.new r result }
    {
        if work[r] < FLAG {
            return false;
        }
        self.settle_row(work, r).is_none()
    }

    // From row `entry` on, first what a row waits for, then the row, as far as the last 1,024 rows that wait are
    // remembered: whether the way ends, which it does not in a circle.
    // A way that ends takes at most three steps a row: each settles a row, or goes to one that is called, and of the
    // latter no more stand open than there are rows.
    // Each try goes through a row's slots anew, as often as it waits for another row. So the way is given up where its
    // tries would go through more than eight slots for each that there is: a function that calls many others one
    // by one is left to the passes, which go through it once a pass.
    // Kept: an array with its place and its count beside it. There is no heap, and std's rings stand on it.
    fn settle_from(self, work: &mut [u32], entry: usize) -> bool
        requires { WordsReady (profile_now self) (slots_in self.text.now) work.old × (entry < length self.indices.now) }
        ensures { Good (profile_of self) work.new }
    {
        let mut waiting = [0u32; WAITING];
        let mut held = 0;
        let mut at = 0;
        let mut row = entry;
        let mut left = self.text.len();
        for _ in 0..3 * self.indices.len() {
            if FLAG <= work[row] {
                let end = (work[row] - FLAG) as usize;
                let slots = end.saturating_sub(self.indices[row] as usize);
                if left < slots {
                    return false;
                }
                left -= slots;
                if let Some(called) = self.settle_row(work, row) {
                    waiting[at] = row as u32;
                    at = (at + 1) % WAITING;
                    held = WAITING.min(held + 1);
                    row = called;
                    continue;
                }
            }
            if held == 0 {
                return true;
            }
            held -= 1;
            at = (at + WAITING - 1) % WAITING;
            row = waiting[at] as usize;
        }
        false
    }

    // The same again while row `entry` is not settled, since rows that wait may have been forgotten.
    fn settle_down(self, work: &mut [u32], entry: usize)
        requires { WordsReady (profile_now self) (slots_in self.text.now) work.old × (entry < length self.indices.now) }
        ensures { Good (profile_of self) work.new }
    {
        for _ in 0..self.indices.len() {
            if work[entry] < FLAG {
                return;
            }
            if !self.settle_from(work, entry) {
                return;
            }
        }
    }

    // Tries each row once: whether one is newly settled.
    #[tactic(auto, using(call_graph::proofs::Settling::passing_start, call_graph::proofs::Settling::passing_next))]
    fn settle_pass(self, work: &mut [u32]) -> bool
        requires { WordsReady (profile_now self) (slots_in self.text.now) work.old }
        ensures { Passing (profile_of self) work.old work.new (length self.entry.indices.now) result }
    {
        let mut more = false;
        for r in 0..self.indices.len() {
            more |= self.settle_one(work, r);
        }
        more
    }

    // Passes until one settles nothing, or row `entry` is settled.
    #[tactic(auto, using(call_graph::proofs::Settling::stopped_still, call_graph::proofs::Settling::stopped_settled))]
    fn settle_all(self, work: &mut [u32], entry: usize)
        requires { WordsReady (profile_now self) (slots_in self.text.now) work.old × (entry < length self.indices.now) }
        ensures { Stopped (profile_of self) entry work.new }
    {
        // Kept: the contract needs the pass that settles nothing new, or the row; for a `for` that it is reached within
        // so many passes would have to be proved besides.
        while FLAG <= work[entry] {
            if !self.settle_pass(work) {
                return;
            }
        }
    }

    // Settles rows until row `entry` is settled, or no more can be: from that row on, and in passes where the way did
    // not end.
    pub(crate) fn settle(self, work: &mut [u32], entry: usize)
        requires { WorkLent self.text.now self.indices.now work.old × (entry < length self.indices.now) }
        ensures { Stopped (profile_of self) entry work.new }
    {
        self.prepare(work);
        self.settle_down(work, entry);
        self.settle_all(work, entry);
    }
}
