// Marks on rows that are not settled: what a row calls, and so on.
ghost use Rattle.std.specs.Prelude.{◌≡◌, ◌≤◌, ◌<◌, length, get_or};
ghost use Rattle.call_graph.specs.Marks.{end_in, Shaped, Followed, Begun, Circled, Spread, Spot, Spotted, CallsMarked};
ghost use Rattle.call_graph.specs.Words.{FLAG};
ghost use Rattle.call_depth.specs.Called.{profile_now, profile_of, slots_in};

use crate::profile::Profile;
use crate::slots::{BOTH, FLAG};

// The end of a row's slots, in its word.
#[tactic(auto, using(ebpf::specs::Choice::choices))]
fn end_in(word: u32) -> u32
    requires { FLAG ≤ word }
    ensures { result ≡ end_in word }
{
    if BOTH <= word {
        word - BOTH
    } else {
        word - FLAG
    }
}

impl Profile<'_> {
    // Marks what row `r` calls: whether a row is newly marked.
    fn mark_calls(self, work: &mut [u32], r: usize) -> bool
        requires { Shaped (profile_now self) (slots_in self.text.now) work.old × (r < length self.indices.now) × (FLAG ≤ get_or work.old r 0) }
        ensures { CallsMarked (profile_of self) r work.old work.new result }
    {
        let from = self.indices[r] as usize;
        let end = end_in(work[r]) as usize;
        self.mark_slots(work, from, end)
    }

    // Where row `r` is marked, marks what it calls: whether a row is newly marked.
    #[tactic(auto, using(call_graph::proofs::Marking::not_followed, call_graph::proofs::Marking::followed))]
    fn mark_one(self, work: &mut [u32], r: usize) -> bool
        requires { Shaped (profile_now self) (slots_in self.text.now) work.old × (r < length self.indices.now) }
        ensures { Followed (profile_of self) r work.old work.new result }
    {
        if work[r] < BOTH {
            return false;
        }
        self.mark_calls(work, r)
    }

    // Each row that is marked marks what it calls, and so does row `b`: whether a row is newly marked.
    #[tactic(auto, using(call_graph::proofs::Marking::round_start, call_graph::proofs::Marking::shaped_kept, call_graph::proofs::Marking::begun_kept))]
    fn mark_pass(self, work: &mut [u32], b: usize) -> bool
        requires { Begun (profile_now self) (slots_in self.text.now) b work.old }
        ensures { Circled (profile_of self) b work.old work.new result }
    {
        let mut more = false;
        for r in 0..self.indices.len() {
            more |= self.mark_one(work, r);
        }
        more | self.mark_calls(work, b)
    }

    // Marks all that row `b` calls, and so on.
    #[tactic(auto, using(call_graph::proofs::Marking::grown_same, call_graph::proofs::Marking::round_done))]
    pub(crate) fn mark_all(self, work: &mut [u32], b: usize)
        requires { Begun (profile_now self) (slots_in self.text.now) b work.old }
        ensures { Spread (profile_of self) b work.old work.new }
    {
        // Kept: the contract needs the pass that marks nothing new; for a `for` that it is reached within so many
        // passes would have to be proved besides.
        while self.mark_pass(work, b) {}
    }

    // Where row `r` is not settled, marks what it calls.
    #[tactic(auto, using(call_graph::proofs::Marking::spot_none, call_graph::proofs::Marking::spot_some))]
    fn mark_called(self, work: &mut [u32], r: usize)
        requires { Shaped (profile_now self) (slots_in self.text.now) work.old × (r < length self.indices.now) }
        ensures { Spot (profile_of self) r work.old work.new }
    {
        if work[r] < FLAG {
            return;
        }
        self.mark_calls(work, r);
    }

    // Marks what the rows that are not settled call.
    #[tactic(auto, using(call_graph::proofs::Marking::spotted_start, call_graph::proofs::Marking::spotted_next, call_graph::proofs::Marking::shaped_kept))]
    pub(crate) fn mark_callees(self, work: &mut [u32])
        requires { Shaped (profile_now self) (slots_in self.text.now) work.old }
        ensures { Spotted (profile_of self) (length self.entry.indices.now) work.old work.new }
    {
        for r in 0..self.indices.len() {
            self.mark_called(work, r);
        }
    }
}
