// The smallest index of a function that is reached and reaches itself. The rows that may are left with
// the end of their slots in their words; the others are given up, with 0.
ghost use Rattle.std.specs.Prelude.{◌≡◌, ◌+◌, ◌≤◌, ◌<◌, length, get_or};
ghost use Rattle.call_graph.specs.Ways.{Smallest};
ghost use Rattle.call_graph.specs.Profile.{CallsFunction, nth_of};
ghost use Rattle.call_graph.specs.Marks.{Short, bare, keep, Each, Plain, Open, Tested, Lowest, Kept};
ghost use Rattle.call_graph.specs.Words.{FLAG};
ghost use Rattle.call_depth.specs.Called.{profile_now, profile_of, slots_in};

use crate::profile::Profile;
use crate::slots::{BOTH, FLAG, MARK};

#[tactic(auto, using(ebpf::specs::Choice::choices))]
fn bare(word: u32) -> u32
    ensures { result ≡ bare 0 word }
{
    if BOTH <= word { word - MARK } else { word }
}

// Takes all marks off.
#[tactic(auto, using(call_graph::proofs::Least::each_start, call_graph::proofs::Least::each_next))]
fn unmark(work: &mut [u32])
    ensures { Each bare (length work.old) work.old work.new }
{
    for word in work.iter_mut() {
        *word = bare(*word);
    }
}

#[tactic(auto, using(ebpf::specs::Choice::choices))]
fn kept(word: u32, r: usize, entry: usize) -> u32
    ensures { result ≡ keep entry r word }
{
    if BOTH <= word {
        return word - MARK;
    }
    if word < FLAG {
        return word;
    }
    if r == entry {
        return word;
    }
    0
}

// Takes all marks off, and gives up the rows that had none, but for the entry.
#[tactic(auto, using(call_graph::proofs::Least::each_start, call_graph::proofs::Least::each_next))]
fn keep_marked(work: &mut [u32], entry: usize)
    ensures { Each (keep entry) (length work.old) work.old work.new }
{
    for (r, word) in work.iter_mut().enumerate() {
        *word = kept(*word, r, entry);
    }
}

// Row `r`, or `best`, whichever is left and has the smaller index.
// Kept: `indices.len()` is no row. An Option is no plainer: `smallest`, where a row is always left, would
// have an arm for none, and here `best` would still have to be tested before its index is read.
#[tactic(auto, using(call_graph::proofs::Least::lowest_settled, call_graph::proofs::Least::lowest_kept, call_graph::proofs::Least::lowest_new))]
fn lower(work: &[u32], indices: &[u32], best: usize, r: usize) -> usize
    requires { (length work.now ≡ length indices.now) × (r < length indices.now) }
    ensures { Lowest (length indices.now) (nth_of indices.now) work.now r best → Lowest (length indices.now) (nth_of indices.now) work.now (r + 1) result }
{
    if work[r] < FLAG {
        return best;
    }
    if indices.len() <= best {
        return r;
    }
    if indices[best] <= indices[r] {
        return best;
    }
    r
}

// The row of the smallest index of those that are left.
#[tactic(auto, using(call_graph::proofs::Least::lowest_start))]
fn lowest(work: &[u32], indices: &[u32]) -> usize
    requires { length work.now ≡ length indices.now }
    ensures { Lowest (length indices.now) (nth_of indices.now) work.now (length indices.now) result }
{
    let mut best = indices.len();
    for r in 0..indices.len() {
        best = lower(work, indices, best, r);
    }
    best
}

// How many rows are left.
fn rows_left(work: &[u32]) -> usize {
    work.iter().filter(|word| FLAG <= **word).count()
}

impl Profile<'_> {
    // The word of row `r` once all that it calls, and so on, is marked.
    #[tactic(auto, using(call_graph::proofs::Least::plain_begun))]
    fn marks_itself(self, work: &mut [u32], r: usize) -> u32
        requires { Plain (profile_now self) (slots_in self.text.now) work.old × (r < length self.indices.now) × (FLAG ≤ get_or work.old r 0) }
        ensures { Tested (profile_of self) r work.old work.new result }
    {
        self.mark_all(work, r);
        let word = work[r];
        unmark(work);
        word
    }

    // The smallest index of the rows that reach themselves. One that does not is given up.
    fn smallest(self, work: &mut [u32], entry: usize) -> u32
        requires { Kept (profile_now self) (slots_in self.text.now) entry work.old }
        ensures { Smallest (CallsFunction (profile_of self)) (get_or self.entry.indices.now entry 0) result }
    {
        // Kept: the contract needs a row that reaches itself; for a `for` that one comes within so many turns would
        // have to be proved besides.
        loop {
            let r = lowest(work, self.indices);
            let seen = self.marks_itself(work, r);
            if BOTH <= seen {
                return self.indices[r];
            }
            work[r] = 0;
        }
    }

    // Gives up the rows that no row which is left calls.
    fn peel_once(self, work: &mut [u32], entry: usize)
        requires { Open (profile_now self) (slots_in self.text.now) entry work.old }
        ensures { Open (profile_of self) (slots_in self.entry.text.now) entry work.new }
    {
        self.mark_callees(work);
        keep_marked(work, self.indices.len());
    }

    // The same again and again, while it gives rows up.
    fn peel(self, work: &mut [u32], entry: usize)
        requires { Open (profile_now self) (slots_in self.text.now) entry work.old }
        ensures { Open (profile_of self) (slots_in self.entry.text.now) entry work.new }
    {
        let mut left = rows_left(work);
        for _ in 0..self.indices.len() {
            self.peel_once(work, entry);
            let now = rows_left(work);
            if now == left {
                return;
            }
            left = now;
        }
    }

    // The smallest index that row `entry` reaches and that reaches itself, where no more rows can be
    // settled.
    #[tactic(auto, using(call_graph::proofs::Least::short_begun))]
    pub(crate) fn recursive(self, work: &mut [u32], entry: usize) -> u32
        requires { Short (profile_now self) (slots_in self.text.now) entry work.old }
        ensures { Smallest (CallsFunction (profile_of self)) (get_or self.entry.indices.now entry 0) result }
    {
        self.mark_all(work, entry);
        keep_marked(work, entry);
        self.peel(work, entry);
        self.smallest(work, entry)
    }
}
