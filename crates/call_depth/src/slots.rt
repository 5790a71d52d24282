// The slots of a function: what they call, and the words of the rows that they call.
ghost use Rattle.std.specs.Prelude.{◌≡◌, ◌≤◌, ◌<◌, length};
ghost use Rattle.ebpf.specs.Instructions.{insn_at};
ghost use Rattle.call_graph.specs.Marks.{Slots, always};
ghost use Rattle.call_depth.specs.Called.{callee_by, callee_in, Calls, slots_in, Scanned};

use crate::profile::Profile;
use ebpf::{CALL_IMM, Insn, get_insn};
use loader::calls_key;
use program::row_ascending;

// In the word of a row whose depth is not known yet.
// Kept: bits and no enum. The caller lends one number a row, since memory is fixed; it holds the depth, or the end of
// the function's slots with these two.
pub(crate) const FLAG: u32 = 0x8000_0000;

pub(crate) const MARK: u32 = 0x4000_0000;

pub(crate) const BOTH: u32 = 0xc000_0000;

// Marks a row that is neither settled nor marked: whether it is newly marked.
#[tactic(auto, using(call_graph::proofs::Marking::row_kept))]
fn mark_row(work: &mut [u32], r: usize) -> bool
    requires { r < length work.old }
    ensures { Slots (always r) 0 1 1 work.old work.new result }
{
    let word = work[r];
    if word < FLAG {
        return false;
    }
    if BOTH <= word {
        return false;
    }
    work[r] = word + MARK;
    true
}

impl Profile<'_> {
    #[tactic(auto, using(ebpf::specs::Choice::choices))]
    fn callee_by(self, slot: Option<Insn>) -> Option<usize>
        ensures { result ≡ callee_by self.entry.keys.now self.entry.version2 slot }
    {
        match slot {
            Some(insn) if calls_key(self.version2, insn) => row_ascending(
                self.keys,
                self.keys.len(),
                insn.imm,
            ),
            _ => None,
        }
    }

    // The row that a slot calls, if it calls one. Most slots are no call, which the opcode says.
    #[tactic(auto, using(crate::proofs::Entries::no_call, crate::proofs::Entries::calls_row))]
    fn callee_of(self, s: usize) -> Option<usize>
        requires { s < slots_in self.text.now }
        ensures { Calls (callee_in self.entry.text.now self.entry.keys.now self.entry.version2) (length self.entry.keys.now) s result }
    {
        if self.text[8 * s] != CALL_IMM {
            return None;
        }
        self.callee_by(get_insn(self.text, s))
    }

    // 1 and the largest depth of the rows called, or the first that is not settled.
    #[tactic(auto, using(call_graph::proofs::Scans::over_start, call_graph::proofs::Scans::over_next, call_graph::proofs::Scans::over_past, call_graph::proofs::Scans::scan_stop, call_graph::proofs::Scans::scan_end))]
    pub(crate) fn depth_over(self, work: &[u32], from: usize, end: usize) -> Result<u32, usize>
        requires { (end ≤ slots_in self.text.now) × (length work.now ≡ length self.indices.now) }
        ensures { Scanned (callee_in self.entry.text.now self.entry.keys.now self.entry.version2) (length self.entry.keys.now) work.now from end result }
    {
        let mut most = 0;
        for s in from..end {
            let Some(r) = self.callee_of(s) else {
                continue;
            };
            let d = work[r];
            if FLAG <= d {
                return Err(r);
            }
            most = most.max(d);
        }
        Ok(most + 1)
    }

    // Marks what some slots call: whether a row is newly marked.
    #[tactic(auto, using(call_graph::proofs::Marking::slots_start, call_graph::proofs::Marking::slots_next, call_graph::proofs::Marking::slots_past, call_graph::proofs::Marking::slots_end))]
    pub(crate) fn mark_slots(self, work: &mut [u32], from: usize, end: usize) -> bool
        requires { (end ≤ slots_in self.text.now) × (length work.old ≡ length self.indices.now) }
        ensures { Slots (callee_in self.entry.text.now self.entry.keys.now self.entry.version2) from end end work.old work.new result }
    {
        let mut more = false;
        for s in from..end {
            let Some(r) = self.callee_of(s) else {
                continue;
            };
            more |= mark_row(work, r);
        }
        more
    }
}
