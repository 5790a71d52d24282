// Local calls: each slot of the text that calls another slot, read in the file before any relocation.
ghost use Rattle.std.specs.Prelude.{◌≡◌, ◌+◌, ◌-◌, ◌*◌, ◌%◌, ◌≤◌, ◌<◌, ◌^◌, min, eqb, length, get_or, set};
ghost use Rattle.program.specs.declared.FunctionName.TheVariants.{OfIndex};
ghost use Rattle.loader.specs.Functions.{row_for};
ghost use Rattle.loader.specs.Calls.{inside, target, calls_key, is_local_call, call_of, call_at, text_of, slot_count, slot_trace, calls_trace, next_call, Among};
ghost use Rattle.loader.specs.CallLoop.{TargetAsks, Targets, StillAlike, target_row, SlotAsks, StillHeld, SlotsAsk, SlotsLead};
ghost use Rattle.loader.specs.InnerContracts.{Keeps, SettlesTo, FirstAsks};

use crate::deeds::{Outputs, store_u32};
use crate::error::ElfError;
use crate::inputs::Inputs;
use crate::read_only::copy_bytes;
use ebpf::{CALL_IMM, Insn, get_insn};
use program::FunctionName;

// The slot number `i` plus 1 plus the signed immediate, where there is such a slot.
#[tactic(auto, using(ebpf::specs::Choice::choices), unfolding(crate::specs::Calls::target, crate::specs::Calls::inside))]
fn target_of(count: usize, i: usize, imm: u32) -> Result<u32, ElfError>
    requires { (i < 2 ^ 24) × (count ≤ 2 ^ 24) }
    ensures { result ≡ target count i imm }
{
    match (i + 1).checked_add_signed(imm.cast_signed() as isize) {
        Some(to) if to < count => Ok(to as u32),
        _ => Err(ElfError::RelativeJumpOutOfBounds { slot: i as u64 }),
    }
}

// Whether an instruction of the image calls by a key, which is its immediate.
#[tactic(auto, unfolding(crate::specs::Calls::calls_key))]
pub fn calls_key(version2: bool, insn: Insn) -> bool
    ensures { result ≡ calls_key version2 insn }
{
    let near = version2 & (insn.src == 0);
    (insn.opc == CALL_IMM) & !near
}

// Whether an instruction of the file calls another slot of the text.
#[tactic(auto, unfolding(crate::specs::Calls::calls_key, crate::specs::Calls::is_local_call))]
pub fn is_local_call(version2: bool, insn: Insn) -> bool
    ensures { result ≡ is_local_call version2 insn }
{
    calls_key(version2, insn) & (insn.imm != 0xffff_ffff)
}

impl<'a> Inputs<'a> {
    // The text in the file.
    #[inline(always)]
    fn text(&self) -> &'a [u8]
        ensures { result.now ≡ text_of self.now.file.now self.now.job }
    {
        let start = self.job.text.start;
        &self.file[start..start + self.job.text.length]
    }
}

// What slot number `i` of a text calls, if it calls another slot. Inlined, as what it answers would go through
// memory otherwise.
#[inline(always)]
#[tactic(auto, using(ebpf::specs::Choice::choices, crate::proofs::Slots::whole_slot), unfolding(crate::specs::Calls::call_at, crate::specs::Calls::call_of))]
fn call_at(text: &[u8], version2: bool, i: usize) -> Result<Option<u32>, ElfError>
    requires { length text.now ≤ 2 ^ 24 }
    ensures { result ≡ call_at text.now version2 i }
{
    match get_insn(text, i) {
        Some(insn) if is_local_call(version2, insn) => {
            target_of(text.len() / 8, i, insn.imm).map(Some)
        }
        _ => Ok(None),
    }
}

// The first with a call's opcode of so many slots of a text, from number `from` on. Most slots call nothing, and
// this looks at one byte of each. Inlined, so that eight slots take no loop.
// Kept: by `find` over the range, proved as well, a load of 1 MiB without calls takes a third longer. By `position` over
// `as_chunks::<8>()`, which would do for this and `next_call`, proved as well, one of 1 MiB without calls takes 0.29 of the
// Rust's time in place of 0.24, and one of 64 KiB in version 2 takes 0.35 in place of 0.25. The bar is that of README,
// "Speed": a third of the Rust's time above 1 KiB.
#[inline(always)]
#[tactic(auto, using(crate::specs::Calls::call_here, crate::specs::Calls::call_later, crate::specs::Calls::call_none))]
fn call_among(text: &[u8], from: usize, slots: usize) -> Option<usize>
    requires { 8 * (from + slots) ≤ length text.now }
    ensures { Among text.now slots from result }
{
    for i in 0..slots {
        if text[8 * (from + i)] == CALL_IMM {
            return Some(from + i);
        }
    }
    None
}

// The same of the slots from number `from` up to `to`. By eights, so that the loop tests its own end once for
// eight slots: a load with few calls takes a twentieth less.
#[tactic(auto, using(crate::proofs::Eights::eight_here, crate::proofs::Eights::eight_none))]
fn next_call(text: &[u8], from: usize, to: usize) -> Option<usize>
    requires { (from ≤ to) × (8 * to ≤ length text.now) }
    ensures { Among text.now (to - from) from result }
{
    let slots = to - from;
    for eight in 0..slots / 8 {
        if let Some(first) = call_among(text, from + 8 * eight, 8) {
            return Some(first);
        }
    }
    call_among(text, to - slots % 8, slots % 8)
}

// How many targets of calls are remembered, and how many slots are copied at a time.
const SEEN: usize = 1024;

const COPIED: usize = 512;

// Whether a call's target is remembered as one that was registered. Most calls repeat a target, and
// then the table need not be searched.
// Kept: a place holds a target plus 1, and 0 for none. With `Option<u32>`, proved as well, the array takes twice the bytes,
// which are cleared for each load: one of 1 MiB with 5,000 functions in version 1 takes 1.04 times as long as the
// Rust's in place of 0.99, one of 1 KiB 0.49 in place of 0.47. The bar is that no load takes longer (README, "Speed").
fn is_seen(seen: &[u32; SEEN], index: u32) -> bool
    requires { index < 2 ^ 24 }
    ensures { result ≡ eqb (get_or seen.now (index % 1024) 0) (index + 1) }
{
    let at = index as usize % SEEN;
    seen[at] == index + 1
}

fn see(seen: &mut [u32; SEEN], index: u32)
    requires { index < 2 ^ 24 }
    ensures { seen.new ≡ set seen.old (index % 1024) (index + 1) }
{
    let at = index as usize % SEEN;
    seen[at] = index + 1;
}

// A target is registered, under its key.
fn register_target(
    out: &mut Outputs<'_, '_>,
    inputs: &Inputs<'_>,
    key: u32,
    index: u32,
) -> Result<(), ElfError>
    requires { TargetAsks inputs.now.job key index out.old }
    ensures keeps { Keeps out.old out.new }
    ensures image { out.new.image.now ≡ out.old.image.now }
    ensures targets { Targets (row_for inputs.now.builtins.now inputs.now.job OfIndex index) out.old out.new result }
    ensures alike { StillAlike (target_row inputs.now.job) out.new result }
{
    let legacy = inputs.hashed_legacy();
    let row = legacy.row_under(key, FunctionName::OfIndex, index)?;
    out.enter_alike(row)
}

// A slot of the job's text: the key of what it calls is written, and the target registered.
fn call_step(
    out: &mut Outputs<'_, '_>,
    seen: &mut [u32; SEEN],
    inputs: &Inputs<'_>,
    i: usize,
) -> Result<(), ElfError>
    requires { SlotAsks i inputs.now seen.old out.old }
    ensures keeps { Keeps out.old out.new }
    ensures settles { SettlesTo (slot_trace inputs.now.file.now inputs.now.builtins.now inputs.now.job i out.old.image.now) 1 out.old out.new result }
    ensures held { StillHeld inputs.now seen.new out.new result }
{
    let Some(index) = call_at(inputs.text(), inputs.job.version2, i)? else {
        return Ok(());
    };
    let key = inputs
        .hashed_legacy()
        .legacy_key(FunctionName::OfIndex, index);
    store_u32(out.image, inputs.job.text.start + 8 * i + 4, key);
    if is_seen(seen, index) {
        return Ok(());
    }
    see(seen, index);
    register_target(out, inputs, key, index)
}

// The slots from number `from` up to `to`, whose bytes are in the image, in turn, up to the first
// refusal.
fn register_slots(
    out: &mut Outputs<'_, '_>,
    seen: &mut [u32; SEEN],
    inputs: &Inputs<'_>,
    from: usize,
    to: usize,
) -> Result<(), ElfError>
    requires { SlotsAsk from to inputs.now seen.old out.old }
    ensures keeps { Keeps out.old out.new }
    ensures leads { SlotsLead from to inputs.now out.old out.new result }
    ensures held { StillHeld inputs.now seen.new out.new result }
{
    let text = inputs.text();
    let mut next = from;
    // Kept: a turn goes on at the next call, and not at the next slot. `for` over `std::iter::successors` was tried,
    // and the proof didn't close: the library gives that iterator no end, so a `for` over it asks for `⊥`; with
    // `take(to - from)` behind it, which only the proof needs, the proof of `can_next`, over each run of the closure,
    // was left open.
    while let Some(i) = next_call(text, next, to) {
        call_step(out, seen, inputs, i)?;
        next = i + 1;
    }
    Ok(())
}

// The file's bytes go into the image, and the calls of all slots are registered in turn, up to the
// first refusal: a run of slots is copied and then looked at, while its bytes are in the cache.
pub(crate) fn register_calls(out: &mut Outputs<'_, '_>, inputs: &Inputs<'_>) -> Result<(), ElfError>
    requires { FirstAsks (slot_count inputs.now.job) inputs.now out.old }
    ensures keeps { Keeps out.old out.new }
    ensures settles { SettlesTo (calls_trace inputs.now.file.now inputs.now.builtins.now inputs.now.job inputs.now.file.now) (slot_count inputs.now.job) out.old out.new result }
{
    let file = inputs.file;
    let start = inputs.job.text.start;
    let count = inputs.job.text.length / 8;
    let end = start + 8 * count;
    let mut seen = [0u32; SEEN];
    copy_bytes(out.image, file, 0, 0, start);
    for run in 0..count.div_ceil(COPIED) {
        let from = COPIED * run;
        let to = count.min(from + COPIED);
        let at = start + 8 * from;
        copy_bytes(out.image, file, at, at, 8 * (to - from));
        register_slots(out, &mut seen, inputs, from, to)?;
    }
    copy_bytes(out.image, file, end, end, file.len() - end);
    Ok(())
}
