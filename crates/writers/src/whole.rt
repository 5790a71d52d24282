// A number for each byte of the file: who wrote it.
ghost use Rattle.std.specs.Prelude.{◌&&◌, ◌+◌, ◌≤◌, ◌<◌, ◌^◌};
ghost use Rattle.loader.specs.Deeds.{is_in};
ghost use Rattle.writers.specs.Named.{is_named, is_call, immediate_of};
ghost use Rattle.writers.specs.declared.Writer.TheVariants.{Call};
ghost use Rattle.writers.specs.Whole.{code_of, Marks, OnlyZeros, HoldsCalls, HoldsAll};

use crate::Writer;
use crate::calls::is_call;
use crate::naming::{Named, named_next, relocation_count};
use crate::text::Text;
use elf_parser::Elf64;

// `code` at the four places from the `n`th behind `r` on, as far as there are numbers.
// Kept: four stores, and no `fill` of the places that there are. With it the numbers of a file of 1 MiB with 20,000
// relocations took 1.27 to 1.55 times as long as its load, with these 1.00 to 1.16, and README says 1.20.
#[tactic(auto, using(ebpf::specs::Choice::choices, crate::proofs::Places::past_all, crate::proofs::Places::no_places, crate::proofs::Marking::marked_more, crate::proofs::Marking::marked_past))]
fn mark_four(numbers: &mut [u32], r: u64, n: usize, code: u32)
    requires { n ≤ 12 }
    ensures { Marks (is_in (r + n) 4) code numbers }
{
    if r < numbers.len() as u64 {
        let from = r as usize + n;
        for k in 0..4 {
            if from + k < numbers.len() {
                numbers[from + k] = code;
            }
        }
    }
}

// The writer's number for each byte that a relocation names, if it names any.
#[tactic(auto, using(ebpf::specs::Choice::choices, crate::proofs::Places::parts, crate::proofs::Places::eight, crate::proofs::Marking::either))]
fn mark_named(numbers: &mut [u32], named: Option<Named>, writer: Writer)
    requires { code_of writer < 2 ^ 32 }
    ensures { Marks (is_named named) (code_of writer) numbers }
{
    let code = writer.code();
    match named {
        None => {}
        Some(Named::Immediate(r)) => mark_four(numbers, r, 4, code),
        Some(Named::Halves(r)) => {
            mark_four(numbers, r, 4, code);
            mark_four(numbers, r, 12, code);
        }
        Some(Named::Word(r)) => {
            mark_four(numbers, r, 0, code);
            mark_four(numbers, r, 4, code);
        }
    }
}

// Slot number `i`, for the bytes of its immediate, if it is a local call.
#[tactic(auto, using(ebpf::specs::Choice::choices))]
fn mark_call(numbers: &mut [u32], text: &Text<'_>, i: usize)
    requires { i < 2 ^ 24 }
    ensures { Marks (λ b. is_in (immediate_of text.now.loaded i) 4 b && is_call text.now.elf.file.now text.now.loaded i) (code_of (Call i)) numbers }
{
    if is_call(text, i) {
        let start = text.loaded.place.start;
        let call = Writer::Call(i as u32);
        mark_four(numbers, (start + 8 * i) as u64, 4, call.code());
    }
}

// The calls of all slots, in numbers that are zero.
#[tactic(auto, using(ebpf::specs::Choice::choices, crate::proofs::Slots::no_slot, crate::proofs::Slots::call_next, crate::proofs::Marking::later, crate::proofs::Marking::only_zero))]
fn mark_calls(numbers: &mut [u32], text: &Text<'_>)
    requires { OnlyZeros numbers.old }
    ensures { HoldsCalls text.now.elf.file.now text.now.loaded numbers }
{
    // a copy of what is asked, since what stands behind a reference would be read again at each slot
    let text = *text;
    for i in 0..text.loaded.place.length / 8 {
        mark_call(numbers, &text, i);
    }
}

// The calls of all slots, and then all relocations in turn, in numbers that are zero.
#[tactic(auto, using(crate::proofs::Turns::later_named, crate::proofs::Turns::none_used, loader::specs::Relocations::used_next, crate::proofs::Turns::up_none, crate::proofs::Turns::up_next, crate::proofs::Turns::up_all))]
pub(crate) fn mark_all(numbers: &mut [u32], text: &Text<'_>)
    requires { OnlyZeros numbers.old }
    ensures { HoldsAll text.now.elf.file.now text.now.elf.layout text.now.loaded numbers }
{
    mark_calls(numbers, text);
    let count = relocation_count(text.elf.layout);
    let mut header = None;
    for i in 0..count {
        let next = named_next(text, header, i);
        header = next.header;
        mark_named(numbers, next.named, Writer::Relocation(i));
    }
}
