// The bytes that relocations name.
ghost use Rattle.std.specs.Prelude.{◌≡◌, ◌+◌, ◌%◌, ◌^◌, ◌≤◌, ◌<◌, length};
ghost use Rattle.loader.specs.Demand.{named_in};
ghost use Rattle.loader.specs.Deeds.{is_in};
ghost use Rattle.writers.specs.Named.{is_named, Names, NamesNext, count_of, by_names};

use crate::Writer;
use crate::calls::call_writer;
use crate::text::{LoadedText, Text};
use elf_parser::Layout;
use loader::{
    R_BPF_64_32, R_BPF_64_64, R_BPF_64_RELATIVE, UsedHeader, is_within, r_place, relocation_at,
    used_header,
};

// The bytes that a relocation at place `r` names: an instruction's two halves, eight bytes, or an
// instruction's immediate.
#[derive(Clone, Copy, PartialEq, Eq, Debug)]
pub enum Named {
    Halves(u64),
    Word(u64),
    Immediate(u64),
}

// What a relocation at that place names, by the low half of its `r_info`; nothing where the place is none.
#[tactic(auto, using(ebpf::specs::Choice::choices), unfolding(loader::specs::Demand::named_by))]
fn named_in(text: LoadedText, at: Option<u64>, r_info: u64) -> Option<Named>
    ensures { Names result (named_in text.version2 text.place.start text.place.length at (r_info % 2 ^ 32)) }
{
    let r = at?;
    let in_text = is_within(text.place, r);
    match (r_info % 0x1_0000_0000) as u32 {
        R_BPF_64_64 if in_text | !text.version2 => Some(Named::Halves(r)),
        R_BPF_64_RELATIVE if in_text => Some(Named::Halves(r)),
        R_BPF_64_64 | R_BPF_64_RELATIVE => Some(Named::Word(r)),
        R_BPF_64_32 => Some(Named::Immediate(r)),
        _ => None,
    }
}

// The program header used last, and the bytes that a relocation names, if it names any.
#[derive(Clone, Copy, PartialEq, Eq, Debug)]
pub struct Next {
    pub header: Option<UsedHeader>,
    pub named: Option<Named>,
}

// Of the relocation number `i`, behind those that used `header` last.
pub(crate) fn named_next(text: &Text<'_>, header: Option<UsedHeader>, i: u32) -> Next
    ensures { NamesNext text.now.elf.file.now text.now.elf.layout text.now.loaded header i result }
{
    let version2 = text.loaded.version2;
    let r = relocation_at(&text.elf, i);
    let next = used_header(&text.elf, version2, header, r.r_offset);
    Next {
        header: next,
        named: named_in(text.loaded, r_place(version2, next, r.r_offset), r.r_info),
    }
}

// Whether the byte is one of four from the `n`th behind `r` on.
fn four_behind(r: u64, n: u64, b: u64) -> bool
    requires { n ≤ 12 }
    ensures { result ≡ is_in (r + n) 4 b }
{
    b.checked_sub(r).is_some_and(|d| (n..n + 4).contains(&d))
}

pub(crate) fn is_named(named: Option<Named>, b: u64) -> bool
    ensures { result ≡ is_named named b }
{
    match named {
        None => false,
        Some(Named::Immediate(r)) => four_behind(r, 4, b),
        Some(Named::Halves(r)) => four_behind(r, 4, b) | four_behind(r, 12, b),
        Some(Named::Word(r)) => four_behind(r, 0, b) | four_behind(r, 4, b),
    }
}

// How many relocations there are, in both tables.
pub(crate) fn relocation_count(layout: Layout) -> u32
    requires { count_of layout ≤ 2 ^ 24 }
    ensures { result ≡ count_of layout }
{
    let older = layout.dynamic_relocations;
    let newer = layout.dynamic_relas;
    (older.count + newer.count) as u32
}

// The last relocation that names the byte, else the call that has it in its immediate, else the file.
#[tactic(auto, using(ebpf::specs::Choice::choices, crate::proofs::Turns::none_used, loader::specs::Relocations::used_next, crate::proofs::Turns::up_none, crate::proofs::Turns::up_next, crate::proofs::Turns::up_all))]
pub(crate) fn last_naming(text: &Text<'_>, b: u64) -> Writer
    requires { b < length text.now.elf.file.now }
    ensures { result ≡ by_names text.now.elf.file.now text.now.elf.layout text.now.loaded b }
{
    let count = relocation_count(text.elf.layout);
    let mut writer = call_writer(text, b);
    let mut header = None;
    // Kept: `mark_all` goes through them too. What they share is `named_next` and the header that goes on to the next.
    // A function for both would hand a state on through a closure, as `Table::over` does; but here it is a writer, and
    // there a slice lent for writing, so that its contract would have to speak of both, for two lines less.
    for i in 0..count {
        let next = named_next(text, header, i);
        header = next.header;
        if is_named(next.named, b) {
            writer = Writer::Relocation(i);
        }
    }
    writer
}
