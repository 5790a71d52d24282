// What a relocation asks for: the place that it means, the bytes that it writes there, and the function
// that it registers. Reads only; the caller registers and writes.
ghost use Rattle.std.specs.Prelude.{◌≡◌, Ok, Some, true, false, ◌+◌, ◌/◌, ◌%◌, ◌≤◌, ◌^◌, ◌||◌, ltb, length};
ghost use Rattle.ebpf.specs.LittleEndian.{join};
ghost use Rattle.elf_parser.specs.Names.{dynamic_symbol_name};
ghost use Rattle.loader.specs.Relocations.{relocation_or, rela_or, relocation_at, header_at, contains, first_from, used_header, place_of, within, program_address, immediate_at, halves_deed, word_deed, symbol_address, plan6464, relative_text, is_negative, plan_relative, register_deed, function_call, builtin_call, call_by_name, named_call, plan6432, plan_at, plan_of};

use crate::deeds::Deed;
use crate::error::ElfError;
use crate::functions::{row_for, symbol_function};
use crate::inputs::Inputs;
use crate::symbol_name::SymbolName;
use ebpf::little_endian::read;
use ebpf::{MM_PROGRAM_START, hash_symbol_name};
use elf_parser::types::{Elf64Rel, Elf64Rela, Elf64Sym};
use elf_parser::{Elf64, Place, bytes_at, past};
use program::{FunctionName, Row, SymbolHashCollision, is_builtin};

// The types of relocations.
// Kept: numbers and no enum. A file holds any number, and the refusal names it; both matches, `plan` here and `named_in`
// of `writers`, have an arm for each of the three as it stands, and one for all others.
pub const R_BPF_64_64: u32 = 1;

pub const R_BPF_64_RELATIVE: u32 = 8;

pub const R_BPF_64_32: u32 = 10;

// A relocation of either kind, with the addend that it brings, if it is of the kind that does: its bits as
// an unsigned number.
#[derive(Clone, Copy, PartialEq, Eq, Debug, Default)]
pub struct Relocation {
    pub r_offset: u64,
    pub r_info: u64,
    pub addend: Option<u64>,
}

impl Relocation {
    // The number of its symbol.
    fn r_sym(self) -> u32
        ensures { result ≡ self.r_info / 2 ^ 32 }
    {
        (self.r_info >> 32) as u32
    }

    // Its type.
    fn r_type(self) -> u32
        ensures { result ≡ self.r_info % 2 ^ 32 }
    {
        (self.r_info & 0xffff_ffff) as u32
    }
}

impl From<Elf64Rel> for Relocation {
    ghost from_gives = { λ r x. x ≡ relocation_or (Ok r) };

    fn from(r: Elf64Rel) -> Relocation {
        Relocation {
            r_offset: r.r_offset,
            r_info: r.r_info,
            addend: None,
        }
    }
}

impl From<Elf64Rela> for Relocation {
    ghost from_gives = { λ r x. x ≡ rela_or (Ok r) };

    fn from(r: Elf64Rela) -> Relocation {
        Relocation {
            r_offset: r.r_offset,
            r_info: r.r_info,
            addend: Some(r.r_addend),
        }
    }
}

// The relocation number `index` of both tables, the older one first; a blank one where there is none.
#[tactic(auto, using(ebpf::specs::Choice::choices), unfolding(crate::specs::Relocations::relocation_at))]
pub fn relocation_at(elf: &Elf64<'_>, index: u32) -> Relocation
    ensures { result ≡ relocation_at elf.now.file.now elf.now.layout index }
{
    let older = elf.layout.dynamic_relocations.count;
    let number = index as u64;
    if number < older {
        return elf
            .dynamic_relocation(index)
            .map_or(Relocation::default(), Relocation::from);
    }
    elf.dynamic_rela((number - older) as u32)
        .map_or(Relocation::default(), Relocation::from)
}

// A program header, as far as version 2 maps by it: the addresses from `p_vaddr` up to `end` stand
// from `p_offset` on in the file.
#[derive(Clone, Copy, PartialEq, Eq, Debug)]
pub struct UsedHeader {
    pub p_vaddr: u64,
    pub end: u64,
    pub p_offset: u64,
}

impl UsedHeader {
    fn contains(self, a: u64) -> bool
        ensures { result ≡ contains (Some self) a }
    {
        (self.p_vaddr..self.end).contains(&a)
    }
}

// The program header number `index`.
#[tactic(auto, unfolding(crate::specs::Relocations::header_at))]
fn header_at(elf: &Elf64<'_>, index: u32) -> Option<UsedHeader>
    ensures { result ≡ header_at elf.now.file.now elf.now.layout index }
{
    elf.program_header(index).ok().map(|h| UsedHeader {
        p_vaddr: h.p_vaddr,
        end: h.p_vaddr.saturating_add(h.p_memsz),
        p_offset: h.p_offset,
    })
}

// The first program header that contains an address.
fn first_header(elf: &Elf64<'_>, count: u32, a: u64) -> Option<UsedHeader>
    ensures { result ≡ first_from elf.now.file.now elf.now.layout a count 0 }
{
    (0..count)
        .filter_map(|i| header_at(elf, i))
        .find(|h| h.contains(a))
}

// The header that the relocation at `r_offset` is mapped by, after one that was mapped by `used`. Version
// 1 maps nothing.
#[tactic(auto, using(ebpf::specs::Choice::choices), unfolding(crate::specs::Relocations::used_header))]
pub fn used_header(
    elf: &Elf64<'_>,
    version2: bool,
    used: Option<UsedHeader>,
    r_offset: u64,
) -> Option<UsedHeader>
    ensures { result ≡ used_header elf.now.file.now elf.now.layout version2 used r_offset }
{
    if !version2 | used.is_some_and(|h| h.contains(r_offset)) {
        return used;
    }
    let count = elf.layout.program_headers.count.min(0xffff_ffff) as u32;
    first_header(elf, count, r_offset)
}

// The place in the file that a relocation means, if it means one.
#[tactic(auto, using(ebpf::specs::Choice::choices), unfolding(crate::specs::Relocations::place_of))]
pub fn r_place(version2: bool, used: Option<UsedHeader>, r_offset: u64) -> Option<u64>
    ensures { result ≡ place_of version2 used r_offset }
{
    if !version2 {
        return Some(r_offset);
    }
    let h = used?;
    Some(
        r_offset
            .saturating_sub(h.p_vaddr)
            .saturating_add(h.p_offset),
    )
}

// Whether a byte is one of those at a place.
#[tactic(auto, using(ebpf::specs::Choice::choices), unfolding(crate::specs::Relocations::within))]
pub fn is_within(place: Place, r: u64) -> bool
    ensures { result ≡ within place.start place.length r }
{
    r.checked_sub(place.start as u64)
        .is_some_and(|offset| offset < place.length as u64)
}

// An address in the machine: below the program's start it gains that.
#[tactic(auto, using(ebpf::specs::Choice::choices), unfolding(crate::specs::Relocations::program_address))]
fn program_address(a: u64) -> u64
    ensures { result ≡ program_address a }
{
    if a < MM_PROGRAM_START {
        return MM_PROGRAM_START + a;
    }
    a
}

// The place of an immediate's four bytes.
#[tactic(auto, using(ebpf::specs::Choice::choices), unfolding(crate::specs::Relocations::immediate_at))]
fn immediate_at(r: u64) -> u64
    ensures { result ≡ immediate_at r }
{
    r.saturating_add(4)
}

// Whether a relocation brings an addend that is negative.
fn is_negative(addend: Option<u64>) -> bool
    ensures { result ≡ is_negative addend }
{
    addend.is_some_and(|a| 0x8000_0000_0000_0000 <= a)
}

fn join_halves(low: u32, high: u32) -> u64
    ensures { result ≡ join 4 low high }
{
    u64::from(low) | (u64::from(high) << 32)
}

// A relocation with what it is applied to: what the load reads, the image as the relocations before left
// it, and the place `r` in the file that it means.
#[derive(Clone, Copy, PartialEq, Eq, Debug)]
struct PlacedRelocation<'a> {
    inputs: &'a Inputs<'a>,
    image: &'a [u8],
    r: u64,
    relocation: Relocation,
}

impl PlacedRelocation<'_> {
    // Whether `n` bytes from `at` on end past the image.
    // Kept: a test, with the refusal and `as usize` where it is asked. A method that gives the place or refuses, by `?`, is
    // no plainer: the definitions have test and refusal as a row, and each of the five would need a law for that way out.
    fn is_past(&self, at: u64, n: u64) -> bool
        ensures { result ≡ ltb (length self.now.image.now) (at + n) }
    {
        past(self.image.len() as u64, at, n)
    }

    // Whether one of two halves, four bytes each, ends past the image.
    fn halves_past(&self, low: u64, high: u64) -> bool
        ensures { let n = length self.now.image.now in result ≡ (ltb n (low + 4) || ltb n (high + 4)) }
    {
        self.is_past(low, 4) | self.is_past(high, 4)
    }

    // Two halves of a number, four bytes each.
    #[tactic(auto, using(ebpf::specs::Choice::choices), unfolding(crate::specs::Relocations::halves_deed))]
    fn halves_deed(&self, low: u64, high: u64, value: u64) -> Result<Deed, ElfError>
        ensures { result ≡ halves_deed (length self.now.image.now) low high value }
    {
        if self.halves_past(low, high) {
            return Err(ElfError::ValueOutOfBounds);
        }
        Ok(Deed::Halves {
            low: low as usize,
            high: high as usize,
            value,
        })
    }

    // A number of eight bytes.
    #[tactic(auto, using(ebpf::specs::Choice::choices), unfolding(crate::specs::Relocations::word_deed))]
    fn word_deed(&self, at: u64, value: u64) -> Result<Deed, ElfError>
        ensures { result ≡ word_deed (length self.now.image.now) at value }
    {
        if self.is_past(at, 8) {
            return Err(ElfError::ValueOutOfBounds);
        }
        Ok(Deed::Word {
            at: at as usize,
            value,
        })
    }

    // Type 1: the address of a symbol, plus the addend or the four bytes that are there.
    #[tactic(auto, using(ebpf::specs::Choice::choices), unfolding(crate::specs::Relocations::symbol_address))]
    fn symbol_address(&self, at: u64) -> Result<u64, ElfError>
        ensures { let p = self.now in let i = p.inputs.now in result ≡ symbol_address i.file.now p.image.now i.job.layout at (p.relocation.r_info / 2 ^ 32) p.relocation.addend }
    {
        if self.is_past(at, 4) {
            return Err(ElfError::ValueOutOfBounds);
        }
        let there = read::<u32>(self.image, at as usize) as u64;
        let addend = self.relocation.addend.unwrap_or(there);
        let number = self.relocation.r_sym();
        let unknown = |_| ElfError::UnknownSymbol { number };
        let y = self.inputs.elf().dynamic_symbol(number).map_err(unknown)?;
        Ok(program_address(y.st_value.saturating_add(addend)))
    }

    // Type 1 in the text, and in version 1: an instruction's two halves.
    #[tactic(auto, using(crate::proofs::Addressed::halves_written, crate::proofs::Addressed::halves_refused))]
    fn halves_64_64(&self) -> Result<Deed, ElfError>
        ensures { let p = self.now in let i = p.inputs.now in result ≡ plan6464 i.file.now p.image.now i.job.layout true p.r (p.relocation.r_info / 2 ^ 32) p.relocation.addend }
    {
        let at = immediate_at(self.r);
        let address = self.symbol_address(at)?;
        self.halves_deed(at, at.saturating_add(8), address)
    }

    // Type 1 elsewhere: eight bytes.
    #[tactic(auto, using(crate::proofs::Addressed::word_written, crate::proofs::Addressed::word_refused))]
    fn word_64_64(&self) -> Result<Deed, ElfError>
        ensures { let p = self.now in let i = p.inputs.now in result ≡ plan6464 i.file.now p.image.now i.job.layout false p.r (p.relocation.r_info / 2 ^ 32) p.relocation.addend }
    {
        let address = self.symbol_address(self.r)?;
        self.word_deed(self.r, address)
    }

    // Type 8 in the text: an instruction's two halves.
    // Kept: beside `halves_deed`, whose refusal stands before the test of the address here. By `halves_deed(..)?` the
    // proof of the way out didn't close.
    #[tactic(auto, using(ebpf::specs::Choice::choices), unfolding(crate::specs::Relocations::relative_text))]
    fn relative_text(&self, low: u64, high: u64, address: u64) -> Result<Deed, ElfError>
        ensures { result ≡ relative_text (length self.now.image.now) low high address }
    {
        if self.halves_past(low, high) {
            return Err(ElfError::ValueOutOfBounds);
        }
        if address == 0 {
            return Err(ElfError::InvalidVirtualAddress);
        }
        Ok(Deed::Halves {
            low: low as usize,
            high: high as usize,
            value: program_address(address),
        })
    }

    // Type 8 in the text: the addend, or the address whose halves are there.
    #[tactic(auto, using(ebpf::specs::Choice::choices), unfolding(crate::specs::Relocations::plan_relative))]
    fn relative_in_text(&self) -> Result<Deed, ElfError>
        ensures { result ≡ plan_relative self.now.image.now self.now.inputs.now.job.version2 true self.now.r self.now.relocation.addend }
    {
        let low = immediate_at(self.r);
        let high = immediate_at(self.r.saturating_add(8));
        let address = join_halves(
            read(self.image, low as usize),
            read(self.image, high as usize),
        );
        self.relative_text(low, high, self.relocation.addend.unwrap_or(address))
    }

    // Type 8 outside the text: the addend, or the bytes that are there. Version 2 keeps an address of eight
    // bytes there, version 1 the lower half of one in the upper four.
    #[tactic(auto, using(ebpf::specs::Choice::choices), unfolding(crate::specs::Relocations::plan_relative, crate::specs::Relocations::relative_value))]
    fn relative_elsewhere(&self) -> Result<Deed, ElfError>
        requires { is_negative self.now.relocation.addend ≡ false }
        ensures { result ≡ plan_relative self.now.image.now self.now.inputs.now.job.version2 false self.now.r self.now.relocation.addend }
    {
        let low = immediate_at(self.r);
        let addend = self.relocation.addend;
        let value = if self.inputs.job.version2 {
            program_address(addend.unwrap_or(read::<u64>(self.image, self.r as usize)))
        } else {
            MM_PROGRAM_START + addend.unwrap_or(read::<u32>(self.image, low as usize) as u64)
        };
        self.word_deed(self.r, value)
    }

    // A function to register, and the place of its key.
    #[tactic(auto, using(ebpf::specs::Choice::choices))]
    fn register_deed(&self, row: Result<Row, SymbolHashCollision>) -> Result<Deed, ElfError>
        ensures { result ≡ register_deed (length self.now.image.now) (immediate_at self.now.r) row }
    {
        let row = row?;
        let at = immediate_at(self.r);
        if self.is_past(at, 4) {
            return Ok(Deed::RegisterOutside { row });
        }
        Ok(Deed::Register {
            row,
            at: at as usize,
        })
    }

    // A call of a function symbol.
    #[tactic(auto, using(ebpf::specs::Choice::choices), unfolding(crate::specs::Relocations::function_call))]
    fn function_call(&self, name: FunctionName, st_value: u64) -> Result<Deed, ElfError>
        ensures { let p = self.now in let i = p.inputs.now in result ≡ function_call i.builtins.now i.job (length p.image.now) (immediate_at p.r) name st_value }
    {
        let slot = self.inputs.index_at(st_value);
        let index = slot.ok_or(ElfError::ValueOutOfBounds)?;
        self.register_deed(row_for(self.inputs, name, index))
    }

    // A call of any other symbol: by the hash of its name.
    #[tactic(auto, using(ebpf::specs::Choice::choices), unfolding(crate::specs::Relocations::builtin_call))]
    fn builtin_call(&self, place: Place, hash: u32) -> Result<Deed, ElfError>
        ensures { let p = self.now in let i = p.inputs.now in result ≡ builtin_call i.builtins.now i.job.reject_broken (length p.image.now) (immediate_at p.r) p.r place.start place.length hash }
    {
        let known = is_builtin(self.inputs.builtins, hash);
        if self.inputs.job.reject_broken & !known {
            return Err(ElfError::UnresolvedSymbol {
                name: place,
                offset: self.r,
            });
        }
        let at = immediate_at(self.r);
        if self.is_past(at, 4) {
            return Err(ElfError::ValueOutOfBounds);
        }
        Ok(Deed::Key {
            at: at as usize,
            key: hash,
        })
    }

    // A call of a symbol of that name.
    #[tactic(auto, using(ebpf::specs::Choice::choices), unfolding(crate::specs::Relocations::call_by_name))]
    fn call_by_name(&self, y: Elf64Sym, name: SymbolName<'_>) -> Result<Deed, ElfError>
        ensures { let p = self.now in let i = p.inputs.now in let s = name.entry in result ≡ call_by_name s.part.now i.builtins.now i.job (length p.image.now) p.r y s.place.start s.place.length }
    {
        let st_value = y.st_value;
        if (y.st_info % 16 == 2) & (st_value != 0) {
            return self.function_call(symbol_function(name), st_value);
        }
        self.builtin_call(name.place, hash_symbol_name(name.part))
    }

    // A call of a symbol.
    // Kept: beside `named_label`, as it says.
    #[tactic(auto, using(elf_parser::specs::Names::name_within, elf_parser::specs::Parts::part_within, crate::proofs::Mapped::mapped_ok))]
    fn named_call(&self, y: Elf64Sym) -> Result<Deed, ElfError>
        ensures { let p = self.now in let i = p.inputs.now in result ≡ named_call i.file.now i.builtins.now i.job (length p.image.now) p.r y (dynamic_symbol_name i.file.now i.job.layout y.st_name) }
    {
        let number = y.st_name;
        let unknown = |_| ElfError::UnknownSymbol { number };
        let elf = self.inputs.elf();
        let place = elf.dynamic_symbol_name(number).map_err(unknown)?;
        let part = bytes_at(self.inputs.file, place);
        self.call_by_name(y, SymbolName { part, place })
    }

    // Type 10: a call by the name of a symbol.
    #[tactic(auto, using(ebpf::specs::Choice::choices), unfolding(crate::specs::Relocations::plan6432))]
    fn call_64_32(&self) -> Result<Deed, ElfError>
        ensures { let p = self.now in let i = p.inputs.now in result ≡ plan6432 i.file.now i.builtins.now i.job (length p.image.now) p.r (p.relocation.r_info / 2 ^ 32) }
    {
        let number = self.relocation.r_sym();
        let unknown = |_| ElfError::UnknownSymbol { number };
        let y = self.inputs.elf().dynamic_symbol(number).map_err(unknown)?;
        self.named_call(y)
    }

    // What it asks for, by its type.
    #[tactic(auto, using(ebpf::specs::Choice::choices), unfolding(crate::specs::Relocations::plan_at))]
    fn plan(&self) -> Result<Deed, ElfError>
        ensures { let p = self.now in let i = p.inputs.now in result ≡ plan_at i.file.now p.image.now i.builtins.now i.job p.r p.relocation.r_info p.relocation.addend }
    {
        let in_text = is_within(self.inputs.job.text, self.r);
        let version2 = self.inputs.job.version2;
        let negative = is_negative(self.relocation.addend);
        match self.relocation.r_type() {
            R_BPF_64_64 | R_BPF_64_RELATIVE if negative => Err(ElfError::AddendNegative),
            R_BPF_64_64 if in_text | !version2 => self.halves_64_64(),
            R_BPF_64_64 => self.word_64_64(),
            R_BPF_64_RELATIVE if in_text => self.relative_in_text(),
            R_BPF_64_RELATIVE => self.relative_elsewhere(),
            R_BPF_64_32 => self.call_64_32(),
            number => Err(ElfError::UnknownRelocation { number }),
        }
    }
}

// What a relocation asks for, `used` being the header that maps it. The bytes that it adds to are the
// image's, which earlier relocations may have changed.
pub(crate) fn plan_relocation(
    inputs: &Inputs<'_>,
    image: &[u8],
    used: Option<UsedHeader>,
    relocation: Relocation,
) -> Result<Deed, ElfError>
    ensures { result ≡ plan_of inputs.now.file.now image.now inputs.now.builtins.now inputs.now.job (place_of inputs.now.job.version2 used relocation.r_offset) relocation.r_info relocation.addend }
{
    let place = r_place(inputs.job.version2, used, relocation.r_offset);
    let placed = PlacedRelocation {
        inputs,
        image,
        r: place.ok_or(ElfError::ValueOutOfBounds)?,
        relocation,
    };
    placed.plan()
}
