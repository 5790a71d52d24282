// The program headers: PT_LOAD's checks, and the one that contains an address.
ghost use Rattle.std.specs.Prelude.{◌≡◌};
ghost use Rattle.elf_parser.specs.ProgramHeaders.{load_step, loads_check, contains_step, header_for_vaddr};

use crate::consts::PT_LOAD;
use crate::error::ElfParserError;
use crate::parts::past;
use crate::table::Table;
use crate::types::Elf64Phdr;

// The checks of one program header; `low` is the address of the last PT_LOAD header before it. What it
// answers is that of the next.
#[tactic(auto, using(ebpf::specs::Choice::choices), unfolding(crate::specs::ProgramHeaders::load_step))]
fn load_step(len: u64, h: Elf64Phdr, low: u64) -> Result<u64, ElfParserError>
    ensures { result ≡ load_step len h low }
{
    if h.p_type != PT_LOAD {
        return Ok(low);
    }
    if h.p_vaddr < low {
        return Err(ElfParserError::InvalidProgramHeader);
    }
    if past(len, h.p_offset, h.p_filesz) {
        return Err(ElfParserError::OutOfBounds);
    }
    Ok(h.p_vaddr)
}

// All program headers.
pub(crate) fn check_program_headers(table: &Table<'_, Elf64Phdr>) -> Result<(), ElfParserError>
    ensures { result ≡ loads_check table.now.file.now table.now.entries.count table.now.entries.offset }
{
    let len = table.file.len() as u64;
    table.over(0, |_, h, low| load_step(len, h, low))?;
    Ok(())
}

// Where an address stands in the file by a program header, if that contains it.
#[tactic(auto, using(ebpf::specs::Choice::choices), unfolding(crate::specs::ProgramHeaders::contains_step))]
fn contains_step(h: Elf64Phdr, vaddr: u64) -> Result<Option<u64>, ElfParserError>
    ensures { result ≡ contains_step vaddr h }
{
    let end = h
        .p_vaddr
        .checked_add(h.p_memsz)
        .ok_or(ElfParserError::OutOfBounds)?;
    if vaddr < h.p_vaddr {
        return Ok(None);
    }
    if end <= vaddr {
        return Ok(None);
    }
    let offset = (vaddr - h.p_vaddr)
        .checked_add(h.p_offset)
        .ok_or(ElfParserError::OutOfBounds)?;
    Ok(Some(offset))
}

// The first program header that contains the address decides.
#[tactic(auto, using(std::proofs::lemmas::Result::err_from_is_err_and, crate::specs::ProgramHeaders::found_is, crate::specs::ProgramHeaders::found_end))]
pub(crate) fn header_for_vaddr(
    table: &Table<'_, Elf64Phdr>,
    vaddr: u64,
) -> Result<Option<u64>, ElfParserError>
    ensures { result ≡ header_for_vaddr table.now.file.now vaddr table.now.entries.count table.now.entries.offset }
{
    for i in 0..table.entries.count {
        if let Some(offset) = contains_step(table.nth(i), vaddr)? {
            return Ok(Some(offset));
        }
    }
    Ok(None)
}
