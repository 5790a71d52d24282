// The sections that have bytes in the file: they ascend there, lie in it, and are apart from the
// file header and both tables.
ghost use Rattle.std.specs.Prelude.{◌≡◌};
ghost use Rattle.elf_parser.specs.SectionHeaders.{section_step, sections_check};

use crate::consts::SHT_NOBITS;
use crate::error::ElfParserError;
use crate::header::overlaps;
use crate::table::Table;
use crate::types::Elf64Shdr;
use std::ops::Range;

// The bytes of the two header tables.
#[derive(Clone, PartialEq, Eq, Debug, Drop)]
pub struct Ranges {
    pub program_headers: Range<u64>,
    pub section_headers: Range<u64>,
}

// The checks of one section, whose bytes are apart from the file header and both tables and behind those of the
// section before, which end at `low`. What it answers is where the next section may begin.
#[tactic(auto, using(ebpf::specs::Choice::choices, crate::specs::Errors::row_stops, crate::specs::Errors::row_goes), unfolding(crate::specs::SectionHeaders::section_step, crate::specs::SectionHeaders::section_check))]
fn section_step(len: u64, h: Elf64Shdr, low: u64, t: &Ranges) -> Result<u64, ElfParserError>
    ensures { result ≡ section_step len t.now h low }
{
    if h.sh_type == SHT_NOBITS {
        return Ok(low);
    }
    let sh_offset = h.sh_offset;
    let end = sh_offset
        .checked_add(h.sh_size)
        .ok_or(ElfParserError::OutOfBounds)?;
    let bytes = sh_offset..end;
    if overlaps(&bytes, &(0..64)) {
        return Err(ElfParserError::Overlap);
    }
    if overlaps(&bytes, &t.program_headers) {
        return Err(ElfParserError::Overlap);
    }
    if overlaps(&bytes, &t.section_headers) {
        return Err(ElfParserError::Overlap);
    }
    if sh_offset < low {
        return Err(ElfParserError::SectionNotInOrder);
    }
    if len < end {
        return Err(ElfParserError::OutOfBounds);
    }
    Ok(end)
}

// All section headers.
pub(crate) fn check_section_headers(
    table: &Table<'_, Elf64Shdr>,
    t: &Ranges,
) -> Result<(), ElfParserError>
    ensures { result ≡ sections_check table.now.file.now t.now table.now.entries.count table.now.entries.offset }
{
    let len = table.file.len() as u64;
    table.over(0, |_, h, low| section_step(len, h, low, t))?;
    Ok(())
}
