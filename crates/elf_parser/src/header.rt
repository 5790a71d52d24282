// The file header's own checks, and the places of the two header tables.
ghost use Rattle.std.specs.Prelude.{◌≡◌, Ok};
ghost use Rattle.elf_parser.specs.Errors.{and_then};
ghost use Rattle.elf_parser.specs.Parse.{ranges_of};
ghost use Rattle.elf_parser.specs.FileHeader.{header_right, header_check, overlap, tables_check};

use crate::error::ElfParserError;
use crate::section_headers::Ranges;
use crate::types::{Elf64Ehdr, Elf64Phdr, Elf64Shdr, Record};
use ebpf::little_endian::read;
use std::ops::Range;

// Whether the fields of the file header are those of a file that is read here. The tests are
// joined by & and not by &&: so they make no branches, and the proof has no cases.
#[tactic(auto, using(ebpf::specs::Choice::choices), unfolding(crate::specs::FileHeader::header_right, crate::specs::FileHeader::header_fixed))]
fn header_right(file: &[u8]) -> bool
    ensures { result ≡ header_right file.now }
{
    (read::<u32>(file, 0) == 0x464c_457f)
        & (read::<u8>(file, 4) == 2)
        & (read::<u8>(file, 5) == 1)
        & (read::<u8>(file, 6) == 1)
        & (read::<u32>(file, 20) == 1)
        & (read::<u16>(file, 52) == 64)
        & (read::<u16>(file, 54) == 56)
        & (read::<u16>(file, 58) == 64)
        & (read::<u16>(file, 62) < read::<u16>(file, 60))
}

#[tactic(auto, using(ebpf::specs::Choice::choices), unfolding(crate::specs::FileHeader::header_check))]
pub(crate) fn check_header(file: &[u8]) -> Result<(), ElfParserError>
    ensures { result ≡ header_check file.now }
{
    if file.len() < 64 {
        return Err(ElfParserError::OutOfBounds);
    }
    if !header_right(file) {
        return Err(ElfParserError::InvalidFileHeader);
    }
    Ok(())
}

// Whether two ranges share a byte, or one is empty and strictly inside the other.
pub(crate) fn overlaps(a: &Range<u64>, b: &Range<u64>) -> bool
    ensures { result ≡ overlap a.now.start a.now.end b.now.start b.now.end }
{
    (b.start < a.end) & (a.start < b.end)
}

// Where both header tables stand, which is checked in the order of the Rust.
#[tactic(auto, using(ebpf::specs::Choice::choices, crate::specs::Errors::row_stops, crate::specs::Errors::row_goes), unfolding(crate::specs::FileHeader::tables_check))]
pub(crate) fn check_tables(len: u64, h: Elf64Ehdr) -> Result<Ranges, ElfParserError>
    ensures { result ≡ and_then (tables_check len h.e_phoff h.e_phnum h.e_shoff h.e_shnum) (λ x. Ok (ranges_of h)) }
{
    let phoff = h.e_phoff;
    let phsize = h.e_phnum as u64 * Elf64Phdr::SIZE as u64;
    let phend = phoff
        .checked_add(phsize)
        .ok_or(ElfParserError::OutOfBounds)?;
    let program_headers = phoff..phend;
    if overlaps(&(0..64), &program_headers) {
        return Err(ElfParserError::Overlap);
    }
    if len < phend {
        return Err(ElfParserError::OutOfBounds);
    }
    if 0 < phoff % 8 {
        return Err(ElfParserError::InvalidAlignment);
    }
    let shoff = h.e_shoff;
    let shsize = h.e_shnum as u64 * Elf64Shdr::SIZE as u64;
    let shend = shoff
        .checked_add(shsize)
        .ok_or(ElfParserError::OutOfBounds)?;
    let section_headers = shoff..shend;
    if overlaps(&(0..64), &section_headers) {
        return Err(ElfParserError::Overlap);
    }
    if overlaps(&program_headers, &section_headers) {
        return Err(ElfParserError::Overlap);
    }
    if len < shend {
        return Err(ElfParserError::OutOfBounds);
    }
    if 0 < shoff % 8 {
        return Err(ElfParserError::InvalidAlignment);
    }
    Ok(Ranges {
        program_headers,
        section_headers,
    })
}
