// Names: bytes of a string table up to a zero byte, which has to stand within a limit and within
// the table.
ghost use Rattle.std.specs.Prelude.{◌≡◌, ◌-◌, ◌≤◌, ◌==◌, length, position};
ghost use Rattle.elf_parser.specs.Strings.{no_zero, ended, string_in};

use crate::consts::SHT_STRTAB;
use crate::error::ElfParserError;
use crate::parts::Place;
use crate::types::Elf64Shdr;

// Why a name has no end: the section ends before the limit does, or the name is too long.
// Kept: `cut` says which of two refusals it is and chooses no step. As an `if` in its caller the proof did not close.
#[tactic(auto, using(ebpf::specs::Choice::choices), unfolding(crate::specs::Strings::no_zero))]
fn no_zero(cut: bool, place: Place) -> ElfParserError
    ensures { result ≡ no_zero cut place }
{
    if cut {
        return ElfParserError::StringUnterminated(place);
    }
    ElfParserError::StringTooLong(place)
}

// The index of the first zero byte.
fn first_zero(part: &[u8]) -> Option<usize>
    ensures { result ≡ position (λ b. b == 0) part.now }
{
    part.iter().position(|byte| *byte == 0)
}

// The name from `start` on, which ends at its first zero byte before `end`; `missing` where there is none.
#[tactic(auto, using(crate::specs::Strings::zero_found, crate::specs::Strings::zero_missing))]
fn name_from(
    file: &[u8],
    start: usize,
    end: usize,
    missing: ElfParserError,
) -> Result<Place, ElfParserError>
    requires { (start ≤ end) × (end ≤ length file.now) }
    ensures { result ≡ ended missing (end - start) file.now start }
{
    let length = first_zero(&file[start..end]).ok_or(missing)?;
    Ok(Place { start, length })
}

// The name at `offset_in_section` of a string table, of fewer than `maximum_length` bytes.
#[tactic(auto, using(ebpf::specs::Choice::choices, crate::specs::Errors::row_stops, crate::specs::Errors::row_goes, crate::specs::Strings::ended_terminated), unfolding(crate::specs::Strings::string_in, crate::specs::Strings::string_check))]
pub fn get_string_in_section(
    file: &[u8],
    section_header: Elf64Shdr,
    offset_in_section: u32,
    maximum_length: u32,
) -> Result<Place, ElfParserError>
    ensures { result ≡ string_in file.now section_header offset_in_section maximum_length }
{
    if section_header.sh_type != SHT_STRTAB {
        return Err(ElfParserError::InvalidSectionHeader);
    }
    let sh_offset = section_header.sh_offset;
    let start = sh_offset
        .checked_add(offset_in_section as u64)
        .ok_or(ElfParserError::OutOfBounds)?;
    let section_end = sh_offset
        .checked_add(section_header.sh_size)
        .ok_or(ElfParserError::OutOfBounds)?;
    let limit = start
        .checked_add(maximum_length as u64)
        .ok_or(ElfParserError::OutOfBounds)?;
    let end = section_end.min(limit);
    if end < start {
        return Err(ElfParserError::OutOfBounds);
    }
    if (file.len() as u64) < end {
        return Err(ElfParserError::OutOfBounds);
    }
    let searched = Place {
        start: start as usize,
        length: (end - start) as usize,
    };
    let missing = no_zero(section_end < limit, searched);
    name_from(file, start as usize, end as usize, missing)
}
