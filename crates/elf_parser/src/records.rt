// Records by index, and the contents of sections, for any numbers: also for a layout that no parse
// made.
ghost use Rattle.std.specs.Prelude.{◌≡◌, ◌+◌, ◌≤◌, ◌<◌, length, MatchResult};
ghost use Rattle.elf_parser.specs.declared.error.ElfParserError.TheVariants.{OutOfBounds};
ghost use Rattle.elf_parser.specs.Records.{entry_at, entry_of, program_header_of, section_header_of, dynamic_symbol_of, dynamic_relocation_of, dynamic_rela_of, sliced, symbol_table_in, symbol_table_of, file_range, file_range_of, contents_place, section_place_of};
ghost use Rattle.elf_parser.specs.Parts.{part_of};

use crate::consts::{SHT_DYNSYM, SHT_NOBITS, SHT_NULL, SHT_SYMTAB};
use crate::elf64::Elf64;
use crate::error::ElfParserError;
use crate::parts::{Place, part_of, past};
use crate::types::{Elf64Phdr, Elf64Rel, Elf64Rela, Elf64Shdr, Elf64Sym, Record, record_at};

// Entries of one kind that stand one after another in the file.
#[derive(Clone, Copy, PartialEq, Eq, Debug, Default)]
pub struct Entries {
    pub offset: u64,
    pub count: u64,
}

// Where the entry number `index` of a table of `T` starts.
#[tactic(auto, using(ebpf::specs::Choice::choices), unfolding(crate::specs::Records::entry_at))]
fn entry_at<T: Record>(len: u64, table: Entries, index: u32) -> Result<usize, ElfParserError>
    ensures { result ≡ entry_at len table T.SIZE index }
{
    let width = T::SIZE as u64;
    if table.count <= index as u64 {
        return Err(ElfParserError::NoSuchIndex);
    }
    let from = (index as u64) * width;
    if past(len, table.offset, from + width) {
        return Err(ElfParserError::OutOfBounds);
    }
    Ok((table.offset + from) as usize)
}

// The entry number `index` of a table.
#[tactic(auto, using(crate::specs::Records::entry_within))]
pub fn entry<T: Record>(file: &[u8], table: Entries, index: u32) -> Result<T, ElfParserError>
    ensures { result ≡ entry_of T.SIZE T.at file.now table index }
{
    let at = entry_at::<T>(file.len() as u64, table, index)?;
    Ok(record_at(file, at))
}

// The record at a place that need not lie in the file.
pub(crate) fn record_in<T: Record>(file: &[u8], at: u64) -> Result<T, ElfParserError>
    ensures { MatchResult result (λ x. (at + T.SIZE ≤ length file.now) × (x ≡ T.at file.now at)) (λ r. (length file.now < at + T.SIZE) × (r ≡ OutOfBounds)) }
{
    if past(file.len() as u64, at, T::SIZE as u64) {
        return Err(ElfParserError::OutOfBounds);
    }
    Ok(record_at(file, at as usize))
}

// Records of `T` that fill `size` bytes from `offset` on.
#[tactic(auto, using(ebpf::specs::Choice::choices), unfolding(crate::specs::Records::sliced))]
pub(crate) fn slice_from_bytes<T: Record>(
    len: u64,
    offset: u64,
    size: u64,
) -> Result<Entries, ElfParserError>
    ensures { result ≡ sliced len offset size T.SIZE }
{
    let width = T::SIZE as u64;
    let end = offset.checked_add(size).ok_or(ElfParserError::OutOfBounds)?;
    if 0 < size % width {
        return Err(ElfParserError::InvalidSize);
    }
    if len < end {
        return Err(ElfParserError::OutOfBounds);
    }
    if 0 < offset % 8 {
        return Err(ElfParserError::InvalidAlignment);
    }
    Ok(Entries {
        offset,
        count: size / width,
    })
}

impl Elf64Shdr {
    // The symbol table of a section of that type, in a file of `len` bytes.
    #[tactic(auto, using(ebpf::specs::Choice::choices), unfolding(crate::specs::Records::symbol_table_in))]
    pub(crate) fn symbol_table_in(self, len: u64) -> Result<Entries, ElfParserError>
        ensures { result ≡ symbol_table_in len self }
    {
        if (self.sh_type != SHT_SYMTAB) & (self.sh_type != SHT_DYNSYM) {
            return Err(ElfParserError::InvalidSectionHeader);
        }
        slice_from_bytes::<Elf64Sym>(len, self.sh_offset, self.sh_size)
    }

    // Where a section's bytes stand. One of type SHT_NOBITS has none in the file.
    #[tactic(auto, using(ebpf::specs::Choice::choices), unfolding(crate::specs::Records::file_range))]
    fn range_in_file(self, len: u64) -> Result<Place, ElfParserError>
        ensures { result ≡ file_range len self }
    {
        if self.sh_type == SHT_NOBITS {
            return Ok(Place::default());
        }
        if past(len, self.sh_offset, self.sh_size) {
            return Err(ElfParserError::OutOfBounds);
        }
        Ok(Place {
            start: self.sh_offset as usize,
            length: self.sh_size as usize,
        })
    }

    // The same of its contents. A header of type SHT_NULL is no section's: its other fields have no meaning.
    #[tactic(auto, using(ebpf::specs::Choice::choices), unfolding(crate::specs::Records::contents_place))]
    fn contents_in_file(self, len: u64) -> Result<Place, ElfParserError>
        ensures { result ≡ contents_place len self }
    {
        if self.sh_type == SHT_NULL {
            return Err(ElfParserError::NotASection);
        }
        self.range_in_file(len)
    }
}

impl<'a> Elf64<'a> {
    pub fn program_header(&self, index: u32) -> Result<Elf64Phdr, ElfParserError>
        ensures { result ≡ program_header_of self.now.file.now self.now.layout index }
    {
        entry(self.file, self.layout.program_headers, index)
    }

    pub fn section_header(&self, index: u32) -> Result<Elf64Shdr, ElfParserError>
        ensures { result ≡ section_header_of self.now.file.now self.now.layout index }
    {
        entry(self.file, self.layout.section_headers, index)
    }

    pub fn dynamic_symbol(&self, index: u32) -> Result<Elf64Sym, ElfParserError>
        ensures { result ≡ dynamic_symbol_of self.now.file.now self.now.layout index }
    {
        entry(self.file, self.layout.dynamic_symbols, index)
    }

    // The dynamic relocation number `index`, without an addend and with one.
    pub fn dynamic_relocation(&self, index: u32) -> Result<Elf64Rel, ElfParserError>
        ensures { result ≡ dynamic_relocation_of self.now.file.now self.now.layout index }
    {
        entry(self.file, self.layout.dynamic_relocations, index)
    }

    pub fn dynamic_rela(&self, index: u32) -> Result<Elf64Rela, ElfParserError>
        ensures { result ≡ dynamic_rela_of self.now.file.now self.now.layout index }
    {
        entry(self.file, self.layout.dynamic_relas, index)
    }

    // The symbols of `.symtab`: none where the file has no such section.
    #[tactic(auto, using(ebpf::specs::Choice::choices), unfolding(crate::specs::Records::symbol_table_of, crate::specs::Records::symbols_at))]
    pub fn symbol_table(&self) -> Result<Entries, ElfParserError>
        ensures { result ≡ symbol_table_of self.now.file.now self.now.layout }
    {
        let Some(header_at) = self.layout.symtab else {
            return Ok(Entries::default());
        };
        let header = record_in::<Elf64Shdr>(self.file, header_at)?;
        header.symbol_table_in(self.file.len() as u64)
    }

    // Where the bytes of section `index` stand in the file.
    // Kept: `section_place` has the same two lines with another check; one function that takes the check is no
    // plainer, since its contract has to name what the check answers.
    pub fn file_range(&self, index: u32) -> Result<Place, ElfParserError>
        ensures { result ≡ file_range_of self.now.file.now self.now.layout index }
    {
        let header = self.section_header(index)?;
        header.range_in_file(self.file.len() as u64)
    }

    // Where the contents of section `index` stand.
    pub fn section_place(&self, index: u32) -> Result<Place, ElfParserError>
        ensures { result ≡ section_place_of self.now.file.now self.now.layout index }
    {
        let header = self.section_header(index)?;
        header.contents_in_file(self.file.len() as u64)
    }

    // The contents of section `index`, as a part of the file; none where they are refused.
    pub fn section_contents(&self, index: u32) -> &'a [u8]
        ensures { result.now ≡ part_of self.now.file.now (section_place_of self.now.file.now self.now.layout index) }
    {
        part_of(self.file, self.section_place(index))
    }
}
