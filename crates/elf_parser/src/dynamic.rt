// The dynamic table: where it stands, its 35 values, and what they lead to.
ghost use Rattle.std.specs.Prelude.{◌≡◌, ◌+◌, ◌*◌, ltb, length};
ghost use Rattle.elf_parser.specs.Dynamic.{Inside, section_with_addr, from_segment, from_section, dynamic_table, with_tag, dynamic_values, relocation_offset, file_offset, relocations_at, relocations_of, symbols_of, address_of, linked_by, dynamic_of};

use crate::consts::{
    DT_HASH, DT_NULL, DT_NUM, DT_REL, DT_RELA, DT_RELAENT, DT_RELASZ, DT_RELENT, DT_RELSZ,
    DT_SYMTAB, PT_DYNAMIC, SHT_DYNAMIC,
};
use crate::elf64::Elf64;
use crate::error::ElfParserError;
use crate::parts::past;
use crate::program_headers::header_for_vaddr;
use crate::records::{Entries, slice_from_bytes};
use crate::table::Table;
use crate::types::{Elf64Dyn, Elf64Phdr, Elf64Rel, Elf64Rela, Elf64Shdr, Record};

// The two header tables.
#[derive(Clone, Copy, PartialEq, Eq, Debug)]
pub struct Tables {
    pub program_headers: Entries,
    pub section_headers: Entries,
}

// What the dynamic table leads to: the relocations, those that bring an addend, and the symbols; and the
// address of the symbols' hash table, which a parse does not look at.
#[derive(Clone, Copy, PartialEq, Eq, Debug)]
pub struct Linked {
    pub relocations: Entries,
    pub relas: Entries,
    pub symbols: Entries,
    pub hash_table: Option<u64>,
}

// The values with that of a tag set; a tag of DT_NUM or more is skipped.
// Kept: the array by value, in and out, as the scope names it.
#[tactic(auto, using(ebpf::specs::Choice::choices), unfolding(crate::specs::Dynamic::with_tag))]
fn with_tag(values: [u64; DT_NUM], d: Elf64Dyn) -> [u64; DT_NUM]
    ensures { result ≡ with_tag values d.d_tag d.d_val }
{
    if d.d_tag < DT_NUM as u64 {
        let mut next = values;
        next[d.d_tag as usize] = d.d_val;
        return next;
    }
    values
}

// The values of a table's entries, up to the first DT_NULL.
#[tactic(auto, using(crate::specs::Dynamic::values_at_stop, crate::specs::Dynamic::values_at_next, crate::specs::Dynamic::values_at_end))]
fn dynamic_values(table: &Table<'_, Elf64Dyn>) -> [u64; DT_NUM]
    ensures { result ≡ dynamic_values table.now.file.now table.now.entries.count table.now.entries.offset }
{
    let mut values = [0; DT_NUM];
    for i in 0..table.entries.count {
        let d = table.nth(i);
        if d.d_tag == DT_NULL {
            return values;
        }
        let next = with_tag(values, d);
        values = next;
    }
    values
}

// The address that a tag's value gives: none where it is 0, as that of a tag that is not there.
#[tactic(auto, using(ebpf::specs::Choice::choices))]
fn address_of(value: u64) -> Option<u64>
    ensures { result ≡ address_of value }
{
    (value != 0).then_some(value)
}

// The relocations of one kind that fill `size` bytes from `offset` on.
#[tactic(auto, using(ebpf::specs::Choice::choices), unfolding(crate::specs::Dynamic::relocations_at))]
fn relocations_at<T: Record>(len: u64, offset: u64, size: u64) -> Result<Entries, ElfParserError>
    ensures { result ≡ relocations_at len offset size T.SIZE }
{
    offset.checked_add(size).ok_or(ElfParserError::OutOfBounds)?;
    slice_from_bytes::<T>(len, offset, size).map_err(|_| ElfParserError::InvalidDynamicSectionTable)
}

// The header tables of a file, which lie in it.
#[derive(Clone, Copy, PartialEq, Eq, Debug)]
pub(crate) struct HeaderTables<'a> {
    file: &'a [u8],
    tables: Tables,
    pub ghost inside: { Inside (length file.now) tables },
}

impl<'a> HeaderTables<'a> {
    pub(crate) fn new(file: &'a [u8], tables: Tables) -> HeaderTables<'a>
        requires { Inside (length file.now) tables }
        ensures { (result.file.now ≡ file.now) × (result.tables ≡ tables) }
    {
        HeaderTables { file, tables }
    }

    pub(crate) fn program_headers(&self) -> Table<'a, Elf64Phdr>
        ensures { (result.file.now ≡ self.now.file.now) × (result.entries ≡ self.now.tables.program_headers) }
    {
        Table::new(self.file, self.tables.program_headers)
    }

    pub(crate) fn section_headers(&self) -> Table<'a, Elf64Shdr>
        ensures { (result.file.now ≡ self.now.file.now) × (result.entries ≡ self.now.tables.section_headers) }
    {
        Table::new(self.file, self.tables.section_headers)
    }

    // The dynamic table by the first PT_DYNAMIC header; refused where there is none or it is unreadable.
    #[tactic(auto, using(ebpf::specs::Choice::choices), unfolding(crate::specs::Dynamic::segment_slice))]
    fn table_by_segment(&self) -> Result<Entries, ElfParserError>
        ensures { result ≡ from_segment self.now.file.now self.now.tables }
    {
        let h = self
            .program_headers()
            .first_with(|h| h.p_type == PT_DYNAMIC)
            .ok_or(ElfParserError::InvalidDynamicSectionTable)?;
        slice_from_bytes::<Elf64Dyn>(self.file.len() as u64, h.p_offset, h.p_filesz)
    }

    // The dynamic table by the first SHT_DYNAMIC header: no entries where there is none.
    #[tactic(auto, using(ebpf::specs::Choice::choices), unfolding(crate::specs::Dynamic::section_slice))]
    fn table_by_section(&self) -> Result<Entries, ElfParserError>
        ensures { result ≡ from_section self.now.file.now self.now.tables }
    {
        match self
            .section_headers()
            .first_with(|h| h.sh_type == SHT_DYNAMIC)
        {
            None => Ok(Entries::default()),
            Some(h) => slice_from_bytes::<Elf64Dyn>(
                self.file.len() as u64,
                h.sh_offset,
                h.sh_size,
            ).map_err(|_| ElfParserError::InvalidDynamicSectionTable),
        }
    }

    // Kept: `or_else` was tried, and the proof didn't close.
    #[tactic(auto, using(ebpf::specs::Choice::choices), unfolding(crate::specs::Dynamic::or_else))]
    fn dynamic_table(&self) -> Result<Entries, ElfParserError>
        ensures { result ≡ dynamic_table self.now.file.now self.now.tables }
    {
        match self.table_by_segment() {
            Ok(entries) => Ok(entries),
            Err(_) => self.table_by_section(),
        }
    }

    // The first section header with an address.
    fn section_with_addr(&self, vaddr: u64) -> Option<Elf64Shdr>
        ensures { result ≡ section_with_addr self.now.file.now self.now.tables vaddr }
    {
        self.section_headers().first_with(|h| h.sh_addr == vaddr)
    }

    // Where what has an address starts in the file: by the first program header that contains it, else by
    // the first section header with that address.
    fn relocation_offset(&self, vaddr: u64) -> Result<Option<u64>, ElfParserError>
        ensures { result ≡ relocation_offset self.now.file.now self.now.tables vaddr }
    {
        if let Some(offset) = header_for_vaddr(&self.program_headers(), vaddr)? {
            return Ok(Some(offset));
        }
        Ok(self.section_with_addr(vaddr).map(|h| h.sh_offset))
    }

    // The relocations of one kind by the values of its three tags: address, size and size of an entry.
    // None where the address is 0.
    #[tactic(auto, using(ebpf::specs::Choice::choices), unfolding(crate::specs::Dynamic::relocations_of, crate::specs::Dynamic::relocations_by))]
    fn relocations<T: Record>(
        &self,
        vaddr: u64,
        size: u64,
        entry_size: u64,
    ) -> Result<Entries, ElfParserError>
        ensures { result ≡ relocations_of self.now.file.now self.now.tables T.SIZE vaddr size entry_size }
    {
        if vaddr == 0 {
            return Ok(Entries::default());
        }
        if entry_size != T::SIZE as u64 {
            return Err(ElfParserError::InvalidDynamicSectionTable);
        }
        if size == 0 {
            return Err(ElfParserError::InvalidDynamicSectionTable);
        }
        let offset = self
            .relocation_offset(vaddr)?
            .ok_or(ElfParserError::InvalidDynamicSectionTable)?;
        relocations_at::<T>(self.file.len() as u64, offset, size)
    }

    // The dynamic symbols by the value of DT_SYMTAB: none where it is 0.
    #[tactic(auto, using(ebpf::specs::Choice::choices), unfolding(crate::specs::Dynamic::symbols_of, crate::specs::Dynamic::symbols_by))]
    fn symbols(&self, vaddr: u64) -> Result<Entries, ElfParserError>
        ensures { result ≡ symbols_of self.now.file.now self.now.tables vaddr }
    {
        if vaddr == 0 {
            return Ok(Entries::default());
        }
        let h = self
            .section_with_addr(vaddr)
            .ok_or(ElfParserError::InvalidDynamicSectionTable)?;
        h.symbol_table_in(self.file.len() as u64)
    }

    // What the values lead to: each table in turn, up to the first that is refused.
    fn linked_by(&self, values: &[u64; DT_NUM]) -> Result<Linked, ElfParserError>
        ensures { result ≡ linked_by self.now.file.now self.now.tables values.now }
    {
        let relocations_found = self.relocations::<Elf64Rel>(
            values[DT_REL],
            values[DT_RELSZ],
            values[DT_RELENT],
        )?;
        let relas = self.relocations::<Elf64Rela>(
            values[DT_RELA],
            values[DT_RELASZ],
            values[DT_RELAENT],
        )?;
        let symbols = self.symbols(values[DT_SYMTAB])?;
        Ok(Linked {
            relocations: relocations_found,
            relas,
            symbols,
            hash_table: address_of(values[DT_HASH]),
        })
    }

    #[tactic(auto, using(crate::specs::Dynamic::table_in_file))]
    pub(crate) fn parse_dynamic(&self) -> Result<Linked, ElfParserError>
        ensures { result ≡ dynamic_of self.now.file.now self.now.tables }
    {
        let table = self.dynamic_table()?;
        let values = dynamic_values(&Table::new(self.file, table));
        self.linked_by(&values)
    }
}

// Whether a table of `T` ends past `len`.
fn ends_past<T: Record>(len: u64, table: Entries) -> bool
    ensures { result ≡ ltb len (table.offset + T.SIZE * table.count) }
{
    (T::SIZE as u64)
        .checked_mul(table.count)
        .is_none_or(|size| past(len, table.offset, size))
}

impl Elf64<'_> {
    // Where what has an address starts in the file, by a layout. In one that no parse made the header
    // tables may lie outside the file.
    #[tactic(auto, using(ebpf::specs::Choice::choices), unfolding(crate::specs::Dynamic::file_offset))]
    pub fn file_offset(&self, vaddr: u64) -> Result<Option<u64>, ElfParserError>
        ensures { result ≡ file_offset self.now.file.now self.now.layout vaddr }
    {
        let t = Tables {
            program_headers: self.layout.program_headers,
            section_headers: self.layout.section_headers,
        };
        let len = self.file.len() as u64;
        if ends_past::<Elf64Phdr>(len, t.program_headers) {
            return Err(ElfParserError::OutOfBounds);
        }
        if ends_past::<Elf64Shdr>(len, t.section_headers) {
            return Err(ElfParserError::OutOfBounds);
        }
        HeaderTables::new(self.file, t).relocation_offset(vaddr)
    }
}
