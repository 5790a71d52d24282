// The parse: every check in the order of the Rust, and the layout that it leaves.
ghost use Rattle.std.specs.Prelude.{◌≡◌, ◌+◌, ◌*◌, length};
ghost use Rattle.elf_parser.specs.Parse.{Room, tables_of, first_check, file_check, linked_layout, named_layout, parsed};

use crate::consts::SHT_NULL;
use crate::dynamic::{HeaderTables, Tables};
use crate::error::ElfParserError;
use crate::header::{check_header, check_tables};
use crate::program_headers::check_program_headers;
use crate::records::Entries;
use crate::section_headers::check_section_headers;
use crate::section_names::{Named, find_named};
use crate::types::{Elf64Ehdr, Elf64Shdr, Record, file_header, record_at};

// Where things stand in a file: plain numbers. A section header that was found by name, or is the
// name table's, is given by its offset in the file. The hash table of the dynamic
// symbols is given by its address, as the dynamic table has it: a parse does not look for it.
#[derive(Clone, Copy, PartialEq, Eq, Debug)]
pub struct Layout {
    pub program_headers: Entries,
    pub section_headers: Entries,
    pub shstrtab: Option<u64>,
    pub symtab: Option<u64>,
    pub strtab: Option<u64>,
    pub dynstr: Option<u64>,
    pub dynamic_relocations: Entries,
    pub dynamic_relas: Entries,
    pub dynamic_symbols: Entries,
    pub hash_table: Option<u64>,
}

// The two header tables, as the file header has them.
fn header_tables(h: Elf64Ehdr) -> Tables
    ensures { result ≡ tables_of h }
{
    Tables {
        program_headers: Entries {
            offset: h.e_phoff,
            count: h.e_phnum as u64,
        },
        section_headers: Entries {
            offset: h.e_shoff,
            count: h.e_shnum as u64,
        },
    }
}

// The first section header is of type SHT_NULL.
#[tactic(auto, using(ebpf::specs::Choice::choices), unfolding(crate::specs::Parse::first_check))]
fn check_first(first: Elf64Shdr) -> Result<(), ElfParserError>
    ensures { result ≡ first_check first }
{
    if first.sh_type != SHT_NULL {
        return Err(ElfParserError::InvalidSectionHeader);
    }
    Ok(())
}

// The checks of headers and sections.
#[tactic(auto, using(crate::specs::FileHeader::tables_within, crate::specs::Parse::some_section), unfolding(crate::specs::Parse::file_check))]
fn check_file(file: &[u8]) -> Result<(), ElfParserError>
    ensures { result ≡ file_check file.now }
{
    check_header(file)?;
    let h = file_header(file);
    let ranges = check_tables(file.len() as u64, h)?;
    let tables = HeaderTables::new(file, header_tables(h));
    check_first(record_at(file, h.e_shoff as usize))?;
    check_program_headers(&tables.program_headers())?;
    check_section_headers(&tables.section_headers(), &ranges)
}

// With the named sections found, the dynamic part.
// Kept: it makes the tables again. The definition takes the header, so that a contract over the tables would have to
// say besides whose they are.
fn linked_layout(file: &[u8], h: Elf64Ehdr, names: u64, n: Named) -> Result<Layout, ElfParserError>
    requires { Room (length file.now) h }
    ensures { result ≡ linked_layout file.now h names n }
{
    let tables = header_tables(h);
    let d = HeaderTables::new(file, tables).parse_dynamic()?;
    Ok(Layout {
        program_headers: tables.program_headers,
        section_headers: tables.section_headers,
        shstrtab: Some(names),
        symtab: n.symtab,
        strtab: n.strtab,
        dynstr: n.dynstr,
        dynamic_relocations: d.relocations,
        dynamic_relas: d.relas,
        dynamic_symbols: d.symbols,
        hash_table: d.hash_table,
    })
}

// With headers and sections checked, the names and the dynamic part.
#[tactic(auto, using(ebpf::specs::Choice::choices), unfolding(crate::specs::Parse::named_layout))]
fn named_layout(file: &[u8], h: Elf64Ehdr) -> Result<Layout, ElfParserError>
    requires { Room (length file.now) h }
    ensures { result ≡ named_layout file.now h }
{
    if h.e_shstrndx == 0 {
        return Err(ElfParserError::NoSectionNameStringTable);
    }
    let names = h.e_shoff + h.e_shstrndx as u64 * Elf64Shdr::SIZE as u64;
    let tables = HeaderTables::new(file, header_tables(h));
    let n = find_named(record_at(file, names as usize), &tables.section_headers())?;
    linked_layout(file, h, names, n)
}

#[tactic(auto, using(crate::specs::Parse::room), unfolding(crate::specs::Parse::parsed))]
pub fn parse(file: &[u8]) -> Result<Layout, ElfParserError>
    ensures { result ≡ parsed file.now }
{
    check_file(file)?;
    named_layout(file, file_header(file))
}
