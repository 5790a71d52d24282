// The sections that are found by their names.
ghost use Rattle.std.specs.Prelude.{◌≡◌};
ghost use Rattle.elf_parser.specs.SectionNames.{role_of, placed, role_step, name_step, names_of};

use crate::consts::SECTION_NAME_LENGTH_MAXIMUM;
use crate::error::ElfParserError;
use crate::parts::bytes_at;
use crate::strings::get_string_in_section;
use crate::table::Table;
use crate::types::Elf64Shdr;

// Which of the names that the reader knows a section has.
#[derive(Clone, Copy, PartialEq, Eq, Debug)]
pub enum Role {
    SymbolTable,
    SymbolNames,
    DynamicSymbolNames,
}

// Where the headers of those sections stand in the file.
#[derive(Clone, Copy, PartialEq, Eq, Debug, Default)]
pub struct Named {
    pub symtab: Option<u64>,
    pub strtab: Option<u64>,
    pub dynstr: Option<u64>,
}

#[tactic(auto, using(crate::specs::SectionNames::symtab_read, crate::specs::SectionNames::strtab_read, crate::specs::SectionNames::dynstr_read, crate::specs::SectionNames::others_read))]
fn role_of(name: &[u8]) -> Option<Role>
    ensures { result ≡ role_of name.now }
{
    match name {
        b".symtab" => Some(Role::SymbolTable),
        b".strtab" => Some(Role::SymbolNames),
        b".dynstr" => Some(Role::DynamicSymbolNames),
        _ => None,
    }
}

// A header's place, where there was none of its kind: a second one is refused.
fn placed(before: Option<u64>, at: u64) -> Result<Option<u64>, ElfParserError>
    ensures { result ≡ placed before at }
{
    if before.is_some() {
        return Err(ElfParserError::InvalidSectionHeader);
    }
    Ok(Some(at))
}

// The section whose header is at `at` has this role.
fn role_step(role: Role, at: u64, n: Named) -> Result<Named, ElfParserError>
    ensures { result ≡ role_step role at n }
{
    match role {
        Role::SymbolTable => Ok(Named {
            symtab: placed(n.symtab, at)?,
            ..n
        }),
        Role::SymbolNames => Ok(Named {
            strtab: placed(n.strtab, at)?,
            ..n
        }),
        Role::DynamicSymbolNames => Ok(Named {
            dynstr: placed(n.dynstr, at)?,
            ..n
        }),
    }
}

// The section header at `at`, with the name table's.
fn name_step(
    file: &[u8],
    names: Elf64Shdr,
    h: Elf64Shdr,
    at: u64,
    n: Named,
) -> Result<Named, ElfParserError>
    ensures { result ≡ name_step file.now names h at n }
{
    let place = get_string_in_section(file, names, h.sh_name, SECTION_NAME_LENGTH_MAXIMUM)?;
    match role_of(bytes_at(file, place)) {
        Some(role) => role_step(role, at, n),
        None => Ok(n),
    }
}

// All section headers.
pub(crate) fn find_named(
    names: Elf64Shdr,
    table: &Table<'_, Elf64Shdr>,
) -> Result<Named, ElfParserError>
    ensures { result ≡ names_of table.now.file.now names table.now.entries.count table.now.entries.offset }
{
    let file = table.file;
    table.over(
        Named::default(),
        |at, h, n| name_step(file, names, h, at, n),
    )
}
