// Names by string offset: where they stand, and as parts of the file.
ghost use Rattle.std.specs.Prelude.{◌≡◌};
ghost use Rattle.elf_parser.specs.Names.{name_by, section_name, symbol_name, dynamic_symbol_name};
ghost use Rattle.elf_parser.specs.Parts.{part_of};

use crate::consts::{SECTION_NAME_LENGTH_MAXIMUM, SYMBOL_NAME_LENGTH_MAXIMUM};
use crate::elf64::Elf64;
use crate::error::ElfParserError;
use crate::parts::Place;
use crate::records::record_in;
use crate::strings::get_string_in_section;

// The name at `offset` of the string table whose header stands at `header_at`; `missing` where
// there is no such header.
#[tactic(auto, using(ebpf::specs::Choice::choices), unfolding(crate::specs::Names::name_by))]
fn name_by(
    file: &[u8],
    header_at: Option<u64>,
    offset: u32,
    most: u32,
    missing: ElfParserError,
) -> Result<Place, ElfParserError>
    ensures { result ≡ name_by file.now header_at offset most missing }
{
    let at = header_at.ok_or(missing)?;
    get_string_in_section(file, record_in(file, at)?, offset, most)
}

// Kept: three of one shape over `name_by`; one function of the kind of name is no plainer, since each kind has its
// own table, limit and refusal, which its callers would then tell apart.
impl Elf64<'_> {
    pub fn section_name(&self, sh_name: u32) -> Result<Place, ElfParserError>
        ensures { result ≡ section_name self.now.file.now self.now.layout sh_name }
    {
        name_by(
            self.file,
            self.layout.shstrtab,
            sh_name,
            SECTION_NAME_LENGTH_MAXIMUM,
            ElfParserError::NoSectionNameStringTable,
        )
    }

    pub fn symbol_name(&self, st_name: u32) -> Result<Place, ElfParserError>
        ensures { result ≡ symbol_name self.now.file.now self.now.layout st_name }
    {
        name_by(
            self.file,
            self.layout.strtab,
            st_name,
            SYMBOL_NAME_LENGTH_MAXIMUM,
            ElfParserError::NoStringTable,
        )
    }

    pub fn dynamic_symbol_name(&self, st_name: u32) -> Result<Place, ElfParserError>
        ensures { result ≡ dynamic_symbol_name self.now.file.now self.now.layout st_name }
    {
        name_by(
            self.file,
            self.layout.dynstr,
            st_name,
            SYMBOL_NAME_LENGTH_MAXIMUM,
            ElfParserError::NoDynamicStringTable,
        )
    }
}

// The same names as parts of the file, empty where they are refused.
// Kept: three over `part_of`, as there are three of names.
impl<'a> Elf64<'a> {
    pub fn section_name_part(&self, sh_name: u32) -> &'a [u8]
        ensures { result.now ≡ part_of self.now.file.now (section_name self.now.file.now self.now.layout sh_name) }
    {
        self.part_of(self.section_name(sh_name))
    }

    pub fn symbol_name_part(&self, st_name: u32) -> &'a [u8]
        ensures { result.now ≡ part_of self.now.file.now (symbol_name self.now.file.now self.now.layout st_name) }
    {
        self.part_of(self.symbol_name(st_name))
    }

    pub fn dynamic_symbol_name_part(&self, st_name: u32) -> &'a [u8]
        ensures { result.now ≡ part_of self.now.file.now (dynamic_symbol_name self.now.file.now self.now.layout st_name) }
    {
        self.part_of(self.dynamic_symbol_name(st_name))
    }
}
