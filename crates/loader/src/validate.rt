// The checks ahead of a load: sizes, built-ins, the parse, the header, the sections and the text's
// place. What a load needs of them afterwards is one struct of numbers.
ghost use Rattle.std.specs.Prelude.{◌≡◌};
ghost use Rattle.loader.specs.Settings.{config_of};
ghost use Rattle.loader.specs.Validate.{size_check, ascends, header_check, writable_error, sections_check, text_check, job_of, file_check, validated, prepared};

use crate::addresses::machine_addr;
use crate::error::ElfError;
use crate::overview::look_over;
use crate::read_only::{Placing, place_gathered};
use crate::sections::{Survey, section_at};
use ebpf::{EF_SBPF_V2, MM_STACK_START};
use elf_parser::consts::{EM_BPF, EM_SBPF, ET_DYN, SHT_NOBITS};
use elf_parser::types::{Elf64Ehdr, Elf64Shdr};
use elf_parser::{Elf64, ElfParserError, Layout, Place, file_header, parse};

// The longest file that a load takes.
pub const MAX_FILE_LENGTH: u64 = 0x100_0000;

// Version 2 has no more program headers.
pub const MAX_PROGRAM_HEADERS: u64 = 9;

// The settings of a load, under the Rust's names.
#[derive(Clone, Copy, PartialEq, Eq, Debug)]
pub struct Config {
    pub enable_symbol_and_section_labels: bool,
    pub reject_broken_elfs: bool,
    pub external_internal_function_hash_collision: bool,
    pub optimize_rodata: bool,
    pub enable_sbpf_v1: bool,
    pub enable_sbpf_v2: bool,
}

// What files are loaded by: the keys of the built-in functions, and the settings.
#[derive(Clone, Copy, PartialEq, Eq, Debug)]
pub struct BuiltinProgram<'a> {
    pub functions: &'a [u32],
    pub config: Config,
}

// The settings by their bits.
impl From<u32> for Config {
    ghost from_gives = { λ settings c. c ≡ config_of settings };

    fn from(settings: u32) -> Config {
        Config {
            enable_symbol_and_section_labels: settings & 1 != 0,
            reject_broken_elfs: settings & 2 != 0,
            external_internal_function_hash_collision: settings & 4 != 0,
            optimize_rodata: settings & 8 != 0,
            enable_sbpf_v1: settings & 16 != 0,
            enable_sbpf_v2: settings & 32 != 0,
        }
    }
}

// What a file is checked and its sections are placed by: its version, and the settings.
#[derive(Clone, Copy, PartialEq, Eq, Debug)]
pub struct Rules {
    pub version2: bool,
    pub config: Config,
}

// What a load needs of a file that passed the checks. `text` is the text's place in the file, at 0 for one
// without bytes; `addr` is its address in the machine.
// Kept: the version and three settings under names of their own, and no `Rules`: the other settings count no more
// behind the checks.
// Kept: a bool says which of two versions it is, here and in `Rules`, `HashedLegacy`, `LoadedText` and `Profile`.
// It is asked by `if`, a guard, `&` or `!`; an enum of two would be compared or matched at each place.
#[derive(Clone, Copy, PartialEq, Eq, Debug)]
pub struct Job {
    pub version2: bool,
    pub labels: bool,
    pub reject_broken: bool,
    pub check_collision: bool,
    pub layout: Layout,
    pub e_entry: u64,
    pub sh_addr: u64,
    pub sh_size: u64,
    pub text: Place,
    pub addr: u64,
    pub placing: Result<Placing, ElfError>,
}

// The sizes that a load refuses before it looks at the file.
#[tactic(auto, using(ebpf::specs::Choice::choices), unfolding(crate::specs::Validate::size_check))]
fn check_sizes(len: u64, image: u64, ro: u64) -> Result<(), ElfError>
    ensures { result ≡ size_check len image ro }
{
    if MAX_FILE_LENGTH < len {
        return Err(ElfError::FileTooLong);
    }
    if image < len {
        return Err(ElfError::BufferShort);
    }
    if ro < len {
        return Err(ElfError::BufferShort);
    }
    Ok(())
}

// Whether the numbers ascend strictly.
fn is_ascending(s: &[u32]) -> bool
    ensures { result ≡ ascends s.now }
{
    s.is_sorted_by(|x, y| x < y)
}

// The file header's part: ABI, machine, type, version, and version 2's limits.
#[tactic(auto, using(ebpf::specs::Choice::choices), unfolding(crate::specs::Validate::header_check))]
fn check_header(h: Elf64Ehdr, rules: Rules) -> Result<(), ElfError>
    ensures { result ≡ header_check h rules.config rules.version2 }
{
    let c = rules.config;
    let version2 = rules.version2;
    if h.ei_osabi != 0 {
        return Err(ElfError::WrongAbi);
    }
    if (h.e_machine != EM_BPF) & (h.e_machine != EM_SBPF) {
        return Err(ElfError::WrongMachine);
    }
    if h.e_type != ET_DYN {
        return Err(ElfError::WrongType);
    }
    if version2 & !c.enable_sbpf_v2 {
        return Err(ElfError::UnsupportedSBPFVersion);
    }
    if !version2 & !c.enable_sbpf_v1 {
        return Err(ElfError::UnsupportedSBPFVersion);
    }
    if version2 & !c.optimize_rodata {
        return Err(ElfError::UnsupportedSBPFVersion);
    }
    if version2 & (MAX_PROGRAM_HEADERS < h.e_phnum as u64) {
        return Err(ElfError::FailedToParse(ElfParserError::InvalidProgramHeader));
    }
    Ok(())
}

// The refusal of a section that is not supported, with its name's place.
fn writable_error(elf: &Elf64<'_>, sh_name: u32) -> ElfError
    ensures { result ≡ writable_error elf.now.file.now elf.now.layout sh_name }
{
    ElfError::WritableSectionNotSupported {
        name: elf.section_name(sh_name).unwrap_or_default(),
    }
}

#[tactic(auto, using(ebpf::specs::Choice::choices), unfolding(crate::specs::Validate::sections_check))]
fn check_sections(elf: &Elf64<'_>, v: Survey) -> Result<(), ElfError>
    ensures { result ≡ sections_check elf.now.file.now elf.now.layout v }
{
    if v.texts != 1 {
        return Err(ElfError::NotOneTextSection);
    }
    if let Some(sh_name) = v.unsupported {
        return Err(writable_error(elf, sh_name));
    }
    if v.outside {
        return Err(ElfError::ValueOutOfBounds);
    }
    Ok(())
}

// The entry and the text's place.
#[tactic(auto, using(ebpf::specs::Choice::choices), unfolding(crate::specs::Validate::text_check))]
fn check_text(rules: Rules, e_entry: u64, h: Elf64Shdr) -> Result<(), ElfError>
    ensures { result ≡ text_check rules.version2 rules.config.reject_broken_elfs e_entry h }
{
    let version2 = rules.version2;
    let reject_broken = rules.config.reject_broken_elfs;
    let addr = machine_addr(version2, h.sh_addr);
    let end = h.sh_addr.saturating_add(h.sh_size);
    let last = addr.saturating_add(h.sh_size);
    if e_entry < h.sh_addr {
        return Err(ElfError::EntrypointOutOfBounds);
    }
    if end <= e_entry {
        return Err(ElfError::EntrypointOutOfBounds);
    }
    if (reject_broken & !version2) & (h.sh_addr != h.sh_offset) {
        return Err(ElfError::ValueOutOfBounds);
    }
    if version2 & (MM_STACK_START < last) {
        return Err(ElfError::ValueOutOfBounds);
    }
    if !version2 & (MM_STACK_START < addr) {
        return Err(ElfError::ValueOutOfBounds);
    }
    Ok(())
}

// What a load needs, where every check passed.
#[tactic(auto, using(ebpf::specs::Choice::choices), unfolding(crate::specs::Validate::job_of))]
fn job_of(
    rules: Rules,
    layout: Layout,
    e_entry: u64,
    h: Elf64Shdr,
    placing: Result<Placing, ElfError>,
) -> Job
    ensures { result ≡ job_of rules.config rules.version2 layout e_entry h placing }
{
    let c = rules.config;
    let version2 = rules.version2;
    let nobits = h.sh_type == SHT_NOBITS;
    let addr = machine_addr(version2, h.sh_addr);
    Job {
        version2,
        labels: c.enable_symbol_and_section_labels,
        reject_broken: c.reject_broken_elfs,
        check_collision: c.external_internal_function_hash_collision,
        layout,
        e_entry,
        sh_addr: h.sh_addr,
        sh_size: h.sh_size,
        text: if nobits {
            Place::default()
        } else {
            Place {
                start: h.sh_offset as usize,
                length: h.sh_size as usize,
            }
        },
        addr,
        placing,
    }
}

// The header's and the sections' checks.
fn check_file(elf: &Elf64<'_>, rules: Rules, h: Elf64Ehdr, v: Survey) -> Result<(), ElfError>
    ensures { result ≡ file_check elf.now.file.now rules.config elf.now.layout h rules.version2 v }
{
    check_header(h, rules)?;
    check_sections(elf, v)?;
    let text = section_at(elf, v.text);
    check_text(rules, h.e_entry, text)
}

// A parsed file's checks, and what they leave. How the read-only sections are placed is worked out
// here too, since it needs no byte of them; where it refuses, that counts last.
#[tactic(auto, unfolding(crate::specs::Validate::validated, crate::specs::ReadOnly::placing))]
fn validate(elf: &Elf64<'_>, config: Config) -> Result<Job, ElfError>
    ensures { result ≡ validated elf.now.file.now config elf.now.layout }
{
    let h = file_header(elf.file);
    let rules = Rules {
        version2: h.e_flags == EF_SBPF_V2,
        config,
    };
    let seen = look_over(elf, rules, h.e_shnum as u32);
    let v = seen.survey;
    let g = seen.gathering;
    check_file(elf, rules, h, v)?;
    let text = section_at(elf, v.text);
    let placing = place_gathered(rules, elf.file.len() as u64, g);
    Ok(job_of(rules, elf.layout, h.e_entry, text, placing))
}

// Everything ahead of the first registration.
#[tactic(auto, using(ebpf::specs::Choice::choices), unfolding(crate::specs::Validate::prepared))]
pub(crate) fn prepare(
    file: &[u8],
    loader: BuiltinProgram<'_>,
    image: usize,
    ro: usize,
) -> Result<Job, ElfError>
    ensures { result ≡ prepared file.now loader.entry.functions.now loader.entry.config image ro }
{
    check_sizes(file.len() as u64, image as u64, ro as u64)?;
    if !is_ascending(loader.functions) {
        return Err(ElfError::BuiltinsNotAscending);
    }
    let layout = parse(file)?;
    validate(&Elf64 { file, layout }, loader.config)
}
