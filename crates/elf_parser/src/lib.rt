#![tactic(auto)]
// Reading an ELF-64 file: the port of src/elf_parser. What a parse leaves is a `Layout`, plain numbers;
// everything else is read from the file again, by the methods of `Elf64`, a file with its layout.
pub mod consts;
mod dynamic;
mod elf64;
pub mod error;
mod header;
mod layout;
mod names;
mod parts;
mod program_headers;
mod records;
mod section_headers;
mod section_names;
mod strings;
mod table;
pub mod types;

pub use elf64::Elf64;
pub use error::{ElfParserError, Report};
pub use layout::{Layout, parse};
pub use parts::{Place, bytes_at, part_of, past};
pub use records::{Entries, entry};
pub use strings::get_string_in_section;
pub use types::file_header;
