// The records of a file, with the fields that are asked for, and their readers at a place.
ghost use Rattle.std.specs.Prelude.{◌≡◌, ℕ, ◌+◌, ◌≤◌, ◌<◌, List, length, take, drop};
ghost use Rattle.std.proofs.Common.{lit<, lit≤};
ghost use Rattle.elf_parser.specs.Types.{file_header, program_header, section_header, sym, rel, rela, dynamic};
ghost use Rattle.elf_parser.specs.Fields.{program_header_part, section_header_part, sym_part, rel_part, rela_part, dynamic_part};

use ebpf::little_endian::read;

#[derive(Clone, Copy, PartialEq, Eq, Debug)]
pub struct Elf64Ehdr {
    pub ei_osabi: u8,
    pub e_type: u16,
    pub e_machine: u16,
    pub e_entry: u64,
    pub e_phoff: u64,
    pub e_shoff: u64,
    pub e_flags: u32,
    pub e_phnum: u16,
    pub e_shnum: u16,
    pub e_shstrndx: u16,
}

#[derive(Clone, Copy, PartialEq, Eq, Debug)]
pub struct Elf64Phdr {
    pub p_type: u32,
    pub p_offset: u64,
    pub p_vaddr: u64,
    pub p_filesz: u64,
    pub p_memsz: u64,
}

#[derive(Clone, Copy, PartialEq, Eq, Debug, Default)]
pub struct Elf64Shdr {
    pub sh_name: u32,
    pub sh_type: u32,
    pub sh_flags: u64,
    pub sh_addr: u64,
    pub sh_offset: u64,
    pub sh_size: u64,
}

#[derive(Clone, Copy, PartialEq, Eq, Debug)]
pub struct Elf64Sym {
    pub st_name: u32,
    pub st_info: u8,
    pub st_value: u64,
}

#[derive(Clone, Copy, PartialEq, Eq, Debug)]
pub struct Elf64Rel {
    pub r_offset: u64,
    pub r_info: u64,
}

// The addend is signed: its bits as an unsigned number, negative from 2^63 on.
#[derive(Clone, Copy, PartialEq, Eq, Debug)]
pub struct Elf64Rela {
    pub r_offset: u64,
    pub r_info: u64,
    pub r_addend: u64,
}

// An entry of the dynamic table: its tag and its value.
#[derive(Clone, Copy, PartialEq, Eq, Debug)]
pub struct Elf64Dyn {
    pub d_tag: u64,
    pub d_val: u64,
}

// The file header, zeros where the file is shorter.
#[tactic(auto, unfolding(crate::specs::Types::file_header))]
pub fn file_header(file: &[u8]) -> Elf64Ehdr
    ensures { result ≡ file_header file.now }
{
    Elf64Ehdr {
        ei_osabi: read(file, 7),
        e_type: read(file, 16),
        e_machine: read(file, 18),
        e_entry: read(file, 24),
        e_phoff: read(file, 32),
        e_shoff: read(file, 40),
        e_flags: read(file, 48),
        e_phnum: read(file, 56),
        e_shnum: read(file, 60),
        e_shstrndx: read(file, 62),
    }
}

// A record of a table: its size in the file, and how it is read there.
pub trait Record: Copy {
    const SIZE: usize;

    ghost SIZE: { ℕ };

    // The record at a place of the file.
    ghost at: { List ℕ → ℕ → Self };

    // Reads the part of the file that is the record: its length is known, so that no field asks whether
    // the file ends in it.
    fn read(part: &[u8]) -> Self
        ensures { result ≡ at part.now 0 };

    ghost in_part: { (s : List ℕ) (p : ℕ) → at (take SIZE (drop p s)) 0 ≡ at s p };

    ghost some: { 0 < SIZE };

    ghost few: { SIZE ≤ 64 };
}

// Kept: six of one shape. Each reads the fields of its own record, and the trait is what they have in common.
impl Record for Elf64Phdr {
    const SIZE: usize = 56;

    ghost SIZE = { 56 };

    ghost at = { program_header };

    #[tactic(auto, unfolding(crate::specs::Types::program_header))]
    fn read(part: &[u8]) -> Elf64Phdr {
        Elf64Phdr {
            p_type: read(part, 0),
            p_offset: read(part, 8),
            p_vaddr: read(part, 16),
            p_filesz: read(part, 32),
            p_memsz: read(part, 40),
        }
    }

    ghost in_part = { program_header_part };

    ghost some = { lit< tt };

    ghost few = { lit≤ tt };
}

impl Record for Elf64Shdr {
    const SIZE: usize = 64;

    ghost SIZE = { 64 };

    ghost at = { section_header };

    #[tactic(auto, unfolding(crate::specs::Types::section_header))]
    fn read(part: &[u8]) -> Elf64Shdr {
        Elf64Shdr {
            sh_name: read(part, 0),
            sh_type: read(part, 4),
            sh_flags: read(part, 8),
            sh_addr: read(part, 16),
            sh_offset: read(part, 24),
            sh_size: read(part, 32),
        }
    }

    ghost in_part = { section_header_part };

    ghost some = { lit< tt };

    ghost few = { lit≤ tt };
}

impl Record for Elf64Sym {
    const SIZE: usize = 24;

    ghost SIZE = { 24 };

    ghost at = { sym };

    #[tactic(auto, unfolding(crate::specs::Types::sym))]
    fn read(part: &[u8]) -> Elf64Sym {
        Elf64Sym {
            st_name: read(part, 0),
            st_info: read(part, 4),
            st_value: read(part, 8),
        }
    }

    ghost in_part = { sym_part };

    ghost some = { lit< tt };

    ghost few = { lit≤ tt };
}

impl Record for Elf64Rel {
    const SIZE: usize = 16;

    ghost SIZE = { 16 };

    ghost at = { rel };

    #[tactic(auto, unfolding(crate::specs::Types::rel))]
    fn read(part: &[u8]) -> Elf64Rel {
        Elf64Rel {
            r_offset: read(part, 0),
            r_info: read(part, 8),
        }
    }

    ghost in_part = { rel_part };

    ghost some = { lit< tt };

    ghost few = { lit≤ tt };
}

impl Record for Elf64Rela {
    const SIZE: usize = 24;

    ghost SIZE = { 24 };

    ghost at = { rela };

    #[tactic(auto, unfolding(crate::specs::Types::rela))]
    fn read(part: &[u8]) -> Elf64Rela {
        Elf64Rela {
            r_offset: read(part, 0),
            r_info: read(part, 8),
            r_addend: read(part, 16),
        }
    }

    ghost in_part = { rela_part };

    ghost some = { lit< tt };

    ghost few = { lit≤ tt };
}

impl Record for Elf64Dyn {
    const SIZE: usize = 16;

    ghost SIZE = { 16 };

    ghost at = { dynamic };

    #[tactic(auto, unfolding(crate::specs::Types::dynamic))]
    fn read(part: &[u8]) -> Elf64Dyn {
        Elf64Dyn {
            d_tag: read(part, 0),
            d_val: read(part, 8),
        }
    }

    ghost in_part = { dynamic_part };

    ghost some = { lit< tt };

    ghost few = { lit≤ tt };
}

// The record at a place of the file.
pub(crate) fn record_at<T: Record>(file: &[u8], at: usize) -> T
    requires { at + T.SIZE ≤ length file.now }
    ensures { result ≡ T.at file.now at }
{
    let end = at + T::SIZE;
    T::read(&file[at..end])
}
