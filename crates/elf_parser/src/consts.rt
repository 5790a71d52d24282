// The gABI's numbers that are asked for, and the Rust's limits, under the Rust's names.
pub const SECTION_NAME_LENGTH_MAXIMUM: u32 = 16;

pub const SYMBOL_NAME_LENGTH_MAXIMUM: u32 = 64;

pub const EM_BPF: u16 = 247;

pub const EM_SBPF: u16 = 263;

pub const ET_DYN: u16 = 3;

pub const PT_LOAD: u32 = 1;

pub const PT_DYNAMIC: u32 = 2;

pub const SHT_NULL: u32 = 0;

pub const SHT_SYMTAB: u32 = 2;

pub const SHT_STRTAB: u32 = 3;

pub const SHT_DYNAMIC: u32 = 6;

pub const SHT_NOBITS: u32 = 8;

pub const SHT_DYNSYM: u32 = 11;

pub const DT_NULL: u64 = 0;

pub const DT_HASH: usize = 4;

pub const DT_SYMTAB: usize = 6;

pub const DT_RELA: usize = 7;

pub const DT_RELASZ: usize = 8;

pub const DT_RELAENT: usize = 9;

pub const DT_REL: usize = 17;

pub const DT_RELSZ: usize = 18;

pub const DT_RELENT: usize = 19;

pub const DT_NUM: usize = 35;
