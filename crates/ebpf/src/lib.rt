#![tactic(auto)]
// Name hashing, index keys and instruction slots: the port of src/ebpf.rs.
ghost use Rattle.std.specs.Prelude.{◌≡◌};
ghost use Rattle.ebpf.specs.Murmur3.{murmur3};
ghost use Rattle.ebpf.specs.Instructions.{insn_at};

mod index_keys;
pub mod little_endian;
mod murmur3;

pub use index_keys::{index_key, index_key_in, key_table};
use little_endian::read;

// The e_flags of a version 2 file.
pub const EF_SBPF_V2: u32 = 0x20;
// Size of an instruction slot, in bytes.
pub const INSN_SIZE: usize = 8;
// Start of the program (text and read-only data) in the address space.
pub const MM_PROGRAM_START: u64 = 0x1_0000_0000;
// Start of the stack in the address space.
pub const MM_STACK_START: u64 = 0x2_0000_0000;
// The opcode of a call to an immediate.
pub const CALL_IMM: u8 = 0x85;

// The hash of a name of any length: four bytes a turn, then the rest and the length.
#[tactic(auto, using(crate::proofs::Blocks::again, crate::proofs::Blocks::ended))]
pub fn hash_symbol_name(name: &[u8]) -> u32
    ensures { result ≡ murmur3 name.now }
{
    let (blocks, tail) = name.as_chunks();
    let mut h = 0;
    for block in blocks {
        h = murmur3::mixed(h, u32::from_le_bytes(*block));
    }
    h ^= murmur3::scrambled(read(tail, 0));
    murmur3::fmix(h ^ (name.len() % 0x1_0000_0000) as u32)
}

// An instruction slot. `off` and `imm` are signed in the Rust: here they are the two's complement
// bits that the text holds.
#[derive(Clone, Copy, Debug, PartialEq, Eq)]
pub struct Insn {
    pub opc: u8,
    pub dst: u8,
    pub src: u8,
    pub off: u16,
    pub imm: u32,
}

// The slot number `pc` of a text; none where the text has no more than `pc` whole slots.
#[tactic(auto, using(crate::proofs::Slots::no_slot, crate::proofs::Slots::slot_read))]
pub fn get_insn(prog: &[u8], pc: usize) -> Option<Insn>
    ensures { result ≡ insn_at prog.now pc }
{
    let (slots, _) = prog.as_chunks::<INSN_SIZE>();
    let slot = slots.get(pc)?;
    let registers = slot[1];
    Some(Insn {
        opc: slot[0],
        dst: registers % 16,
        src: registers / 16,
        off: read(slot, 2),
        imm: read(slot, 4),
    })
}
