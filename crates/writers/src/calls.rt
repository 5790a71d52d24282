// The bytes that local calls write.
ghost use Rattle.std.specs.Prelude.{◌≡◌, ◌<◌, length};
ghost use Rattle.writers.specs.Named.{is_call, call_writer};

use crate::Writer;
use crate::text::Text;
use ebpf::{CALL_IMM, get_insn};
use loader::is_local_call;

// Whether slot number `i` of the text is, in the file, a local call. Most slots are no call, which the opcode says.
#[tactic(auto, using(ebpf::specs::Choice::choices), unfolding(loader::specs::Calls::is_local_call, loader::specs::Calls::calls_key))]
pub(crate) fn is_call(text: &Text<'_>, i: usize) -> bool
    ensures { result ≡ is_call text.now.elf.file.now text.now.loaded i }
{
    let loaded = text.loaded;
    let end = loaded.place.start + loaded.place.length;
    match get_insn(&text.elf.file[loaded.place.start..end], i) {
        Some(insn) if insn.opc == CALL_IMM => is_local_call(loaded.version2, insn),
        _ => false,
    }
}

// Where a slot's immediate starts: it has the last four bytes of eight.
const IMMEDIATE: u64 = 4;

// The call that has the byte in its immediate, else the file.
#[tactic(auto, using(ebpf::specs::Choice::choices), unfolding(crate::specs::Named::call_to))]
pub(crate) fn call_writer(text: &Text<'_>, b: u64) -> Writer
    requires { b < length text.now.elf.file.now }
    ensures { result ≡ call_writer text.now.elf.file.now text.now.loaded b }
{
    let Some(d) = b.checked_sub(text.loaded.place.start as u64) else {
        return Writer::File;
    };
    if d % 8 < IMMEDIATE {
        return Writer::File;
    }
    let i = (d / 8) as usize;
    if text.loaded.place.length / 8 <= i {
        return Writer::File;
    }
    if is_call(text, i) {
        return Writer::Call(i as u32);
    }
    Writer::File
}
