#![tactic(auto)]
// Writes the hash of published vectors and the keys of some indices, a line each.
use std::io;

// Those published.
const NAMES: [&[u8]; 16] = [
    b"",
    b"\x00",
    b"\x00\x00",
    b"\x00\x00\x00",
    b"\x00\x00\x00\x00",
    b"\x21",
    b"\x21\x43",
    b"\x21\x43\x65",
    b"\x21\x43\x65\x87",
    b"\xff\xff\xff\xff",
    b"test",
    b"Hello, world!",
    b"The quick brown fox jumps over the lazy dog",
    b"entrypoint",
    b"abort",
    b"sol_log_",
];

const INDICES: [u64; 6] = [0, 255, 256, 4294967295, 4294967296, 18446744073709551615];

fn show(rt: &impl Print, name: &[u8]) -> io::Result<()> {
    println!(rt; "{:08x}", ebpf::hash_symbol_name(name))
}

// The key of an index, from the table and worked out.
fn show_index(rt: &impl Print, table: &[u32], index: u64) -> io::Result<()> {
    println!(rt;
        "{:08x} {:08x}",
        ebpf::index_key_in(table, index),
        ebpf::index_key(index)
    )
}

fn main(rt: HostRuntime) -> io::Result<()> {
    for name in NAMES {
        show(&rt, name)?;
    }
    let table = ebpf::key_table();
    for index in INDICES {
        show_index(&rt, &table, index)?;
    }
    Ok(())
}
