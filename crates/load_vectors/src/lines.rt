// The line of a load: what it answered, and hashes of all that it was lent.
ghost use Rattle.std.specs.Prelude.{◌+◌, ◌≤◌, length};

use ebpf::hash_symbol_name;
use elf_parser::Report;
use loader::{Accepted, ElfError};
use program::FunctionTable;
use std::io;

// The bytes of five columns of 256 numbers.
const COLUMNS_SIZE: usize = 5120;

// Kept: printed field by field, here and below. The line is this program's own; a `Display` would be the type's for
// everyone.
fn print_refused(rt: &impl Print, r: Report) -> io::Result<()> {
    print!(rt; "refused {} {} {} {}", r.number, r.value, r.start, r.length)
}

fn print_read_only(rt: &impl Print, a: Accepted) -> io::Result<()> {
    print!(rt;
        " {} {} {} {}",
        u64::from(a.ro_copied),
        a.ro_offset,
        a.ro_start,
        a.ro_length
    )
}

fn print_accepted(rt: &impl Print, a: Accepted) -> io::Result<()> {
    print!(rt; "accepted {} {} {} {}", a.version, a.entry, a.used, a.moves)?;
    print_read_only(rt, a)?;
    print!(rt; " {} {} {}", a.text_addr, a.text.start, a.text.length)
}

// What the text part answers: 0, or the number of its refusal.
fn print_text_number(
    rt: &impl Print,
    a: Accepted,
    image_length: u64,
    ro_length: u64,
) -> io::Result<()> {
    match a.get_text_place(image_length, ro_length) {
        Ok(_) => print!(rt; " 0"),
        Err(e) => print!(rt; " {}", Report::from(e).number),
    }
}

fn print_answer(
    rt: &impl Print,
    answer: Result<Accepted, ElfError>,
    image_length: u64,
    ro_length: u64,
) -> io::Result<()> {
    match answer {
        Ok(a) => {
            print_accepted(rt, a)?;
            print_text_number(rt, a, image_length, ro_length)
        }
        Err(e) => print_refused(rt, Report::from(e)),
    }
}

fn print_hash(rt: &impl Print, bytes: &[u8]) -> io::Result<()> {
    print!(rt; " {:08x}", hash_symbol_name(bytes))
}

// Puts a column's numbers from a place on, as many as there is room for, and answers where they end.
fn put_column(bytes: &mut [u8], at: usize, column: &[u32]) -> usize
    requires { at ≤ length bytes.old }
    ensures { result ≤ length bytes.old }
{
    for (four, number) in bytes[at..].chunks_exact_mut(4).zip(column) {
        four.copy_from_slice(&number.to_le_bytes());
    }
    at + 4 * column.len().min((bytes.len() - at) / 4)
}

// The hash of the columns one after the other, over bytes that hold them.
fn print_columns_hash(rt: &impl Print, bytes: &mut [u8], table: FunctionTable) -> io::Result<()> {
    let columns = [
        table.keys,
        table.indices,
        table.kinds,
        table.starts,
        table.lengths,
    ];
    let mut at = 0;
    for column in &columns {
        at = put_column(bytes, at, column);
    }
    print_hash(rt, &bytes[..at])
}

pub(crate) fn print_line(
    rt: &impl Print,
    answer: Result<Accepted, ElfError>,
    image: &[u8],
    ro_section: &[u8],
    table: FunctionTable,
) -> io::Result<()> {
    print_answer(rt, answer, image.len() as u64, ro_section.len() as u64)?;
    print_hash(rt, image)?;
    print_hash(rt, ro_section)?;
    let mut bytes = [0u8; COLUMNS_SIZE];
    print_columns_hash(rt, &mut bytes, table)?;
    println!(rt; "")
}
