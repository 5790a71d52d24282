// The line of a load: `refused` with number, value, name start and name length; or `accepted` with the
// words of the answer from the version on, then key, index, and the name's kind, start and length of
// each row, and the words of the image that are not the file's, with their places. The line of a
// question: `refused` likewise, or how many bytes and where they start, or whether there is a symbol and
// its number, or who wrote a byte, or how deep the file calls.
use ebpf::little_endian::read;
use program::FunctionTable;
use std::io;

// The longest file, and the most rows.
pub(crate) const FILE: usize = 1024;

pub(crate) const ROWS: usize = 8;

fn print_words(rt: &impl Print, words: &[u64]) -> io::Result<()> {
    for word in words {
        print!(rt; " {word}")?;
    }
    Ok(())
}

// The used rows; no more than there are.
// Kept: the columns as they are lent; a row of them would be made only to be printed.
fn print_rows(rt: &impl Print, table: FunctionTable) -> io::Result<()> {
    for i in 0..table.used.min(table.rows_lent()) {
        print!(rt;
            " | {} {} {} {} {}",
            table.keys[i], table.indices[i], table.kinds[i], table.starts[i], table.lengths[i]
        )?;
    }
    Ok(())
}

// The word at a place of the image, where the file has another one.
fn print_changed(rt: &impl Print, file: &[u8], image: &[u8; FILE], at: usize) -> io::Result<()> {
    let word = read::<u32>(image, at);
    if word != read::<u32>(file, at) {
        print!(rt; ", {word} at {at}")?;
    }
    Ok(())
}

fn print_written(rt: &impl Print, file: &[u8], image: &[u8; FILE]) -> io::Result<()> {
    for at in (0..FILE).step_by(4) {
        print_changed(rt, file, image, at)?;
    }
    Ok(())
}

fn print_refused(rt: &impl Print, answer: &[u64; 24]) -> io::Result<()> {
    print!(rt; "refused")?;
    print_words(rt, &answer[..4])?;
    println!(rt; "")
}

// An answer that is no refusal, by what prints it, or else the refusal.
pub(crate) fn print_answer<P: FnOnce() -> io::Result<()>>(
    rt: &impl Print,
    number: u32,
    answer: &[u64; 24],
    print: P,
) -> io::Result<()>
    requires { P.IsAlwaysCallable print }
{
    if number == 0 {
        print()
    } else {
        print_refused(rt, answer)
    }
}

// Who wrote a byte: its kind and number by the load's words, by the question's, and as one number.
pub(crate) fn print_writer(
    rt: &impl Print,
    number: u32,
    loaded: &[u64; 24],
    asked: &[u64; 24],
    code: u32,
) -> io::Result<()> {
    print_answer(rt, number, asked, || {
        println!(rt;
            "by {} {}, {} {}, {code}",
            loaded[15], loaded[16], asked[4], asked[5]
        )
    })
}

// How deep a file calls: number, value and chain, with the load and by its answer.
pub(crate) fn print_depth(
    rt: &impl Print,
    loaded: &[u64; 24],
    asked: &[u64; 24],
) -> io::Result<()> {
    if loaded[4] == 0 {
        return print_refused(rt, loaded);
    }
    println!(rt;
        "depth {} {} {}, {} {} {}",
        loaded[0], loaded[1], loaded[15], asked[0], asked[1], asked[4]
    )
}

pub(crate) fn print_load(
    rt: &impl Print,
    number: u32,
    answer: &[u64; 24],
    file: &[u8],
    image: &[u8; FILE],
    table: FunctionTable,
) -> io::Result<()> {
    print_answer(rt, number, answer, || {
        print!(rt; "accepted")?;
        print_words(rt, &answer[4..15])?;
        print_rows(rt, table)?;
        print_written(rt, file, image)?;
        println!(rt; "")
    })
}
