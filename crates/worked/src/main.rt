#![tactic(auto)]
// Runs worked examples by the functions of the C interface: records on standard input, a line for
// each on standard output. tools/differential makes both; README.md says how.
//
// A record has a title, padded with spaces, which starts the line; seven numbers of 32 bits: the
// file's length, the settings by their bits, how many built-ins there are, one at most, the built-in,
// the rows, what is asked, 0 for a load, and the number that a question has; and the file. Question 5, for
// a symbol by its name, has the name behind the file, and its length as the number; question 6 asks who wrote
// the byte with that number, question 7 how deep the file calls, with that limit. What is lent holds anything but
// zeros before.
use ebpf::little_endian::read;
use exports::{
    sbpf_call_depth, sbpf_dynamic_symbol_name, sbpf_find_symbol, sbpf_load, sbpf_load_call_depth,
    sbpf_load_who_wrote, sbpf_section_name, sbpf_section_place, sbpf_symbol_name, sbpf_who_wrote,
    sbpf_who_wrote_all,
};
use input::{RecordError, read_full};
use lines::{FILE, ROWS, print_answer, print_depth, print_load, print_writer};
use program::FunctionTable;
use std::io;
use std::io::Read;

mod lines;

const TITLE: usize = 80;

const NUMBERS: usize = 28;
// The longest name.
const NAME: usize = 64;
// More examples than there are: a loop needs a bound, and the input gives none.
const MOST: usize = 1000;

// The numbers of a record.
// Kept: how many built-ins there are stands beside the built-in, as the record has them. Only what loads reads them, by
// `builtin_of`; the other questions are answered whatever they are.
#[derive(Clone, Copy, PartialEq, Eq, Debug)]
struct Record {
    length: usize,
    settings: u32,
    builtins: usize,
    builtin: u32,
    rows: usize,
    question: u32,
    number: u32,
}

fn record_of(bytes: &[u8; NUMBERS]) -> Record {
    Record {
        length: read::<u32>(bytes, 0) as usize,
        settings: read(bytes, 4),
        builtins: read::<u32>(bytes, 8) as usize,
        builtin: read(bytes, 12),
        rows: read::<u32>(bytes, 16) as usize,
        question: read(bytes, 20),
        number: read(bytes, 24),
    }
}

// What is lent for a load.
// Kept: arrays in a struct, with their lengths by constants: memory is fixed, and there is no heap. Two other programs
// lend five columns; a type for all three would hold the arrays and no more, since here C's functions take each slice.
#[derive(Drop)]
struct Lent {
    image: [u8; FILE],
    ro: [u8; FILE],
    keys: [u32; ROWS],
    indices: [u32; ROWS],
    kinds: [u32; ROWS],
    starts: [u32; ROWS],
    lengths: [u32; ROWS],
    answer: [u64; 24],
}

// The built-in of a record, if it has one.
fn builtin_of(record: Record) -> Result<Option<u32>, RecordError> {
    match record.builtins {
        0 => Ok(None),
        1 => Ok(Some(record.builtin)),
        _ => Err(RecordError::Bad),
    }
}

// What each load is lent, before its rows are counted.
fn lend() -> Lent {
    Lent {
        image: [0xa1; FILE],
        ro: [0xa2; FILE],
        keys: [0xa3a3_a3a3; ROWS],
        indices: [0xa4a4_a4a4; ROWS],
        kinds: [0xa5a5_a5a5; ROWS],
        starts: [0xa6a6_a6a6; ROWS],
        lengths: [0xa7a7_a7a7; ROWS],
        answer: [0xa8a8_a8a8; 24],
    }
}

// Loads, and prints what was answered. The shortest column says how many rows there are.
fn load_and_print(rt: &impl Print, file: &[u8], record: Record) -> Result<(), RecordError> {
    let builtin = builtin_of(record)?;
    let mut lent = lend();
    let lengths = lent.lengths.get_mut(..record.rows).ok_or(RecordError::Bad)?;
    let number = sbpf_load(
        file,
        builtin.as_slice(),
        record.settings,
        &mut lent.image,
        &mut lent.ro,
        &mut lent.keys,
        &mut lent.indices,
        &mut lent.kinds,
        &mut lent.starts,
        lengths,
        &mut lent.answer,
    );
    let table = FunctionTable {
        keys: &lent.keys,
        indices: &lent.indices,
        kinds: &lent.kinds,
        starts: &lent.starts,
        lengths: &lent.lengths,
        used: lent.answer[6] as usize,
    };
    print_load(rt, number, &lent.answer, file, &lent.image, table)?;
    Ok(())
}

// Asks who wrote a byte by the words of a load's answer, alone and among all bytes, and prints that
// beside the load's own words.
fn print_wrote(rt: &impl Print, file: &[u8], loaded: &[u64; 24], offset: u64) -> io::Result<()> {
    let mut asked = [0xa8a8_a8a8u64; 24];
    let mut answer = [0xa9a9_a9a9u64; 24];
    let mut numbers = [0xaaaa_aaaau32; FILE];
    let number = sbpf_who_wrote(file, loaded, offset, &mut asked);
    sbpf_who_wrote_all(file, loaded, &mut numbers, &mut answer);
    let code = numbers[(offset % FILE as u64) as usize];
    print_writer(rt, number, loaded, &asked, code)
}

// Loads, with the question who wrote a byte.
fn load_and_print_wrote(rt: &impl Print, file: &[u8], record: Record) -> Result<(), RecordError> {
    let builtin = builtin_of(record)?;
    let mut lent = lend();
    let lengths = lent.lengths.get_mut(..record.rows).ok_or(RecordError::Bad)?;
    sbpf_load_who_wrote(
        file,
        builtin.as_slice(),
        record.settings,
        &mut lent.image,
        &mut lent.ro,
        &mut lent.keys,
        &mut lent.indices,
        &mut lent.kinds,
        &mut lent.starts,
        lengths,
        record.number as u64,
        &mut lent.answer,
    );
    print_wrote(rt, file, &lent.answer, record.number as u64)?;
    Ok(())
}

// Loads, with the question how deep it calls, asks again by the words of the load's answer, and prints both.
fn load_and_print_depth(rt: &impl Print, file: &[u8], record: Record) -> Result<(), RecordError> {
    let builtin = builtin_of(record)?;
    let mut lent = lend();
    let lengths = lent.lengths.get_mut(..record.rows).ok_or(RecordError::Bad)?;
    let mut work = [0xabab_abab; ROWS];
    let work = work.get_mut(..record.rows).ok_or(RecordError::Bad)?;
    sbpf_load_call_depth(
        file,
        builtin.as_slice(),
        record.settings,
        &mut lent.image,
        &mut lent.ro,
        &mut lent.keys,
        &mut lent.indices,
        &mut lent.kinds,
        &mut lent.starts,
        lengths,
        work,
        record.number,
        &mut lent.answer,
    );
    // the words of the accepted load, also behind a refusal of the question
    let mut loaded = lent.answer;
    if 0 < loaded[4] {
        loaded[0] = 0;
    }
    let mut asked = [0xa9a9_a9a9u64; 24];
    sbpf_call_depth(
        &lent.image,
        &lent.keys,
        &lent.indices,
        &lent.kinds,
        &lent.starts,
        lengths,
        &loaded,
        work,
        record.number,
        &mut asked,
    );
    print_depth(rt, &lent.answer, &asked)?;
    Ok(())
}

// Asks the file for a place, and prints what was answered.
fn ask_and_print<F: FnOnce(&mut [u64]) -> u32>(rt: &impl Print, ask: F) -> Result<(), RecordError>
    requires { F.IsAlwaysCallable ask }
{
    let mut answer = [0xa8a8_a8a8u64; 24];
    let number = ask(&mut answer);
    print_answer(
        rt,
        number,
        &answer,
        || println!(rt; "{} bytes at {}", answer[5], answer[4]),
    )?;
    Ok(())
}

// Reads the name behind the file, asks for its symbol, and prints what was answered.
fn find_and_print(
    rt: &impl Print,
    input: &mut impl Read,
    file: &[u8],
    name: &mut [u8],
    length: usize,
) -> Result<(), RecordError> {
    let name = name.get_mut(..length).ok_or(RecordError::Bad)?;
    read_full(input, name)?;
    let mut answer = [0xa8a8_a8a8u64; 24];
    let number = sbpf_find_symbol(file, name, &mut answer);
    print_answer(
        rt,
        number,
        &answer,
        || println!(rt; "symbol {} {}", answer[4], answer[5]),
    )?;
    Ok(())
}

// Reads the file behind a record's numbers, and loads or asks it.
fn run(
    rt: &impl Print,
    input: &mut impl Read,
    record: Record,
    file: &mut [u8],
    name: &mut [u8],
) -> Result<(), RecordError> {
    let file = file.get_mut(..record.length).ok_or(RecordError::Bad)?;
    read_full(input, file)?;
    let number = record.number;
    match record.question {
        0 => load_and_print(rt, file, record),
        1 => ask_and_print(rt, |answer| sbpf_section_place(file, number, answer)),
        2 => ask_and_print(rt, |answer| sbpf_section_name(file, number, answer)),
        3 => ask_and_print(rt, |answer| sbpf_symbol_name(file, number, answer)),
        4 => ask_and_print(rt, |answer| sbpf_dynamic_symbol_name(file, number, answer)),
        5 => find_and_print(rt, input, file, name, number as usize),
        6 => load_and_print_wrote(rt, file, record),
        7 => load_and_print_depth(rt, file, record),
        _ => Err(RecordError::Bad),
    }
}

// One record, and whether there was one. What is cut off reads as zeros.
fn next_record(rt: &impl Print, input: &mut impl Read) -> Result<bool, RecordError> {
    let mut title = [0u8; TITLE];
    let mut numbers = [0u8; NUMBERS];
    let mut file = [0u8; FILE];
    let mut name = [0u8; NAME];
    if read_full(input, &mut title)? == 0 {
        return Ok(false);
    }
    rt.write_all(&title)?;
    read_full(input, &mut numbers)?;
    run(rt, input, record_of(&numbers), &mut file, &mut name)?;
    Ok(true)
}

// Kept: each program has a loop of its own, with its bound and its record: a public function that takes a closure
// would have to ask that the closure can be called, and public functions here ask nothing.
fn main(rt: HostRuntime) -> io::Result<()> {
    let mut input = rt.stdin();
    for _ in 0..MOST {
        let more = next_record(&rt, &mut input).or_else(|e| -> io::Result<bool> {
            let more = e.ends()?;
            println!(rt; "bad record")?;
            Ok(more)
        })?;
        if !more {
            break;
        }
    }
    Ok(())
}
