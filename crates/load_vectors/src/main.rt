#![tactic(auto)]
// Replays a fixed sample of loads whose answers are the Rust's: cases on standard input, a line for
// each on standard output. tools/differential/src/bin/vectors.rs made both and has the format;
// README.md says how. What a case is lent are parts of arrays of fixed lengths, filled with
// anything but zeros, so that what a load should clear and does not changes a hash of the line.
use ebpf::little_endian::read;
use input::{RecordError, read_full};
use lines::print_line;
use loader::{BuiltinProgram, Config, load};
use program::FunctionRegistry;
use std::io;
use std::io::Read;

mod lines;

// The longest file, image and read-only buffer of a case.
const LENT: usize = 16384;
// The longest column.
const ROWS: usize = 256;
// The most built-ins, and their bytes.
const BUILTINS: usize = 64;

const BUILTINS_SIZE: usize = 256;
// The bytes of a case's numbers.
const HEAD_SIZE: usize = 40;
// More cases than any sample has: a loop needs a bound, and the input gives none.
const MOST_CASES: usize = 100000;

// The numbers of a case: the settings by their bits, and how long everything is.
#[derive(Clone, Copy, PartialEq, Eq, Debug)]
struct Sizes {
    file: usize,
    settings: u32,
    builtins: usize,
    image: usize,
    ro_section: usize,
    keys: usize,
    indices: usize,
    kinds: usize,
    starts: usize,
    lengths: usize,
}

// The numbers of the next case, or none where the input ends.
fn read_head(input: &mut impl Read) -> Result<Option<Sizes>, RecordError> {
    let mut bytes = [0u8; HEAD_SIZE];
    let n = read_full(input, &mut bytes)?;
    if n == 0 {
        return Ok(None);
    }
    if n < HEAD_SIZE {
        return Err(RecordError::Bad);
    }
    Ok(Some(Sizes {
        file: read::<u32>(&bytes, 0) as usize,
        settings: read(&bytes, 4),
        builtins: read::<u32>(&bytes, 8) as usize,
        image: read::<u32>(&bytes, 12) as usize,
        ro_section: read::<u32>(&bytes, 16) as usize,
        keys: read::<u32>(&bytes, 20) as usize,
        indices: read::<u32>(&bytes, 24) as usize,
        kinds: read::<u32>(&bytes, 28) as usize,
        starts: read::<u32>(&bytes, 32) as usize,
        lengths: read::<u32>(&bytes, 36) as usize,
    }))
}

// Reads until the bytes are full.
fn read_whole(input: &mut impl Read, bytes: &mut [u8]) -> Result<(), RecordError> {
    if read_full(input, bytes)? < bytes.len() {
        return Err(RecordError::Bad);
    }
    Ok(())
}

// The numbers that the bytes hold.
fn fill_keys(keys: &mut [u32], bytes: &[u8]) {
    for (key, number) in keys.iter_mut().zip(bytes.chunks_exact(4)) {
        *key = read(number, 0);
    }
}

// Loads, and prints the line of the answer.
fn replay(
    rt: &impl Print,
    file: &[u8],
    loader: BuiltinProgram<'_>,
    image: &mut [u8],
    ro_section: &mut [u8],
    registry: &mut FunctionRegistry<'_>,
) -> io::Result<()> {
    let answer = load(file, loader, image, ro_section, registry);
    print_line(rt, answer, image, ro_section, registry.as_table())
}

// Lends what the case asks for, where it asks for no more than there is.
// Kept: five columns, as in `worked` and `listing`. A type for all three would hold the arrays and no more, since here a
// front of each is lent, by its own length.
fn lend(rt: &impl Print, c: Sizes, file: &[u8], builtins: &[u32]) -> Result<(), RecordError> {
    if LENT < c.image || LENT < c.ro_section {
        return Err(RecordError::Bad);
    }
    if ROWS < c.keys || ROWS < c.indices || ROWS < c.kinds || ROWS < c.starts || ROWS < c.lengths {
        return Err(RecordError::Bad);
    }
    let mut image = [0xa1u8; LENT];
    let mut ro_section = [0xa2u8; LENT];
    let mut keys = [0xa3a3_a3a3u32; ROWS];
    let mut indices = [0xa4a4_a4a4u32; ROWS];
    let mut kinds = [0xa5a5_a5a5u32; ROWS];
    let mut starts = [0xa6a6_a6a6u32; ROWS];
    let mut lengths = [0xa7a7_a7a7u32; ROWS];
    let mut registry = FunctionRegistry {
        keys: &mut keys[..c.keys],
        indices: &mut indices[..c.indices],
        kinds: &mut kinds[..c.kinds],
        starts: &mut starts[..c.starts],
        lengths: &mut lengths[..c.lengths],
        used: 0,
    };
    let loader = BuiltinProgram {
        functions: builtins,
        config: Config::from(c.settings),
    };
    replay(
        rt,
        file,
        loader,
        &mut image[..c.image],
        &mut ro_section[..c.ro_section],
        &mut registry,
    )?;
    Ok(())
}

// Reads the built-ins and the file behind a case's numbers, and loads it.
fn read_case(
    rt: &impl Print,
    input: &mut impl Read,
    c: Sizes,
    file: &mut [u8],
    builtins: &mut [u32],
    bytes: &mut [u8],
) -> Result<(), RecordError> {
    let builtins = builtins.get_mut(..c.builtins).ok_or(RecordError::Bad)?;
    let bytes = bytes.get_mut(..4 * builtins.len()).ok_or(RecordError::Bad)?;
    let file = file.get_mut(..c.file).ok_or(RecordError::Bad)?;
    read_whole(input, bytes)?;
    read_whole(input, file)?;
    fill_keys(builtins, bytes);
    lend(rt, c, file, builtins)
}

// One case, and whether there was one.
fn next_case(rt: &impl Print, input: &mut impl Read) -> Result<bool, RecordError> {
    let mut file = [0u8; LENT];
    let mut builtins = [0u32; BUILTINS];
    let mut bytes = [0u8; BUILTINS_SIZE];
    let Some(sizes) = read_head(input)? else {
        return Ok(false);
    };
    read_case(rt, input, sizes, &mut file, &mut builtins, &mut bytes)?;
    Ok(true)
}

// Kept: each program has a loop of its own, with its bound and its record: a public function that takes a closure
// would have to ask that the closure can be called, and public functions here ask nothing.
fn main(rt: HostRuntime) -> io::Result<()> {
    let mut input = rt.stdin();
    for _ in 0..MOST_CASES {
        let more = next_case(&rt, &mut input).or_else(|e| -> io::Result<bool> {
            let more = e.ends()?;
            println!(rt; "bad case")?;
            Ok(more)
        })?;
        if !more {
            break;
        }
    }
    Ok(())
}
