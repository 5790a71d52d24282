#![tactic(auto)]
// The lines that the program loadlist prints: `refused` with number, value, name start and name
// length; or `accepted` with version, entry, keys and moves, and a line for each row, by rising key:
// key, index, name kind. A file of more than 16,384 bytes is `too long`.
ghost use Rattle.std.specs.Prelude.{◌+◌, ◌≤◌, ◌^◌, IfSome, OnOk};
ghost use Rattle.std.specs.Io.KnownBytes.{Appends};
ghost use Rattle.listing.specs.Lines.{listed_load, lines_of, load_lines, Stores, Lists};

use input::read_full;
use loader::{BuiltinProgram, Config, load};
use program::FunctionRegistry;
use std::io;
use std::io::{Read, Write};
use storing::Lines;

mod lines;
mod storing;

const LONGEST: usize = 16384;
// The rows lent to a load.
const ROWS: usize = 256;

// A load with all settings on and no built-ins, and its lines.
// Kept: five columns, as in `worked` and `load_vectors`. A type for all three would hold the arrays and no more: each
// fills them with other words and lends them in another way, here to the registry whole.
fn list_load(lines: &mut Lines<'_>, file: &[u8])
    requires { lines.old.at + 16221 ≤ 2 ^ 32 }
    ensures { Stores 16221 (load_lines (listed_load file.now)) lines.old lines.new }
{
    let builtins = [0u32; 0];
    let mut image = [0u8; LONGEST];
    let mut ro_section = [0u8; LONGEST];
    let mut keys = [0u32; ROWS];
    let mut indices = [0u32; ROWS];
    let mut kinds = [0u32; ROWS];
    let mut starts = [0u32; ROWS];
    let mut lengths = [0u32; ROWS];
    let config = Config {
        enable_symbol_and_section_labels: true,
        reject_broken_elfs: true,
        external_internal_function_hash_collision: true,
        optimize_rodata: true,
        enable_sbpf_v1: true,
        enable_sbpf_v2: true,
    };
    let mut registry = FunctionRegistry {
        keys: &mut keys,
        indices: &mut indices,
        kinds: &mut kinds,
        starts: &mut starts,
        lengths: &mut lengths,
        used: 0,
    };
    let answer = load(
        file,
        BuiltinProgram {
            functions: &builtins,
            config,
        },
        &mut image,
        &mut ro_section,
        &mut registry,
    );
    lines.put_load(answer, registry.as_table());
}

// THE LINES of a file in a lent slice, as many bytes as there is room for and zeros behind them; and
// how many bytes they are.
pub fn list_file(file: &[u8], out: &mut [u8]) -> usize
    ensures { Lists file out result }
{
    let mut lines = Lines { out, at: 0 };
    lines.clear();
    if LONGEST < file.len() {
        lines.put_bytes(b"too long\n");
        return lines.at;
    }
    list_load(&mut lines, file);
    lines.at
}

// Writes the lines of the file that an input holds. One byte more is read than a file may have, so
// that a longer one shows.
pub fn list_input<R: Read, W: Write>(input: &mut R, output: &mut W) -> io::Result<()>
    ensures { OnOk result (IfSome (R.remaining input.old) (λ file.
        Appends (W.contents output.old) (W.contents output.new) (lines_of file))) }
{
    let mut file = [0u8; LONGEST + 1];
    let n = read_full(input, &mut file)?;
    let mut lines = [0u8; LONGEST];
    let length = list_file(&file[..n], &mut lines);
    output.write_all(&lines[..length])
}
