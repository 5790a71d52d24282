#![tactic(auto)]
// What C and Rust can ask, over numbers and lent slices; `exports_c` hands it to C. Each answer but a
// hash, a name, an index and a row's number is 24 words, the number first, as `specs/Answers.antt` says; the
// number is the result too.
// A lent slice of fewer words takes the first of them, one of more has zeros behind them.
ghost use Rattle.std.specs.Prelude.{◌≡◌};
ghost use Rattle.ebpf.specs.Murmur3.{murmur3};
ghost use Rattle.elf_parser.specs.Names.{section_name, symbol_name, dynamic_symbol_name};
ghost use Rattle.elf_parser.specs.Parse.{parsed};
ghost use Rattle.elf_parser.specs.Records.{section_place_of, symbol_table_of};
ghost use Rattle.hash_table.specs.Find.{find_symbol};
ghost use Rattle.program.specs.Table.{lookup_in, lookup_ascending_in, row_ascending_in, index_ascending_in, slices};
ghost use Rattle.loader.specs.GetBytes.{text_place};
ghost use Rattle.exports.specs.Answers.{Gives, GivesAsked, GivesPlaceBy, GivesLoad, text_answer, parse_answer, place_answer, table_answer, symbol_answer, row_answer, word_or_none};
ghost use Rattle.exports.specs.Wrote.{who_wrote_answer, GivesNumbers, GivesLoadWrote};
ghost use Rattle.exports.specs.Depth.{GivesDepth, GivesLoadDepth};
ghost use Rattle.exports.specs.Names.{Named, refusal_name};

use answers::{
    answered, give, give_row, parse_answer, place_answer, symbol_answer, table_answer, word_in,
    word_or_none,
};
use call_depth::load_call_depth;
use depth::{load_depth_answer, measured};
use ebpf::hash_symbol_name;
use elf_parser::{Elf64, ElfParserError, Place, parse};
use hash_table::find_symbol;
use loader::{BuiltinProgram, Config, ReadOnly, load};
use loading::{load_answer, text_answer};
use names::refusal_name;
use program::{FunctionRegistry, FunctionTable, index_ascending, row_ascending};
use writers::load_who_wrote;
use wrote::{load_wrote_answer, numbers_answer, who_wrote_answer};

mod answers;
mod depth;
mod loading;
mod names;
mod wrote;

// The hash of a name.
pub fn sbpf_hash(name: &[u8]) -> u32
    ensures { result ≡ murmur3 name.now }
{
    hash_symbol_name(name)
}

// The name of the refusal with a number: its bytes in the lent slice, as many as there is room for and
// zeros behind them, and as the result its whole length, 0 where no refusal has the number.
pub fn sbpf_refusal_name(number: u32, name: &mut [u8]) -> u32
    ensures { Named (refusal_name number) name result }
{
    refusal_name(name, number)
}

// Where things stand in a file, or why it is refused.
pub fn sbpf_parse(file: &[u8], answer: &mut [u64]) -> u32
    ensures { Gives (parse_answer (parsed file.now)) answer result }
{
    give(answer, parse_answer(parse(file)))
}

// Fills the lent slice with the place that a parsed file is asked for, or the refusal.
fn give_place<F: FnOnce(Elf64<'_>) -> Result<Place, ElfParserError>>(
    file: &[u8],
    answer: &mut [u64],
    ask: F,
) -> u32
    requires { F.IsAlwaysCallable ask }
    ensures { GivesPlaceBy (parsed file.now) (λ l place. F.post ask (record { file = file.entry; layout = l }) place) answer result }
{
    give(
        answer,
        place_answer(parse(file).and_then(|layout| ask(Elf64 { file, layout }))),
    )
}

// Where the contents of a section stand.
// Kept: the four questions for a place stand each under its name for C.
pub fn sbpf_section_place(file: &[u8], index: u32, answer: &mut [u64]) -> u32
    ensures { GivesAsked file (λ f l. place_answer (section_place_of f l index)) answer result }
{
    give_place(file, answer, |elf| elf.section_place(index))
}

// Where the section name at a string offset stands.
pub fn sbpf_section_name(file: &[u8], sh_name: u32, answer: &mut [u64]) -> u32
    ensures { GivesAsked file (λ f l. place_answer (section_name f l sh_name)) answer result }
{
    give_place(file, answer, |elf| elf.section_name(sh_name))
}

// Where the symbol name at a string offset stands.
pub fn sbpf_symbol_name(file: &[u8], st_name: u32, answer: &mut [u64]) -> u32
    ensures { GivesAsked file (λ f l. place_answer (symbol_name f l st_name)) answer result }
{
    give_place(file, answer, |elf| elf.symbol_name(st_name))
}

// Where the dynamic symbol name at a string offset stands.
pub fn sbpf_dynamic_symbol_name(file: &[u8], st_name: u32, answer: &mut [u64]) -> u32
    ensures { GivesAsked file (λ f l. place_answer (dynamic_symbol_name f l st_name)) answer result }
{
    give_place(file, answer, |elf| elf.dynamic_symbol_name(st_name))
}

// Where the symbols of .symtab stand: none where there is no such section.
pub fn sbpf_symbol_table(file: &[u8], answer: &mut [u64]) -> u32
    ensures { GivesAsked file (λ f l. table_answer (symbol_table_of f l)) answer result }
{
    let table = parse(file).and_then(|layout| Elf64 { file, layout }.symbol_table());
    give(answer, table_answer(table))
}

// The dynamic symbol with a name, through the file's hash table: whether there is one, and its number.
pub fn sbpf_find_symbol(file: &[u8], name: &[u8], answer: &mut [u64]) -> u32
    ensures { GivesAsked file (λ f l. symbol_answer (find_symbol f l name.now)) answer result }
{
    let found = answered(parse(file), |layout| {
        symbol_answer(find_symbol(&Elf64 { file, layout }, name))
    });
    give(answer, found)
}

// The first used row with the key, whatever the five slices hold; at most the rows lent count.
// Kept: the columns one by one here and below, as C lends them.
pub fn sbpf_lookup(
    keys: &[u32],
    indices: &[u32],
    kinds: &[u32],
    starts: &[u32],
    lengths: &[u32],
    used: u64,
    key: u32,
    answer: &mut [u64],
) -> u32
    ensures { Gives (row_answer (lookup_in (slices keys.now indices.now kinds.now starts.now lengths.now) used key)) answer result }
{
    let table = FunctionTable {
        keys,
        indices,
        kinds,
        starts,
        lengths,
        used: used as usize,
    };
    give_row(answer, table.lookup_by_key(key))
}

// The row with the key that a binary search over the used keys comes to: what `sbpf_lookup` answers
// where the rows ascend, as a load leaves them. At most the rows lent count.
// Kept: the table is written out in both lookups, since a function that makes it would take the same six
// parameters.
pub fn sbpf_lookup_ascending(
    keys: &[u32],
    indices: &[u32],
    kinds: &[u32],
    starts: &[u32],
    lengths: &[u32],
    used: u64,
    key: u32,
    answer: &mut [u64],
) -> u32
    ensures { Gives (row_answer (lookup_ascending_in (slices keys.now indices.now kinds.now starts.now lengths.now) used key)) answer result }
{
    let table = FunctionTable {
        keys,
        indices,
        kinds,
        starts,
        lengths,
        used: used as usize,
    };
    give_row(answer, table.lookup_ascending(key))
}

// The index of that row, by the columns of keys and indices alone; the largest word where there is
// none. At most the rows lent count, that is as many as the shorter column has.
pub fn sbpf_index_ascending(keys: &[u32], indices: &[u32], used: u64, key: u32) -> u64
    ensures { result ≡ word_or_none (index_ascending_in keys.now indices.now used key) }
{
    let index = index_ascending(keys, indices, used as usize, key);
    word_or_none(index.map(|index| index as u64))
}

// The number of that row, by the column of keys alone; the largest word where there is none. At most
// as many rows count as the column has numbers.
pub fn sbpf_row_ascending(keys: &[u32], used: u64, key: u32) -> u64
    ensures { result ≡ word_or_none (row_ascending_in keys.now used key) }
{
    let row = row_ascending(keys, used as usize, key);
    word_or_none(row.map(|row| row as u64))
}

// A load, as `loader::load`, with the settings by their bits.
// Kept: the columns one by one, as C lends them.
#[tactic(auto, using(crate::proofs::Giving::one_by_one, crate::proofs::Giving::given))]
pub fn sbpf_load(
    file: &[u8],
    builtins: &[u32],
    settings: u32,
    image: &mut [u8],
    ro: &mut [u8],
    keys: &mut [u32],
    indices: &mut [u32],
    kinds: &mut [u32],
    starts: &mut [u32],
    lengths: &mut [u32],
    answer: &mut [u64],
) -> u32
    ensures { GivesLoad file builtins settings image ro keys indices kinds starts lengths answer result }
{
    let mut registry = FunctionRegistry {
        keys,
        indices,
        kinds,
        starts,
        lengths,
        used: 0,
    };
    let loader = BuiltinProgram {
        functions: builtins,
        config: Config::from(settings),
    };
    let a = load(file, loader, image, ro, &mut registry);
    give(answer, load_answer(a))
}

// Who wrote a byte of the image that a load of this file made, by the words of that load's answer: 0,
// and in the words 4 and 5 the kind of the writer and its number; the load's own refusal; or 45.
pub fn sbpf_who_wrote(file: &[u8], loaded: &[u64], offset: u64, answer: &mut [u64]) -> u32
    ensures { Gives (who_wrote_answer file.now loaded.now offset) answer result }
{
    give(answer, who_wrote_answer(file, loaded, offset))
}

// Who wrote each byte, one number a byte of the file.
pub fn sbpf_who_wrote_all(
    file: &[u8],
    loaded: &[u64],
    numbers: &mut [u32],
    answer: &mut [u64],
) -> u32
    ensures { GivesNumbers file loaded numbers answer result }
{
    let a = numbers_answer(numbers, file, loaded);
    give(answer, a)
}

// A load, as `sbpf_load`, and who wrote a byte of its image: the words of the load's answer, and behind
// them the writer's two.
// Kept: the columns one by one, as C lends them; and the registry and the settings written out in each load,
// since a function that makes them would take the same seven parameters.
#[tactic(auto, using(crate::proofs::Giving::one_by_one, crate::proofs::GivingBoth::given))]
pub fn sbpf_load_who_wrote(
    file: &[u8],
    builtins: &[u32],
    settings: u32,
    image: &mut [u8],
    ro: &mut [u8],
    keys: &mut [u32],
    indices: &mut [u32],
    kinds: &mut [u32],
    starts: &mut [u32],
    lengths: &mut [u32],
    offset: u64,
    answer: &mut [u64],
) -> u32
    ensures { GivesLoadWrote file builtins settings image ro keys indices kinds starts lengths offset answer result }
{
    let mut registry = FunctionRegistry {
        keys,
        indices,
        kinds,
        starts,
        lengths,
        used: 0,
    };
    let loader = BuiltinProgram {
        functions: builtins,
        config: Config::from(settings),
    };
    let a = load_who_wrote(file, loader, image, ro, &mut registry, offset);
    give(answer, load_wrote_answer(a))
}

// How deep the profile calls that a load answered for: by the words of that answer, and by the image and
// the columns that it left. 0, and in the word 4 the longest chain from the entry; 41, where `work` has
// fewer numbers than rows are lent; 50, and as the value the index; 51, and as the value the chain.
// Kept: the columns one by one, as C lends them.
#[tactic(auto, using(crate::proofs::Measuring::measured_given))]
pub fn sbpf_call_depth(
    image: &[u8],
    keys: &[u32],
    indices: &[u32],
    kinds: &[u32],
    starts: &[u32],
    lengths: &[u32],
    loaded: &[u64],
    work: &mut [u32],
    limit: u32,
    answer: &mut [u64],
) -> u32
    ensures { GivesDepth work image (slices keys.now indices.now kinds.now starts.now lengths.now) loaded.now limit answer result }
{
    let table = FunctionTable {
        keys,
        indices,
        kinds,
        starts,
        lengths,
        used: word_in(loaded, 6) as usize,
    };
    let a = measured(work, image, table, loaded, limit);
    give(answer, a)
}

// A load, as `sbpf_load`, and how deep the profile calls: the words of the load's answer, and behind
// them the chain. Where the question is refused, the load's words stay behind that refusal.
// Kept: the columns one by one, as C lends them; the rest as in the load above.
#[tactic(auto, using(crate::proofs::Giving::one_by_one, crate::proofs::Measuring::given))]
pub fn sbpf_load_call_depth(
    file: &[u8],
    builtins: &[u32],
    settings: u32,
    image: &mut [u8],
    ro: &mut [u8],
    keys: &mut [u32],
    indices: &mut [u32],
    kinds: &mut [u32],
    starts: &mut [u32],
    lengths: &mut [u32],
    work: &mut [u32],
    limit: u32,
    answer: &mut [u64],
) -> u32
    ensures { GivesLoadDepth file builtins settings image ro keys indices kinds starts lengths work limit answer result }
{
    let mut registry = FunctionRegistry {
        keys,
        indices,
        kinds,
        starts,
        lengths,
        used: 0,
    };
    let loader = BuiltinProgram {
        functions: builtins,
        config: Config::from(settings),
    };
    let a = load_call_depth(file, loader, image, ro, &mut registry, work, limit);
    give(answer, load_depth_answer(a))
}

// Where the text stands among the read-only bytes of a load: by how many bytes are lent that hold
// them, their offset, start and number, and the text's address and length, all but the first from
// the answer of the load.
// Kept: the numbers one by one, as C gives them.
pub fn sbpf_text_place(
    lent: u64,
    ro_offset: u64,
    ro_start: u64,
    ro_length: u64,
    text_addr: u64,
    text_length: u64,
    answer: &mut [u64],
) -> u32
    ensures { Gives (text_answer (text_place lent ro_offset ro_start ro_length text_addr text_length)) answer result }
{
    let read_only = ReadOnly {
        offset: ro_offset,
        start: ro_start,
        length: ro_length,
    };
    let place = read_only.text_place(lent, text_addr, text_length);
    give(answer, text_answer(place))
}
