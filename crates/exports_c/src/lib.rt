#![tactic(auto)]
// The functions of `exports` under their names for C, each with the contract that it has there. A slice is a
// pointer and a length.
// Kept: one function for each name that C calls, alike as they are; each has the parameters that C gives, the columns
// one by one.
ghost use Rattle.std.specs.Prelude.{◌≡◌};
ghost use Rattle.ebpf.specs.Murmur3.{murmur3};
ghost use Rattle.elf_parser.specs.Names.{section_name, symbol_name, dynamic_symbol_name};
ghost use Rattle.elf_parser.specs.Parse.{parsed};
ghost use Rattle.elf_parser.specs.Records.{section_place_of, symbol_table_of};
ghost use Rattle.hash_table.specs.Find.{find_symbol};
ghost use Rattle.program.specs.Table.{lookup_in, lookup_ascending_in, row_ascending_in, index_ascending_in, slices};
ghost use Rattle.loader.specs.GetBytes.{text_place};
ghost use Rattle.exports.specs.Answers.{Gives, GivesAsked, GivesLoad, text_answer, parse_answer, place_answer, table_answer, symbol_answer, row_answer, word_or_none};
ghost use Rattle.exports.specs.Wrote.{who_wrote_answer, GivesNumbers, GivesLoadWrote};
ghost use Rattle.exports.specs.Depth.{GivesDepth, GivesLoadDepth};
ghost use Rattle.exports.specs.Names.{Named, refusal_name};

// The hash of a name.
#[unsafe(no_mangle)]
pub extern "C" fn sbpf_hash(name: &[u8]) -> u32
    ensures { result ≡ murmur3 name.now }
{
    exports::sbpf_hash(name)
}

// The name of the refusal with a number: its bytes in the lent slice, as many as there is room for and
// zeros behind them, and as the result its whole length, 0 where no refusal has the number.
#[unsafe(no_mangle)]
pub extern "C" fn sbpf_refusal_name(number: u32, name: &mut [u8]) -> u32
    ensures { Named (refusal_name number) name result }
{
    exports::sbpf_refusal_name(number, name)
}

// Where things stand in a file, or why it is refused.
#[unsafe(no_mangle)]
pub extern "C" fn sbpf_parse(file: &[u8], answer: &mut [u64]) -> u32
    ensures { Gives (parse_answer (parsed file.now)) answer result }
{
    exports::sbpf_parse(file, answer)
}

// Where the contents of a section stand.
#[unsafe(no_mangle)]
pub extern "C" fn sbpf_section_place(file: &[u8], index: u32, answer: &mut [u64]) -> u32
    ensures { GivesAsked file (λ f l. place_answer (section_place_of f l index)) answer result }
{
    exports::sbpf_section_place(file, index, answer)
}

// Where the section name at a string offset stands.
#[unsafe(no_mangle)]
pub extern "C" fn sbpf_section_name(file: &[u8], sh_name: u32, answer: &mut [u64]) -> u32
    ensures { GivesAsked file (λ f l. place_answer (section_name f l sh_name)) answer result }
{
    exports::sbpf_section_name(file, sh_name, answer)
}

// Where the symbol name at a string offset stands.
#[unsafe(no_mangle)]
pub extern "C" fn sbpf_symbol_name(file: &[u8], st_name: u32, answer: &mut [u64]) -> u32
    ensures { GivesAsked file (λ f l. place_answer (symbol_name f l st_name)) answer result }
{
    exports::sbpf_symbol_name(file, st_name, answer)
}

// Where the dynamic symbol name at a string offset stands.
#[unsafe(no_mangle)]
pub extern "C" fn sbpf_dynamic_symbol_name(file: &[u8], st_name: u32, answer: &mut [u64]) -> u32
    ensures { GivesAsked file (λ f l. place_answer (dynamic_symbol_name f l st_name)) answer result }
{
    exports::sbpf_dynamic_symbol_name(file, st_name, answer)
}

// Where the symbols of .symtab stand: none where there is no such section.
#[unsafe(no_mangle)]
pub extern "C" fn sbpf_symbol_table(file: &[u8], answer: &mut [u64]) -> u32
    ensures { GivesAsked file (λ f l. table_answer (symbol_table_of f l)) answer result }
{
    exports::sbpf_symbol_table(file, answer)
}

// The dynamic symbol with a name, through the file's hash table: whether there is one, and its number.
#[unsafe(no_mangle)]
pub extern "C" fn sbpf_find_symbol(file: &[u8], name: &[u8], answer: &mut [u64]) -> u32
    ensures { GivesAsked file (λ f l. symbol_answer (find_symbol f l name.now)) answer result }
{
    exports::sbpf_find_symbol(file, name, answer)
}

// The first used row with the key, whatever the five slices hold; at most the rows lent count.
#[unsafe(no_mangle)]
pub extern "C" fn sbpf_lookup(
    keys: &[u32],
    indices: &[u32],
    kinds: &[u32],
    starts: &[u32],
    lengths: &[u32],
    used: u64,
    key: u32,
    answer: &mut [u64],
) -> u32
    ensures { Gives (row_answer (lookup_in (slices keys.now indices.now kinds.now starts.now lengths.now) used key)) answer result }
{
    exports::sbpf_lookup(keys, indices, kinds, starts, lengths, used, key, answer)
}

// The row with the key that a binary search over the used keys comes to: what `sbpf_lookup` answers
// where the rows ascend, as a load leaves them. At most the rows lent count.
#[unsafe(no_mangle)]
pub extern "C" fn sbpf_lookup_ascending(
    keys: &[u32],
    indices: &[u32],
    kinds: &[u32],
    starts: &[u32],
    lengths: &[u32],
    used: u64,
    key: u32,
    answer: &mut [u64],
) -> u32
    ensures { Gives (row_answer (lookup_ascending_in (slices keys.now indices.now kinds.now starts.now lengths.now) used key)) answer result }
{
    exports::sbpf_lookup_ascending(keys, indices, kinds, starts, lengths, used, key, answer)
}

// The index of that row, by the columns of keys and indices alone; the largest word where there is
// none. At most the rows lent count, that is as many as the shorter column has.
#[unsafe(no_mangle)]
pub extern "C" fn sbpf_index_ascending(keys: &[u32], indices: &[u32], used: u64, key: u32) -> u64
    ensures { result ≡ word_or_none (index_ascending_in keys.now indices.now used key) }
{
    exports::sbpf_index_ascending(keys, indices, used, key)
}

// The number of that row, by the column of keys alone; the largest word where there is none. At most
// as many rows count as the column has numbers.
#[unsafe(no_mangle)]
pub extern "C" fn sbpf_row_ascending(keys: &[u32], used: u64, key: u32) -> u64
    ensures { result ≡ word_or_none (row_ascending_in keys.now used key) }
{
    exports::sbpf_row_ascending(keys, used, key)
}

// A load, as `loader::load`, with the settings by their bits.
#[unsafe(no_mangle)]
pub extern "C" fn sbpf_load(
    file: &[u8],
    builtins: &[u32],
    settings: u32,
    image: &mut [u8],
    ro: &mut [u8],
    keys: &mut [u32],
    indices: &mut [u32],
    kinds: &mut [u32],
    starts: &mut [u32],
    lengths: &mut [u32],
    answer: &mut [u64],
) -> u32
    ensures { GivesLoad file builtins settings image ro keys indices kinds starts lengths answer result }
{
    exports::sbpf_load(
        file, builtins, settings, image, ro, keys, indices, kinds, starts, lengths, answer,
    )
}

// Who wrote a byte of the image that a load of this file made, by the words of that load's answer: 0,
// and in the words 4 and 5 the kind of the writer and its number; the load's own refusal; or 45.
#[unsafe(no_mangle)]
pub extern "C" fn sbpf_who_wrote(
    file: &[u8],
    loaded: &[u64],
    offset: u64,
    answer: &mut [u64],
) -> u32
    ensures { Gives (who_wrote_answer file.now loaded.now offset) answer result }
{
    exports::sbpf_who_wrote(file, loaded, offset, answer)
}

// Who wrote each byte, one number a byte of the file.
#[unsafe(no_mangle)]
pub extern "C" fn sbpf_who_wrote_all(
    file: &[u8],
    loaded: &[u64],
    numbers: &mut [u32],
    answer: &mut [u64],
) -> u32
    ensures { GivesNumbers file loaded numbers answer result }
{
    exports::sbpf_who_wrote_all(file, loaded, numbers, answer)
}

// A load, as `sbpf_load`, and who wrote a byte of its image: the words of the load's answer, and behind
// them the writer's two.
#[unsafe(no_mangle)]
pub extern "C" fn sbpf_load_who_wrote(
    file: &[u8],
    builtins: &[u32],
    settings: u32,
    image: &mut [u8],
    ro: &mut [u8],
    keys: &mut [u32],
    indices: &mut [u32],
    kinds: &mut [u32],
    starts: &mut [u32],
    lengths: &mut [u32],
    offset: u64,
    answer: &mut [u64],
) -> u32
    ensures { GivesLoadWrote file builtins settings image ro keys indices kinds starts lengths offset answer result }
{
    exports::sbpf_load_who_wrote(
        file, builtins, settings, image, ro, keys, indices, kinds, starts, lengths, offset, answer,
    )
}

// How deep the profile calls that a load answered for: by the words of that answer, and by the image and
// the columns that it left. 0, and in the word 4 the longest chain from the entry; 41, where `work` has
// fewer numbers than rows are lent; 50, and as the value the index; 51, and as the value the chain.
#[unsafe(no_mangle)]
pub extern "C" fn sbpf_call_depth(
    image: &[u8],
    keys: &[u32],
    indices: &[u32],
    kinds: &[u32],
    starts: &[u32],
    lengths: &[u32],
    loaded: &[u64],
    work: &mut [u32],
    limit: u32,
    answer: &mut [u64],
) -> u32
    ensures { GivesDepth work image (slices keys.now indices.now kinds.now starts.now lengths.now) loaded.now limit answer result }
{
    exports::sbpf_call_depth(
        image, keys, indices, kinds, starts, lengths, loaded, work, limit, answer,
    )
}

// A load, as `sbpf_load`, and how deep the profile calls: the words of the load's answer, and behind
// them the chain. Where the question is refused, the load's words stay behind that refusal.
#[unsafe(no_mangle)]
pub extern "C" fn sbpf_load_call_depth(
    file: &[u8],
    builtins: &[u32],
    settings: u32,
    image: &mut [u8],
    ro: &mut [u8],
    keys: &mut [u32],
    indices: &mut [u32],
    kinds: &mut [u32],
    starts: &mut [u32],
    lengths: &mut [u32],
    work: &mut [u32],
    limit: u32,
    answer: &mut [u64],
) -> u32
    ensures { GivesLoadDepth file builtins settings image ro keys indices kinds starts lengths work limit answer result }
{
    exports::sbpf_load_call_depth(
        file, builtins, settings, image, ro, keys, indices, kinds, starts, lengths, work, limit,
        answer,
    )
}

// Where the text stands among the read-only bytes of a load: by how many bytes are lent that hold
// them, their offset, start and number, and the text's address and length, all but the first from
// the answer of the load.
#[unsafe(no_mangle)]
pub extern "C" fn sbpf_text_place(
    lent: u64,
    ro_offset: u64,
    ro_start: u64,
    ro_length: u64,
    text_addr: u64,
    text_length: u64,
    answer: &mut [u64],
) -> u32
    ensures { Gives (text_answer (text_place lent ro_offset ro_start ro_length text_addr text_length)) answer result }
{
    exports::sbpf_text_place(
        lent,
        ro_offset,
        ro_start,
        ro_length,
        text_addr,
        text_length,
        answer,
    )
}
