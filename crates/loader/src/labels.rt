// What a symbol of .symtab asks for where labels are kept: a function to register.
ghost use Rattle.std.specs.Prelude.{◌≡◌};
ghost use Rattle.elf_parser.specs.Names.{symbol_name};
ghost use Rattle.loader.specs.Labels.{label_row, label_as, named_label, label_of, label_deed, label_symbols};

use crate::deeds::Deed;
use crate::error::ElfError;
use crate::functions::{row_for, symbol_function};
use crate::inputs::Inputs;
use crate::symbol_name::SymbolName;
use elf_parser::types::Elf64Sym;
use elf_parser::{Entries, bytes_at, entry};
use program::{Row, SymbolHashCollision};

pub(crate) fn label_row(row: Result<Row, SymbolHashCollision>) -> Result<Deed, ElfError>
    ensures { result ≡ label_row row }
{
    Ok(Deed::RegisterOnly { row: row? })
}

// A function of that name.
fn label_as(inputs: &Inputs<'_>, name: SymbolName<'_>, index: u32) -> Result<Deed, ElfError>
    ensures { result ≡ label_as name.entry.part.now inputs.now.builtins.now inputs.now.job index name.entry.place.start name.entry.place.length }
{
    label_row(row_for(inputs, symbol_function(name), index))
}

// A function at `index`.
// Kept: beside `named_call`, which takes the same steps to a name by the other table. A function for both would take the
// place's Result, and have to ask of it what each of the two shows of its own: that it lies in the file, and is short.
#[tactic(auto, using(elf_parser::specs::Names::name_within, elf_parser::specs::Parts::part_within, crate::proofs::Mapped::mapped_ok))]
fn named_label(inputs: &Inputs<'_>, index: u32, st_name: u32) -> Result<Deed, ElfError>
    ensures { result ≡ named_label inputs.now.file.now inputs.now.builtins.now inputs.now.job index st_name (symbol_name inputs.now.file.now inputs.now.job.layout st_name) }
{
    let unknown = |_| ElfError::UnknownSymbol { number: st_name };
    let place = inputs.elf().symbol_name(st_name).map_err(unknown)?;
    let part = bytes_at(inputs.file, place);
    label_as(inputs, SymbolName { part, place }, index)
}

#[tactic(auto, using(ebpf::specs::Choice::choices), unfolding(crate::specs::Labels::label_of))]
fn label_of(inputs: &Inputs<'_>, y: Elf64Sym) -> Result<Deed, ElfError>
    ensures { result ≡ label_of inputs.now.file.now inputs.now.builtins.now inputs.now.job y }
{
    if y.st_info & 0xef != 2 {
        return Ok(Deed::Skip);
    }
    let slot = inputs.index_at(y.st_value);
    let index = slot.ok_or(ElfError::ValueOutOfBounds)?;
    named_label(inputs, index, y.st_name)
}

// The symbol number `index` of a symbol table.
#[tactic(auto, using(ebpf::specs::Choice::choices), unfolding(crate::specs::Labels::label_deed))]
pub(crate) fn label_deed(
    inputs: &Inputs<'_>,
    symbols: Entries,
    index: u32,
) -> Result<Deed, ElfError>
    ensures { result ≡ label_deed inputs.now.file.now inputs.now.builtins.now inputs.now.job symbols index }
{
    match entry(inputs.file, symbols, index) {
        Ok(y) => label_of(inputs, y),
        Err(_) => Ok(Deed::Skip),
    }
}

// The symbols to go through: none where labels are not kept, or the table is unreadable.
#[tactic(auto, using(ebpf::specs::Choice::choices), unfolding(crate::specs::Labels::label_symbols))]
pub(crate) fn label_symbols(inputs: &Inputs<'_>) -> Entries
    ensures { result ≡ label_symbols inputs.now.file.now inputs.now.job }
{
    if !inputs.job.labels {
        return Entries::default();
    }
    inputs.elf().symbol_table().unwrap_or_default()
}
