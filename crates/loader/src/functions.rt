// The row that a function is registered as.
ghost use Rattle.std.specs.Prelude.{◌≡◌};
ghost use Rattle.loader.specs.Functions.{hashed_legacy, index_at, row_for, symbol_function};

use crate::addresses::in_addresses;
use crate::inputs::Inputs;
use crate::symbol_name::SymbolName;
use program::{FunctionName, HashedLegacy, Row, SymbolHashCollision};

impl<'a> Inputs<'a> {
    // What functions are registered by, beside their names and indices.
    #[inline(always)]
    pub(crate) fn hashed_legacy(&self) -> HashedLegacy<'a>
        ensures { result ≡ hashed_legacy self.now.table self.now.builtins self.now.job }
    {
        HashedLegacy {
            table: self.table,
            builtins: self.builtins,
            version2: self.job.version2,
            check_collision: self.job.check_collision,
            labels: self.job.labels,
        }
    }
}

impl Inputs<'_> {
    // The index of the slot at an address, if it is one of the text's.
    #[tactic(auto, using(ebpf::specs::Choice::choices))]
    pub(crate) fn index_at(&self, a: u64) -> Option<u32>
        ensures { result ≡ index_at self.now.job a }
    {
        if !in_addresses(self.job.sh_addr, self.job.sh_size, a) {
            return None;
        }
        Some(((a - self.job.sh_addr) / 8) as u32)
    }
}

// By the lent table of keys, where it is right (`Keyed`).
#[tactic(auto, using(crate::proofs::Rowing::same_row), unfolding(crate::specs::Functions::row_for))]
pub(crate) fn row_for(
    inputs: &Inputs<'_>,
    name: FunctionName,
    index: u32,
) -> Result<Row, SymbolHashCollision>
    ensures { result ≡ row_for inputs.now.builtins.now inputs.now.job name index }
{
    inputs.hashed_legacy().legacy_row(name, index)
}

// A name that is a part of the file.
#[tactic(auto, using(elf_parser::specs::SectionNames::same_tested))]
pub(crate) fn symbol_function(name: SymbolName<'_>) -> FunctionName
    ensures { result ≡ symbol_function name.entry.part.now name.entry.place.start name.entry.place.length }
{
    FunctionName::Symbol {
        start: name.place.start as u32,
        length: name.place.length as u32,
        entrypoint: name.part == b"entrypoint".as_slice(),
    }
}
