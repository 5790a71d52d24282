// The name of a symbol.
ghost use Rattle.std.specs.Prelude.{◌≤◌, ◌^◌};

use elf_parser::Place;

// Its bytes, and their place in the file. `short` is what the reader shows of a name that it finds.
#[derive(Clone, Copy, PartialEq, Eq, Debug)]
pub struct SymbolName<'a> {
    pub part: &'a [u8],
    pub place: Place,
    pub ghost short: { (place.start ≤ 2 ^ 24) × (place.length ≤ 64) },
}
