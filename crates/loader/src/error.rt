// Why a load is refused.
ghost use Rattle.std.specs.Prelude.{◌≡◌};
ghost use Rattle.loader.specs.Errors.{from_collision, from_parser, report_of};

use elf_parser::{ElfParserError, Place, Report};
use program::SymbolHashCollision;

#[derive(Clone, Copy, PartialEq, Eq, Debug)]
pub enum ElfError {
    FailedToParse(ElfParserError),
    EntrypointOutOfBounds,
    InvalidEntrypoint,
    // The name's place in the file, and the place of the relocation.
    UnresolvedSymbol { name: Place, offset: u64 },
    RelativeJumpOutOfBounds { slot: u64 },
    SymbolHashCollision { key: u32 },
    WrongAbi,
    WrongMachine,
    NotOneTextSection,
    WritableSectionNotSupported { name: Place },
    InvalidVirtualAddress,
    UnknownRelocation { number: u32 },
    WrongType,
    // The symbol's number, or its st_name where the name is unreadable.
    UnknownSymbol { number: u32 },
    ValueOutOfBounds,
    UnsupportedSBPFVersion,
    FileTooLong,
    BufferShort,
    BuiltinsNotAscending,
    TableFull { rows: u64 },
    TextOutsideReadOnly,
    AddendNegative,
}

// A built-in has the key of a function.
impl From<SymbolHashCollision> for ElfError {
    ghost from_gives = { λ taken r. r ≡ from_collision taken };

    fn from(taken: SymbolHashCollision) -> ElfError {
        ElfError::SymbolHashCollision { key: taken.key }
    }
}

// A parse's refusal in a load.
impl From<ElfParserError> for ElfError {
    ghost from_gives = { λ e r. r ≡ from_parser e };

    fn from(e: ElfParserError) -> ElfError {
        match e {
            ElfParserError::OutOfBounds => ElfError::ValueOutOfBounds,
            _ => ElfError::FailedToParse(e),
        }
    }
}

// A load's refusal in numbers.
impl From<ElfError> for Report {
    ghost from_gives = { λ e r. r ≡ report_of e };

    fn from(e: ElfError) -> Report {
        match e {
            ElfError::FailedToParse(p) => Report::from(p),
            ElfError::EntrypointOutOfBounds => Report::with_value(20, 0),
            ElfError::InvalidEntrypoint => Report::with_value(21, 0),
            ElfError::UnresolvedSymbol { name, offset } => Report::with_name(22, offset, name),
            ElfError::RelativeJumpOutOfBounds { slot } => Report::with_value(23, slot),
            ElfError::SymbolHashCollision { key } => Report::with_value(24, key as u64),
            ElfError::WrongAbi => Report::with_value(25, 0),
            ElfError::WrongMachine => Report::with_value(26, 0),
            ElfError::NotOneTextSection => Report::with_value(27, 0),
            ElfError::WritableSectionNotSupported { name } => Report::with_name(28, 0, name),
            ElfError::InvalidVirtualAddress => Report::with_value(29, 0),
            ElfError::UnknownRelocation { number } => Report::with_value(30, number as u64),
            ElfError::WrongType => Report::with_value(31, 0),
            ElfError::UnknownSymbol { number } => Report::with_value(32, number as u64),
            ElfError::ValueOutOfBounds => Report::with_value(33, 0),
            ElfError::UnsupportedSBPFVersion => Report::with_value(34, 0),
            ElfError::FileTooLong => Report::with_value(40, 0),
            ElfError::BufferShort => Report::with_value(41, 0),
            ElfError::BuiltinsNotAscending => Report::with_value(42, 0),
            ElfError::TableFull { rows } => Report::with_value(43, rows),
            ElfError::TextOutsideReadOnly => Report::with_value(44, 0),
            ElfError::AddendNegative => Report::with_value(47, 0),
        }
    }
}
