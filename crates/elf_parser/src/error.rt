// Why a file is refused.
ghost use Rattle.std.specs.Prelude.{◌≡◌};
ghost use Rattle.elf_parser.specs.Errors.{valued, named, report_of};

use crate::parts::Place;

#[derive(Clone, Copy, PartialEq, Eq, Debug)]
pub enum ElfParserError {
    InvalidFileHeader,
    InvalidProgramHeader,
    InvalidSectionHeader,
    // No zero byte within the limit: the place of the bytes that were looked at.
    StringTooLong(Place),
    OutOfBounds,
    InvalidSize,
    Overlap,
    SectionNotInOrder,
    NoSectionNameStringTable,
    InvalidDynamicSectionTable,
    InvalidAlignment,
    NoStringTable,
    NoDynamicStringTable,
    NoSuchIndex,
    NotASection,
    // The same where the section ends before the limit.
    StringUnterminated(Place),
}

// A refusal in numbers: its number, its value, and the place of the name that it speaks of.
#[derive(Clone, Copy, PartialEq, Eq, Debug)]
pub struct Report {
    pub number: u32,
    pub value: u64,
    pub start: u64,
    pub length: u64,
}

impl Report {
    // A refusal that has a number and a value alone.
    pub fn with_value(number: u32, value: u64) -> Report
        ensures { result ≡ valued number value }
    {
        Report {
            number,
            value,
            start: 0,
            length: 0,
        }
    }

    // One that speaks of a name.
    pub fn with_name(number: u32, value: u64, name: Place) -> Report
        ensures { result ≡ named number value name }
    {
        Report {
            number,
            value,
            start: name.start as u64,
            length: name.length as u64,
        }
    }
}

impl From<ElfParserError> for Report {
    ghost from_gives = { λ e r. r ≡ report_of e };

    fn from(e: ElfParserError) -> Report {
        match e {
            ElfParserError::InvalidFileHeader => Report::with_value(1, 0),
            ElfParserError::InvalidProgramHeader => Report::with_value(2, 0),
            ElfParserError::InvalidSectionHeader => Report::with_value(3, 0),
            ElfParserError::StringTooLong(place) => Report::with_name(4, 0, place),
            ElfParserError::OutOfBounds => Report::with_value(5, 0),
            ElfParserError::InvalidSize => Report::with_value(6, 0),
            ElfParserError::Overlap => Report::with_value(7, 0),
            ElfParserError::SectionNotInOrder => Report::with_value(8, 0),
            ElfParserError::NoSectionNameStringTable => Report::with_value(9, 0),
            ElfParserError::InvalidDynamicSectionTable => Report::with_value(10, 0),
            ElfParserError::InvalidAlignment => Report::with_value(11, 0),
            ElfParserError::NoStringTable => Report::with_value(12, 0),
            ElfParserError::NoDynamicStringTable => Report::with_value(13, 0),
            ElfParserError::NoSuchIndex => Report::with_value(45, 0),
            ElfParserError::NotASection => Report::with_value(46, 0),
            ElfParserError::StringUnterminated(place) => Report::with_name(49, 0, place),
        }
    }
}
