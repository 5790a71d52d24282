// A file with its layout: what every question about a parsed file asks. It holds a reference to the file and
// plain offsets beside it, so that a layout that no parse made is asked in the same way.
ghost use Rattle.std.specs.Prelude.{◌≡◌};
ghost use Rattle.elf_parser.specs.Parts.{part_of};

use crate::error::ElfParserError;
use crate::layout::Layout;
use crate::parts::{Place, part_of};

#[derive(Clone, Copy, PartialEq, Eq, Debug)]
pub struct Elf64<'a> {
    pub file: &'a [u8],
    pub layout: Layout,
}

impl<'a> Elf64<'a> {
    // Of a file with a layout: `parse`'s, or any.
    // Kept: file and layout by themselves, which this joins.
    pub fn new(file: &'a [u8], layout: Layout) -> Elf64<'a>
        ensures { (result.file ≡ file.entry) × (result.layout ≡ layout) }
    {
        Elf64 { file, layout }
    }

    pub fn file(&self) -> &'a [u8]
        ensures { result ≡ self.now.file }
    {
        self.file
    }

    pub fn layout(&self) -> Layout
        ensures { result ≡ self.now.layout }
    {
        self.layout
    }

    pub fn program_header_count(&self) -> u64
        ensures { result ≡ self.now.layout.program_headers.count }
    {
        self.layout.program_headers.count
    }

    pub fn section_header_count(&self) -> u64
        ensures { result ≡ self.now.layout.section_headers.count }
    {
        self.layout.section_headers.count
    }

    // The bytes at a place, as a part of the file: none where it is refused.
    pub fn part_of(&self, place: Result<Place, ElfParserError>) -> &'a [u8]
        ensures { result.now ≡ part_of self.now.file.now place }
    {
        part_of(self.file, place)
    }
}
