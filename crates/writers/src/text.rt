// What the questions need of an accepted load.
ghost use Rattle.std.specs.Prelude.{◌≡◌};
ghost use Rattle.writers.specs.Asked.{Askable, text_loaded, text_in, text_of};

use elf_parser::{Elf64, ElfParserError, Layout, Place, parse, past};
use loader::{Accepted, ElfError, MAX_FILE_LENGTH, MAX_PROGRAM_HEADERS};

// What a load's answer says of the text: the version, and the text's place in the file.
#[derive(Clone, Copy, PartialEq, Eq, Debug)]
pub struct LoadedText {
    pub version2: bool,
    pub place: Place,
}

impl From<Accepted> for LoadedText {
    ghost from_gives = { λ a r. r ≡ text_loaded a };

    fn from(a: Accepted) -> LoadedText {
        LoadedText {
            version2: a.version == 2,
            place: a.text,
        }
    }
}

// The text of a load of this file. `askable` is what the checks showed: the file is short, and the text and
// the relocations lie in it.
#[derive(Clone, Copy, PartialEq, Eq, Debug)]
pub struct Text<'a> {
    pub elf: Elf64<'a>,
    pub loaded: LoadedText,
    pub ghost askable: { Askable elf.file.now elf.layout loaded },
}

// Version 2 has at most nine program headers.
#[tactic(auto, using(ebpf::specs::Choice::choices), unfolding(crate::specs::Asked::text_in))]
fn layout_in(layout: Layout, loaded: LoadedText) -> Result<Layout, ElfError>
    ensures { result ≡ text_in layout loaded }
{
    let headers = layout.program_headers;
    if loaded.version2 & (MAX_PROGRAM_HEADERS < headers.count) {
        return Err(ElfError::FailedToParse(ElfParserError::InvalidProgramHeader));
    }
    Ok(layout)
}

// The file's layout, by what the answer of a load of this file says of the text. Others are refused where
// the file can not have been loaded, or the text is not in it.
#[tactic(auto, using(ebpf::specs::Choice::choices), unfolding(crate::specs::Asked::text_of))]
pub(crate) fn layout_of(file: &[u8], loaded: LoadedText) -> Result<Layout, ElfError>
    ensures { result ≡ text_of file.now loaded }
{
    let len = file.len() as u64;
    if MAX_FILE_LENGTH < len {
        return Err(ElfError::FileTooLong);
    }
    if past(len, loaded.place.start as u64, loaded.place.length as u64) {
        return Err(ElfError::ValueOutOfBounds);
    }
    layout_in(parse(file)?, loaded)
}
