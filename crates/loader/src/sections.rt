// The sections of a file, their names, and what a load asks of all of them.
ghost use Rattle.std.specs.Prelude.{◌≡◌, ◌≤◌, ◌<◌};
ghost use Rattle.loader.specs.Sections.{section_at, starts_with, unsupported, survey_named};

use elf_parser::types::Elf64Shdr;
use elf_parser::{Elf64, past};

// The section number `index`; a blank one where there is none.
#[tactic(auto, unfolding(crate::specs::Sections::section_at))]
pub(crate) fn section_at(elf: &Elf64<'_>, index: u32) -> Elf64Shdr
    ensures { result ≡ section_at elf.now.file.now elf.now.layout index }
{
    elf.section_header(index).unwrap_or_default()
}

// Kept: a function of its own around std's. With std's at each of the three calls the proof didn't close: the literal's
// length is computed before the law of the library's test fits.
#[tactic(auto, using(crate::specs::Sections::front_tested))]
fn starts_with(name: &[u8], prefix: &[u8]) -> bool
    ensures { result ≡ starts_with name.now prefix.now }
{
    name.starts_with(prefix)
}

// Whether a section of that name and those flags is not supported: a name that starts with .bss, or
// a writable one that starts with .data but not with .data.rel.
#[tactic(auto, using(ebpf::specs::Choice::choices), unfolding(crate::specs::Sections::unsupported))]
fn is_unsupported(name: &[u8], sh_flags: u64) -> bool
    ensures { result ≡ unsupported name.now sh_flags }
{
    let writable = sh_flags % 4 == 3;
    let data = starts_with(name, b".data");
    let rel = starts_with(name, b".data.rel");
    starts_with(name, b".bss") | (writable & (data & !rel))
}

// What is known of the sections so far: how many are named .text, and the first of them; whether
// one is not supported, the sh_name of the first such; whether one does not lie in the file.
// Kept: `text` as a number, 0 where none is named .text. It is asked for where one is, and an Option would be taken apart
// there, with a number for the case that is not.
#[derive(Clone, Copy, PartialEq, Eq, Debug, Default)]
pub struct Survey {
    pub texts: u32,
    pub text: u32,
    pub unsupported: Option<u32>,
    pub outside: bool,
}

// With one section more, of that header and name, in a file of `len` bytes.
#[tactic(auto, using(ebpf::specs::Choice::choices, elf_parser::specs::SectionNames::same_tested, crate::specs::Sections::outside_past))]
pub(crate) fn survey_next(len: u64, index: u32, h: Elf64Shdr, name: &[u8], v: Survey) -> Survey
    requires { (v.texts ≤ index) × (index < 65536) }
    ensures { result ≡ survey_named len index h name.now v }
{
    let is_text = name == b".text".as_slice();
    let bad = is_unsupported(name, h.sh_flags);
    let outside = past(len, h.sh_offset, h.sh_size);
    let first = v.texts == 0;
    let first_bad = v.unsupported.is_none() & bad;
    Survey {
        texts: if is_text { v.texts + 1 } else { v.texts },
        text: if is_text & first { index } else { v.text },
        unsupported: if first_bad {
            Some(h.sh_name)
        } else {
            v.unsupported
        },
        outside: v.outside | outside,
    }
}
