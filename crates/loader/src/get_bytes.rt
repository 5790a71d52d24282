// The read-only bytes of an accepted load, and the text among them: `get_ro_section` and
// `get_text_bytes`. They stand in the image, or in the buffer that they were copied to.
ghost use Rattle.std.specs.Prelude.{◌≡◌, length};
ghost use Rattle.elf_parser.specs.Parts.{part_of};
ghost use Rattle.loader.specs.GetBytes.{text_place, ro_place, lent_for, ro_of, text_place_of, part_for};

use crate::answer::Accepted;
use crate::error::ElfError;
use ebpf::MM_PROGRAM_START;
use elf_parser::{Place, part_of, past};

// The read-only bytes of a load: their offset from the program's start, where they start in the bytes that hold
// them, and how many they are.
#[derive(Clone, Copy, PartialEq, Eq, Debug)]
pub struct ReadOnly {
    pub offset: u64,
    pub start: u64,
    pub length: u64,
}

impl ReadOnly {
    // Their place, by how many bytes are lent.
    #[tactic(auto, using(ebpf::specs::Choice::choices), unfolding(crate::specs::GetBytes::ro_place))]
    pub fn place(self, lent: u64) -> Result<Place, ElfError>
        ensures { result ≡ ro_place lent self.start self.length }
    {
        if past(lent, self.start, self.length) {
            return Err(ElfError::TextOutsideReadOnly);
        }
        Ok(Place {
            start: self.start as usize,
            length: self.length as usize,
        })
    }

    // The bytes there; none where they are refused.
    pub fn bytes(self, lent: &[u8]) -> &[u8]
        ensures { result.now ≡ part_of lent.now (ro_place (length lent.now) self.start self.length) }
    {
        part_of(lent, self.place(lent.len() as u64))
    }

    // The place of the text among them, by its address and size.
    #[tactic(auto, using(ebpf::specs::Choice::choices, crate::specs::GetBytes::text_behind, crate::specs::GetBytes::ro_fits))]
    pub fn text_place(self, lent: u64, addr: u64, size: u64) -> Result<Place, ElfError>
        ensures { result ≡ text_place lent self.offset self.start self.length addr size }
    {
        let at = addr
            .saturating_sub(MM_PROGRAM_START)
            .saturating_sub(self.offset);
        self.place(lent)?;
        if past(self.length, at, size) {
            return Err(ElfError::TextOutsideReadOnly);
        }
        Ok(Place {
            start: (self.start + at) as usize,
            length: size as usize,
        })
    }

    // The text's bytes; none where they are refused.
    pub fn text_bytes(self, lent: &[u8], addr: u64, size: u64) -> &[u8]
        ensures { result.now ≡ part_of lent.now (text_place (length lent.now) self.offset self.start self.length addr size) }
    {
        part_of(lent, self.text_place(lent.len() as u64, addr, size))
    }
}

impl Accepted {
    // The lent bytes that hold the read-only ones: the buffer where they were copied, else the image.
    #[tactic(auto, using(ebpf::specs::Choice::choices))]
    fn lent_for<T: Copy>(self, image: T, ro_section: T) -> T
        ensures { result ≡ lent_for self image ro_section }
    {
        if self.ro_copied {
            return ro_section;
        }
        image
    }

    // The read-only bytes there.
    fn read_only(self) -> ReadOnly
        ensures { result ≡ record { offset = self.ro_offset; start = self.ro_start; length = self.ro_length } }
    {
        ReadOnly {
            offset: self.ro_offset,
            start: self.ro_start,
            length: self.ro_length,
        }
    }

    // The read-only bytes, of the lent image or of the lent buffer.
    #[tactic(auto, using(crate::specs::GetBytes::lent_now))]
    pub fn get_ro_section<'a>(self, image: &'a [u8], ro_section: &'a [u8]) -> &'a [u8]
        ensures { result.now ≡ part_for self image ro_section (ro_of self) }
    {
        self.read_only().bytes(self.lent_for(image, ro_section))
    }

    // Where they stand, by how many bytes are lent for the image and for the buffer.
    pub fn get_ro_place(self, image: u64, ro_section: u64) -> Result<Place, ElfError>
        ensures { result ≡ ro_of self (lent_for self image ro_section) }
    {
        self.read_only().place(self.lent_for(image, ro_section))
    }

    // The text's bytes.
    #[tactic(auto, using(crate::specs::GetBytes::lent_now))]
    pub fn get_text_bytes<'a>(self, image: &'a [u8], ro_section: &'a [u8]) -> &'a [u8]
        ensures { result.now ≡ part_for self image ro_section (text_place_of self) }
    {
        let lent = self.lent_for(image, ro_section);
        self.read_only()
            .text_bytes(lent, self.text_addr, self.text.length as u64)
    }

    // Where it stands.
    pub fn get_text_place(self, image: u64, ro_section: u64) -> Result<Place, ElfError>
        ensures { result ≡ text_place_of self (lent_for self image ro_section) }
    {
        let lent = self.lent_for(image, ro_section);
        self.read_only()
            .text_place(lent, self.text_addr, self.text.length as u64)
    }
}
