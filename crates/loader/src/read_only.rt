// Where the read-only sections go, and the copy of them: `parse_ro_sections`.
ghost use Rattle.std.specs.Prelude.{◌≡◌, ◌+◌, ◌≤◌, length, drop};
ghost use Rattle.std.proofs.Math.Seq.{paste};
ghost use Rattle.loader.specs.ReadOnly.{read_only, gives, invalid_by, end_of, grown, taken, gather_next, nothing, from_start, can_borrow, borrowed, owned, placed, placing_by, copied_to, copy_step, copied_from};

use crate::addresses::machine_addr;
use crate::error::ElfError;
use crate::sections::section_at;
use crate::validate::Rules;
use ebpf::{MM_PROGRAM_START, MM_STACK_START};
use elf_parser::types::Elf64Shdr;
use elf_parser::{Elf64, Place, past};

#[derive(Clone, Copy, PartialEq, Eq, Debug)]
pub enum Placing {
    // They stay in the image: the offset of their address from the program's start, and their place.
    Borrowed {
        offset: u64,
        start: u64,
        length: u64,
    },
    // They are copied: the same offset, the lowest address copied from, and how many bytes it takes.
    Owned {
        offset: u64,
        lowest: u64,
        length: u64,
    },
}

// What is known of the read-only sections so far: their lowest address and highest end, how many
// bytes they have in all, whether an offset is invalid, the constant by which addresses are past file
// offsets, once there is one, and the first, the last and the number of the sections.
// Kept: `first` as a number, which counts where `many` is not 0. `can_borrow` subtracts it; an Option would need a number
// there for the case that there is none.
#[derive(Clone, Copy, PartialEq, Eq, Debug)]
pub struct Extent {
    pub lowest: u64,
    pub highest: u64,
    pub filled: u64,
    pub invalid: bool,
    pub shift: Option<u64>,
    pub first: u64,
    pub last: u64,
    pub many: u64,
}

// Kept: by `==`. A `match` on the four names was tried, and the proof didn't close: it has a way out for each byte of
// each name, and the check found none of them.
#[tactic(auto, using(elf_parser::specs::SectionNames::same_tested), unfolding(crate::specs::ReadOnly::read_only))]
fn is_read_only(name: &[u8]) -> bool
    ensures { result ≡ read_only name.now }
{
    let text = name == b".text".as_slice();
    let rodata = name == b".rodata".as_slice();
    let rel = name == b".data.rel.ro".as_slice();
    let frame = name == b".eh_frame".as_slice();
    (text | rodata) | (rel | frame)
}

impl Extent {
    // Whether a section gives the constant.
    #[tactic(auto, using(ebpf::specs::Choice::choices), unfolding(crate::specs::ReadOnly::gives))]
    fn gives_shift(self, version2: bool, h: Elf64Shdr) -> bool
        ensures { result ≡ gives version2 h.sh_addr h.sh_offset self }
    {
        (version2 & (h.sh_offset <= h.sh_addr)) & (!self.invalid & self.shift.is_none())
    }

    // Whether an offset is invalid, with this section's.
    #[tactic(auto, using(ebpf::specs::Choice::choices), unfolding(crate::specs::ReadOnly::invalid_by))]
    fn is_invalid(self, version2: bool, h: Elf64Shdr) -> bool
        ensures { result ≡ invalid_by version2 h.sh_addr h.sh_offset self }
    {
        if self.invalid {
            return true;
        }
        if !version2 {
            return h.sh_addr != h.sh_offset;
        }
        if h.sh_addr < h.sh_offset {
            return true;
        }
        self.shift
            .is_some_and(|shift| shift != h.sh_addr - h.sh_offset)
    }

    // With one section more, of `n` bytes in the file.
    #[tactic(auto, using(ebpf::specs::Choice::choices), unfolding(crate::specs::ReadOnly::grown))]
    fn grow(self, version2: bool, index: u64, h: Elf64Shdr, n: u64) -> Extent
        ensures { result ≡ grown version2 index h.sh_addr h.sh_offset n self }
    {
        let gives = self.gives_shift(version2, h);
        Extent {
            lowest: self.lowest.min(h.sh_addr),
            highest: self.highest.max(h.sh_addr.saturating_add(n)),
            filled: self.filled.saturating_add(n),
            invalid: self.is_invalid(version2, h),
            shift: if gives {
                Some(h.sh_addr.saturating_sub(h.sh_offset))
            } else {
                self.shift
            },
            first: if self.many == 0 { index } else { self.first },
            last: index,
            many: self.many.saturating_add(1),
        }
    }

    #[tactic(auto, using(ebpf::specs::Choice::choices), unfolding(crate::specs::ReadOnly::taken))]
    fn take_section(
        self,
        rules: Rules,
        index: u64,
        h: Elf64Shdr,
        n: u64,
    ) -> Result<Extent, ElfError>
        ensures { result ≡ taken rules.version2 rules.config.reject_broken_elfs index h n self }
    {
        let version2 = rules.version2;
        let reject_broken = rules.config.reject_broken_elfs;
        let invalid = self.is_invalid(version2, h);
        let end = end_of(version2, h);
        if reject_broken & invalid {
            return Err(ElfError::ValueOutOfBounds);
        }
        if MM_STACK_START < end {
            return Err(ElfError::ValueOutOfBounds);
        }
        Ok(self.grow(version2, index, h, n))
    }

    #[tactic(auto, using(ebpf::specs::Choice::choices), unfolding(crate::specs::ReadOnly::can_borrow))]
    fn can_borrow(self) -> bool
        ensures { result ≡ can_borrow self }
    {
        let end = self.last.saturating_add(1);
        !self.invalid & (end.saturating_sub(self.first) == self.many)
    }

    #[tactic(auto, using(ebpf::specs::Choice::choices), unfolding(crate::specs::ReadOnly::borrowed))]
    fn borrow_sections(self, version2: bool) -> Result<Placing, ElfError>
        ensures { result ≡ borrowed version2 self }
    {
        let shift = self.shift.unwrap_or(0);
        let start = self.lowest.saturating_sub(shift);
        let end = self.highest.saturating_sub(shift);
        if version2 & (self.lowest < MM_PROGRAM_START) {
            return Err(ElfError::ValueOutOfBounds);
        }
        Ok(Placing::Borrowed {
            offset: from_start(self.lowest),
            start,
            length: end.saturating_sub(start),
        })
    }

    #[tactic(auto, using(ebpf::specs::Choice::choices), unfolding(crate::specs::ReadOnly::owned))]
    fn own_sections(self, len: u64, optimize: bool) -> Result<Placing, ElfError>
        ensures { result ≡ owned len optimize self }
    {
        let lowest = if optimize { self.lowest } else { 0 };
        let length = self.highest.saturating_sub(lowest);
        if len < length {
            return Err(ElfError::ValueOutOfBounds);
        }
        Ok(Placing::Owned {
            offset: from_start(lowest),
            lowest,
            length,
        })
    }

    #[tactic(auto, using(ebpf::specs::Choice::choices), unfolding(crate::specs::ReadOnly::placed))]
    fn place_extent(self, rules: Rules, len: u64) -> Result<Placing, ElfError>
        ensures { result ≡ placed len rules.version2 rules.config.reject_broken_elfs rules.config.optimize_rodata self }
    {
        let version2 = rules.version2;
        let reject_broken = rules.config.reject_broken_elfs;
        let optimize = rules.config.optimize_rodata;
        let borrows = self.can_borrow();
        let end = self.lowest.saturating_add(self.filled);
        if reject_broken & (self.highest < end) {
            return Err(ElfError::ValueOutOfBounds);
        }
        if version2 & !borrows {
            return Err(ElfError::ValueOutOfBounds);
        }
        if optimize & borrows {
            return self.borrow_sections(version2);
        }
        self.own_sections(len, optimize)
    }
}

// Where a section ends in the machine; in version 1 its start counts.
#[tactic(auto, using(ebpf::specs::Choice::choices), unfolding(crate::specs::ReadOnly::end_of))]
fn end_of(version2: bool, h: Elf64Shdr) -> u64
    ensures { result ≡ end_of version2 h.sh_addr h.sh_size }
{
    let start = machine_addr(version2, h.sh_addr);
    if version2 {
        return start.saturating_add(h.sh_size);
    }
    start
}

// Before the first section.
pub(crate) fn no_extent() -> Extent
    ensures { result ≡ nothing }
{
    Extent {
        lowest: 0xffff_ffff_ffff_ffff,
        highest: 0,
        filled: 0,
        invalid: false,
        shift: None,
        first: 0,
        last: 0,
        many: 0,
    }
}

// With one section more, of that header and name, read-only or not. A refusal stays.
#[tactic(auto, using(ebpf::specs::Choice::choices))]
pub(crate) fn gather_next(
    elf: &Elf64<'_>,
    rules: Rules,
    index: u32,
    h: Elf64Shdr,
    name: &[u8],
    g: Result<Extent, ElfError>,
) -> Result<Extent, ElfError>
    ensures { result ≡ gather_next elf.now.file.now elf.now.layout rules.version2 rules.config.reject_broken_elfs index h name.now g }
{
    let x = g?;
    if !is_read_only(name) {
        return Ok(x);
    }
    let outside = |_| ElfError::ValueOutOfBounds;
    let place = elf.file_range(index).map_err(outside)?;
    x.take_section(rules, index as u64, h, place.length as u64)
}

// An address as an offset from the program's start.
#[tactic(auto, using(ebpf::specs::Choice::choices), unfolding(crate::specs::ReadOnly::from_start))]
fn from_start(addr: u64) -> u64
    ensures { result ≡ from_start addr }
{
    if MM_PROGRAM_START <= addr {
        return addr - MM_PROGRAM_START;
    }
    addr
}

// It asks for no byte of the sections, only for what was gathered of their headers and names.
pub(crate) fn place_gathered(
    rules: Rules,
    len: u64,
    g: Result<Extent, ElfError>,
) -> Result<Placing, ElfError>
    ensures { result ≡ placing_by len rules.version2 rules.config.reject_broken_elfs rules.config.optimize_rodata g }
{
    g?.place_extent(rules, len)
}

// The bytes of `from` from `start` on, `n` of them, go to `at`.
// Kept: byte by byte. By `copy_from_slice` the C interface would need `memmove` from where it is linked.
#[tactic(auto, using(crate::proofs::Copies::paste_start))]
pub(crate) fn copy_bytes(to: &mut [u8], from: &[u8], at: usize, start: usize, n: usize)
    requires { (at + n ≤ length to.old) × (start + n ≤ length from.now) }
    ensures { to.new ≡ paste to.old at (drop start from.now) n }
{
    for i in 0..n {
        to[at + i] = from[start + i];
    }
}

// The same of the bytes at a place, where both lie inside; else nothing changes.
#[tactic(auto, using(ebpf::specs::Choice::choices), unfolding(crate::specs::ReadOnly::copied_to))]
fn copy_inside(ro: &mut [u8], image: &[u8], at: u64, place: Place)
    ensures { ro.new ≡ copied_to ro.old image.now at place.start place.length }
{
    let n = place.length;
    if past(image.len() as u64, place.start as u64, n as u64) {
        return;
    }
    if past(ro.len() as u64, at, n as u64) {
        return;
    }
    copy_bytes(ro, image, at as usize, place.start, n);
}

// One section, read-only or not.
// Kept: buffer, image and file beside each other, here, in `copy_sections` and in `copy_placed`. The buffer is lent for
// writing: a struct of the three would need a clause at each that it still holds the buffer that was lent.
#[tactic(auto, using(ebpf::specs::Choice::choices), unfolding(crate::specs::ReadOnly::copy_step))]
fn copy_section(ro: &mut [u8], image: &[u8], elf: &Elf64<'_>, lowest: u64, index: u32)
    ensures { ro.new ≡ copy_step image.now elf.now.file.now elf.now.layout lowest index ro.old }
{
    let h = section_at(elf, index);
    if !is_read_only(elf.section_name_part(h.sh_name)) {
        return;
    }
    let at = h.sh_addr.saturating_sub(lowest);
    if let Ok(place) = elf.file_range(index) {
        copy_inside(ro, image, at, place);
    }
}

// The read-only sections' bytes in the image, one section after another, so that a later one
// overwrites.
#[tactic(auto, using(crate::specs::ReadOnly::copied_next, crate::specs::ReadOnly::copied_end))]
pub(crate) fn copy_sections(ro: &mut [u8], image: &[u8], elf: &Elf64<'_>, count: u32, lowest: u64)
    ensures { ro.new ≡ copied_from image.now elf.now.file.now elf.now.layout lowest count 0 ro.old }
{
    for i in 0..count {
        copy_section(ro, image, elf, lowest, i);
    }
}
