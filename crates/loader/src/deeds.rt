// What a part of a load does: write some bytes of the image, or register a function. The functions that
// decide on relocations, labels and the entry give a `Deed` or refuse; this module carries it out.
ghost use Rattle.std.specs.Prelude.{Ok, ◌≡◌, ◌+◌, ◌/◌, ◌%◌, ◌≤◌, ◌<◌, ◌^◌, length};
ghost use Rattle.program.specs.Table.{capacity, columns_of};
ghost use Rattle.program.specs.Runs.{moves_of};
ghost use Rattle.loader.specs.Bytes.{put};
ghost use Rattle.loader.specs.Deeds.{DeedFits, written, deed_trace};
ghost use Rattle.loader.specs.CallLoop.{AlikeIn, StillAlike};
ghost use Rattle.loader.specs.InnerContracts.{entered_as, moved_by, Begins, Keeps, Enters, SettlesTo};

use crate::error::ElfError;
use program::{FunctionRegistry, RegisterError, Registered, Row};

#[derive(Clone, Copy, PartialEq, Eq, Debug)]
pub enum Deed {
    Skip,
    // The halves of a number, four bytes each.
    Halves { low: usize, high: usize, value: u64 },
    // A number of eight bytes.
    Word { at: usize, value: u64 },
    // A key, four bytes.
    Key { at: usize, key: u32 },
    // A function is registered, and its key written.
    Register { row: Row, at: usize },
    // A function is registered, and nothing written.
    RegisterOnly { row: Row },
    // A function is registered, and then the place of its key is found outside the file.
    RegisterOutside { row: Row },
}

// What a load fills: the image, the table, and the moves up to here.
// Kept: beside `Inputs`, though ten functions take both. Nine take `Outputs` alone, of which six write, and twelve
// `Inputs` alone. A struct of the two would be lent for writing as a whole, and each that writes would have to promise
// besides that file, keys and job are what they were, which no clause need say now.
#[derive(Drop)]
pub struct Outputs<'o, 't> {
    pub image: &'o mut [u8],
    pub registry: &'o mut FunctionRegistry<'t>,
    pub moves: u64,
}

// Four bytes, the lowest first.
#[tactic(auto, using(crate::proofs::Stored::stored))]
pub(crate) fn store_u32(image: &mut [u8], at: usize, v: u32)
    requires { at + 4 ≤ length image.old }
    ensures { image.new ≡ put 4 image.old at v }
{
    image[at..at + 4].copy_from_slice(&v.to_le_bytes());
}

// Two halves of a number.
fn store_halves(image: &mut [u8], low: usize, high: usize, v: u64)
    requires { (low + 4 ≤ length image.old) × (high + 4 ≤ length image.old) }
    ensures { image.new ≡ put 4 (put 4 image.old low (v % 2 ^ 32)) high (v / 2 ^ 32) }
{
    store_u32(image, low, (v & 0xffff_ffff) as u32);
    store_u32(image, high, (v >> 32) as u32);
}

// The bytes that a deed writes.
fn write(image: &mut [u8], deed: Deed)
    requires { DeedFits (length image.old) (Ok deed) }
    ensures { image.new ≡ written (Ok deed) image.old }
{
    match deed {
        Deed::Skip | Deed::RegisterOnly { .. } | Deed::RegisterOutside { .. } => {}
        Deed::Halves { low, high, value } => store_halves(image, low, high, value),
        Deed::Word { at, value } => store_halves(image, at, at + 4, value),
        Deed::Key { at, key } => store_u32(image, at, key),
        Deed::Register { row, at } => store_u32(image, at, row.key),
    }
}

impl Outputs<'_, '_> {
    // The image as it stands.
    pub(crate) fn image(&self) -> &[u8]
        ensures { result.now ≡ self.now.image.now }
    {
        self.image
    }

    // Counts the moves of a registration that answered so, or refuses.
    fn entered(
        &mut self,
        answer: Result<Registered, RegisterError>,
        key: u32,
    ) -> Result<(), ElfError>
        requires { self.old.moves + moves_of answer < 2 ^ 64 }
        ensures moved { self.new ≡ moved_by (moves_of answer) self.old }
        ensures answers { result ≡ entered_as answer key (capacity (columns_of self.old.registry.now)) }
    {
        match answer {
            Ok(Registered::Inserted(n)) => {
                self.moves += n as u64;
                Ok(())
            }
            Ok(Registered::Repeat) => Ok(()),
            Err(RegisterError::Collision) => Err(ElfError::SymbolHashCollision { key }),
            Err(RegisterError::Full) => Err(ElfError::TableFull {
                rows: self.registry.as_table().rows_lent() as u64,
            }),
        }
    }

    // Registers one row.
    fn enter(&mut self, row: Row) -> Result<(), ElfError>
        requires { Begins 1 self.old }
        ensures keeps { Keeps self.old self.new }
        ensures image { self.new.image.now ≡ self.old.image.now }
        ensures enters { Enters row self.old self.new result }
    {
        let answer = self.registry.register_function(row);
        self.entered(answer, row.key)
    }

    // Registers one row, of the name that every row used has.
    pub(crate) fn enter_alike(&mut self, row: Row) -> Result<(), ElfError>
        requires { Begins 1 self.old × AlikeIn self.old row }
        ensures keeps { Keeps self.old self.new }
        ensures image { self.new.image.now ≡ self.old.image.now }
        ensures enters { Enters row self.old self.new result }
        ensures alike { StillAlike row self.new result }
    {
        let answer = self.registry.register_alike(row);
        self.entered(answer, row.key)
    }

    // Carries a deed out. A key outside the file refuses, behind whatever the registration answers. Inlined, since a
    // deed would go through memory otherwise, for each relocation.
    #[inline(always)]
    pub(crate) fn perform(&mut self, deed: Deed) -> Result<(), ElfError>
        requires { DeedFits (length self.old.image.now) (Ok deed) × Begins 1 self.old }
        ensures keeps { Keeps self.old self.new }
        ensures settles { SettlesTo (deed_trace (Ok deed) self.old.image.now) 1 self.old self.new result }
    {
        write(self.image, deed);
        match deed {
            Deed::Skip | Deed::Halves { .. } | Deed::Word { .. } | Deed::Key { .. } => Ok(()),
            Deed::Register { row, .. } | Deed::RegisterOnly { row } => self.enter(row),
            Deed::RegisterOutside { row } => {
                self.enter(row)?;
                Err(ElfError::ValueOutOfBounds)
            }
        }
    }
}
