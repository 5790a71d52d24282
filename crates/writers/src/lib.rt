#![tactic(auto)]
// Who wrote a byte of an accepted load's image: the file, the call in a slot, or a relocation, whichever
// wrote it last. Asked with a load, or about a load already made, by its answer and the file.
ghost use Rattle.std.specs.Prelude.{◌≡◌, ◌<◌, ◌^◌};
ghost use Rattle.program.specs.Table.{SameColumns, SameLens, columns_of};
ghost use Rattle.loader.specs.Loads.{used_of};
ghost use Rattle.writers.specs.Asked.{asked_by, asked};
ghost use Rattle.writers.specs.Whole.{code_of, OnlyZeros, FillsBy, Fills};
ghost use Rattle.writers.specs.Loads.{LoadsAndTells};

use elf_parser::Elf64;
use loader::{Accepted, BuiltinProgram, ElfError, LoadAnd, clear_words, load};
use naming::last_naming;
use program::FunctionRegistry;
use text::{Text, layout_of};
use whole::mark_all;

mod calls;
mod error;
mod naming;
mod text;
mod whole;

pub use error::WhoWroteError;
pub use text::LoadedText;

// The relocations are numbered from 0 as they are applied, through both tables.
#[derive(Clone, Copy, PartialEq, Eq, Debug)]
pub enum Writer {
    File,
    Call(u32),
    Relocation(u32),
}

impl Writer {
    // Its number, among those of all bytes.
    pub(crate) fn code(self) -> u32
        requires { code_of self < 2 ^ 32 }
        ensures { result ≡ code_of self }
    {
        match self {
            Writer::File => 0,
            Writer::Call(i) => i + 1,
            Writer::Relocation(k) => 0x8000_0000 + k,
        }
    }
}

// WHO WROTE A BYTE of the image that a load of this file made, by what that load's answer says of the
// text. An offset at or past the file's end is `NoSuchIndex`, apart from every refusal.
#[tactic(auto, using(ebpf::specs::Choice::choices, crate::proofs::Telling::askable))]
pub fn who_wrote_by(file: &[u8], loaded: LoadedText, offset: u64) -> Result<Writer, WhoWroteError>
    ensures { result ≡ asked_by file.now loaded offset }
{
    let layout = layout_of(file, loaded)?;
    if file.len() as u64 <= offset {
        return Err(WhoWroteError::NoSuchIndex);
    }
    let elf = Elf64 { file, layout };
    Ok(last_naming(&Text { elf, loaded }, offset))
}

// The same by the whole answer, which may be a refusal. Nothing is lent but the file.
pub fn who_wrote(
    file: &[u8],
    answer: Result<Accepted, ElfError>,
    offset: u64,
) -> Result<Writer, WhoWroteError>
    ensures { result ≡ asked file.now answer offset }
{
    who_wrote_by(file, LoadedText::from(answer?), offset)
}

// A load, and who wrote a byte of its image.
#[tactic(auto, using(crate::proofs::Agreeing::agrees, crate::proofs::Agreeing::kept))]
pub fn load_who_wrote(
    file: &[u8],
    loader: BuiltinProgram<'_>,
    image: &mut [u8],
    ro_section: &mut [u8],
    registry: &mut FunctionRegistry<'_>,
    offset: u64,
) -> LoadAnd<Result<Writer, WhoWroteError>>
    ensures same { SameColumns registry.old registry.new }
    ensures lens { SameLens (columns_of registry.old) (columns_of registry.new) }
    ensures tells { LoadsAndTells file loader.entry.functions.now loader.entry.config image ro_section (columns_of registry.old) (columns_of registry.new) offset result }
    ensures used { registry.new.used ≡ used_of result.load }
{
    let answer = load(file, loader, image, ro_section, registry);
    LoadAnd {
        load: answer,
        asked: who_wrote(file, answer, offset),
    }
}

// In numbers that are zero.
#[tactic(auto, using(ebpf::specs::Choice::choices, crate::proofs::Telling::askable, std::proofs::lemmas::Result::err_from_is_err_and, crate::proofs::Marking::only_zero, crate::proofs::Marking::zeros_front))]
fn fill_by(numbers: &mut [u32], file: &[u8], loaded: LoadedText) -> Result<(), ElfError>
    requires { OnlyZeros numbers.old }
    ensures { FillsBy file loaded numbers result }
{
    let layout = layout_of(file, loaded)?;
    if numbers.len() < file.len() {
        return Err(ElfError::BufferShort);
    }
    let elf = Elf64 { file, layout };
    mark_all(&mut numbers[..file.len()], &Text { elf, loaded });
    Ok(())
}

// WHO WROTE EACH BYTE: one number a byte of the file, 0 for the file, i + 1 for the call in slot i, and
// 2^31 + j for relocation j; zeros behind them. One pass over the calls and one over the relocations.
// A refusal leaves only zeros.
#[tactic(auto, using(crate::proofs::Telling::cleared, crate::proofs::Telling::as_long))]
pub fn who_wrote_all_by(
    numbers: &mut [u32],
    file: &[u8],
    loaded: LoadedText,
) -> Result<(), ElfError>
    ensures { FillsBy file loaded numbers result }
{
    clear_words(numbers);
    fill_by(numbers, file, loaded)
}

// The same by the whole answer.
#[tactic(auto, using(crate::proofs::Telling::cleared, crate::proofs::Telling::as_long, crate::proofs::Marking::only_zero))]
pub fn who_wrote_all(
    numbers: &mut [u32],
    file: &[u8],
    answer: Result<Accepted, ElfError>,
) -> Result<(), ElfError>
    ensures { Fills file answer numbers result }
{
    match answer {
        Err(r) => {
            clear_words(numbers);
            Err(r)
        }
        Ok(a) => who_wrote_all_by(numbers, file, LoadedText::from(a)),
    }
}
