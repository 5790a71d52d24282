#![tactic(auto)]
// Loading a profile: the port of src/elf.rs.
ghost use Rattle.std.specs.Prelude.{◌≡◌};
ghost use Rattle.program.specs.Table.{SameColumns, SameLens, columns_of};
ghost use Rattle.loader.specs.Load.{Tries};
ghost use Rattle.loader.specs.Loads.{Loads, OnUsed, used_of};

use filling::{clear_all, fill_all};
use program::FunctionRegistry;
use validate::prepare;

mod addresses;
mod answer;
mod calls;
mod deeds;
mod entry;
mod error;
mod filling;
mod functions;
mod get_bytes;
mod inputs;
mod labelling;
mod labels;
mod overview;
mod parts;
mod read_only;
mod relocating;
mod relocations;
mod sections;
mod symbol_name;
mod validate;

pub use answer::{Accepted, LoadAnd};
pub use calls::{calls_key, is_local_call};
pub use error::ElfError;
pub use filling::clear_words;
pub use get_bytes::ReadOnly;
pub use relocations::{
    R_BPF_64_32, R_BPF_64_64, R_BPF_64_RELATIVE, Relocation, UsedHeader, is_within, r_place,
    relocation_at, used_header,
};
pub use validate::{BuiltinProgram, Config, MAX_FILE_LENGTH, MAX_PROGRAM_HEADERS};

// A load that leaves anything where it refuses. The image's front is not cleared, since the file is
// copied over it.
#[tactic(auto, using(crate::proofs::Loading::file_fits, crate::proofs::Loading::behind_fits, crate::proofs::Loading::behind_front))]
fn attempt(
    image: &mut [u8],
    ro_section: &mut [u8],
    registry: &mut FunctionRegistry<'_>,
    file: &[u8],
    loader: BuiltinProgram<'_>,
) -> Result<Accepted, ElfError>
    ensures same { SameColumns registry.old registry.new }
    ensures lens { SameLens (columns_of registry.old) (columns_of registry.new) }
    ensures tries { Tries file loader.entry.functions.now loader.entry.config image ro_section (columns_of registry.old) (columns_of registry.new) result }
    ensures used { OnUsed result (λ used. registry.new.used ≡ used) }
{
    let job = prepare(file, loader, image.len(), ro_section.len())?;
    let n = file.len();
    clear_all(&mut image[n..], ro_section, registry);
    fill_all(
        &mut image[..n],
        ro_section,
        registry,
        file,
        loader.functions,
        job,
    )
}

// A LOAD: the image, the read-only bytes and the table of a file, or a refusal and only zeros
// (`Loaded`, with demand 1); and demand 3, which follows from it. Whatever rows the registry used, it
// then uses those that the answer says, or none.
// Kept: image, buffer and registry each by itself. A caller holds them under these names and asks each for
// its part afterwards; a struct of three lent for writing would be made for the call and taken apart behind it. `same`
// and `lens` speak of the registry at the call and behind it, which no type of a registry can.
pub fn load(
    file: &[u8],
    loader: BuiltinProgram<'_>,
    image: &mut [u8],
    ro_section: &mut [u8],
    registry: &mut FunctionRegistry<'_>,
) -> Result<Accepted, ElfError>
    ensures same { SameColumns registry.old registry.new }
    ensures lens { SameLens (columns_of registry.old) (columns_of registry.new) }
    ensures loads { Loads file loader.entry.functions.now loader.entry.config image ro_section (columns_of registry.old) (columns_of registry.new) result }
    ensures used { registry.new.used ≡ used_of result }
{
    match attempt(image, ro_section, registry, file, loader) {
        Ok(a) => Ok(a),
        Err(r) => {
            clear_all(image, ro_section, registry);
            Err(r)
        }
    }
}
