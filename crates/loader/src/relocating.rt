// The relocations of a file, applied to the image one after another.
ghost use Rattle.loader.specs.Relocations.{relocations_trace, relocation_count};
ghost use Rattle.loader.specs.InnerContracts.{PartAsks, Keeps, SettlesTo};

use crate::deeds::Outputs;
use crate::error::ElfError;
use crate::inputs::Inputs;
use crate::relocations::{plan_relocation, relocation_at, used_header};

// Every relocation in turn, up to the first refusal. `header` is the program header used last.
#[tactic(auto, using(crate::proofs::Turns::none_before))]
pub(crate) fn apply_relocations(
    out: &mut Outputs<'_, '_>,
    inputs: &Inputs<'_>,
) -> Result<(), ElfError>
    requires { PartAsks (relocation_count inputs.now.job) inputs.now out.old }
    ensures keeps { Keeps out.old out.new }
    ensures settles { SettlesTo (relocations_trace inputs.now.file.now inputs.now.builtins.now inputs.now.job out.old.image.now) (relocation_count inputs.now.job) out.old out.new result }
{
    let elf = inputs.elf();
    let layout = inputs.job.layout;
    let version2 = inputs.job.version2;
    // Kept: `writers` counts both tables too. A function for the two crates is public, and may not ask that the sum fits,
    // which both know of their own layout.
    let count = (layout.dynamic_relocations.count + layout.dynamic_relas.count) as u32;
    let mut header = None;
    // Kept: `writers` goes through both tables in the same way, twice. What the turns share is two calls; an
    // iterator would be a struct of five fields that carries the header from turn to turn, more than it saves.
    for i in 0..count {
        let r = relocation_at(&elf, i);
        header = used_header(&elf, version2, header, r.r_offset);
        let deed = plan_relocation(inputs, out.image(), header, r)?;
        out.perform(deed)?;
    }
    Ok(())
}
