// The parts of a load, joined two by two, as `writing_trace` and `naming_trace` join what they do.
// Kept: both are two calls; a function that takes the two calls would take two closures over outputs lent for
// writing, and be no plainer.
ghost use Rattle.loader.specs.Parts.{writing_trace, naming_trace};
ghost use Rattle.loader.specs.InnerContracts.{FirstAsks, PartAsks, Keeps, SettlesTo};
ghost use Rattle.loader.specs.Load.{writing_count, naming_count};

use crate::calls::register_calls;
use crate::deeds::Outputs;
use crate::entry::register_entry;
use crate::error::ElfError;
use crate::inputs::Inputs;
use crate::labelling::register_labels;
use crate::relocating::apply_relocations;

// Calls, then relocations.
pub(crate) fn calls_and_relocations(
    out: &mut Outputs<'_, '_>,
    inputs: &Inputs<'_>,
) -> Result<(), ElfError>
    requires { FirstAsks (writing_count inputs.now.job) inputs.now out.old }
    ensures keeps { Keeps out.old out.new }
    ensures settles { SettlesTo (writing_trace inputs.now.file.now inputs.now.builtins.now inputs.now.job inputs.now.file.now) (writing_count inputs.now.job) out.old out.new result }
{
    register_calls(out, inputs)?;
    apply_relocations(out, inputs)
}

// Labels, then the entry.
pub(crate) fn labels_and_entry(
    out: &mut Outputs<'_, '_>,
    inputs: &Inputs<'_>,
) -> Result<(), ElfError>
    requires { PartAsks (naming_count inputs.now.file.now inputs.now.job) inputs.now out.old }
    ensures keeps { Keeps out.old out.new }
    ensures settles { SettlesTo (naming_trace inputs.now.file.now inputs.now.builtins.now inputs.now.job out.old.image.now) (naming_count inputs.now.file.now inputs.now.job) out.old out.new result }
{
    register_labels(out, inputs)?;
    register_entry(out, inputs)
}
