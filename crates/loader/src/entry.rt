// The entry: in version 1 the row under the key of the name entrypoint goes first.
ghost use Rattle.std.specs.Prelude.{◌≡◌, ◌+◌, ◌-◌, ◌≤◌, ◌<◌, ◌^◌};
ghost use Rattle.loader.specs.Entry.{entry_deed, entry_trace};
ghost use Rattle.loader.specs.InnerContracts.{Begins, Forgets, Keeps, SettlesTo};

use crate::deeds::{Deed, Outputs};
use crate::error::ElfError;
use crate::functions::row_for;
use crate::inputs::Inputs;
use crate::labels::label_row;
use program::{ENTRYPOINT_KEY, FunctionName};

// What a load does about the entry.
#[tactic(auto, using(ebpf::specs::Choice::choices), unfolding(crate::specs::Entry::entry_deed))]
fn entry_deed(inputs: &Inputs<'_>) -> Result<Deed, ElfError>
    ensures { result ≡ entry_deed inputs.now.builtins.now inputs.now.job }
{
    let offset = inputs.job.e_entry.saturating_sub(inputs.job.sh_addr);
    if offset % 8 != 0 {
        return Err(ElfError::InvalidEntrypoint);
    }
    let index = (offset / 8) as u32;
    label_row(row_for(inputs, FunctionName::Entrypoint, index))
}

// The row under the key of the name entrypoint goes.
fn forget_entrypoint(out: &mut Outputs<'_, '_>)
    requires { Begins 1 out.old }
    ensures keeps { Keeps out.old out.new }
    ensures image { out.new.image.now ≡ out.old.image.now }
    ensures forgets { Forgets out.old out.new }
{
    let gone = out.registry.unregister_function(ENTRYPOINT_KEY);
    out.moves += gone.unwrap_or(0) as u64;
}

// The entry is registered, in version 1 behind the removal.
pub(crate) fn register_entry(out: &mut Outputs<'_, '_>, inputs: &Inputs<'_>) -> Result<(), ElfError>
    requires { Begins 2 out.old }
    ensures keeps { Keeps out.old out.new }
    ensures settles { SettlesTo (entry_trace inputs.now.builtins.now inputs.now.job out.old.image.now) 2 out.old out.new result }
{
    let deed = entry_deed(inputs)?;
    if !inputs.job.version2 {
        forget_entrypoint(out);
    }
    out.perform(deed)
}
