// The lent slices cleared, and the parts of a load one after another.
ghost use Rattle.std.specs.Prelude.{◌≡◌, length, replicate};
ghost use Rattle.program.specs.Table.{SameColumns, SameLens, columns_of};
ghost use Rattle.loader.specs.Parts.{job_trace};
ghost use Rattle.loader.specs.Load.{all_count, placed_bytes, Clears, FillAsks, Fills};
ghost use Rattle.loader.specs.Loads.{OnUsed};
ghost use Rattle.loader.specs.InnerContracts.{Starts, FirstAsks, Keeps, SettlesTo};
ghost use Rattle.loader.specs.InFile.{InFile};

use crate::answer::{Accepted, answer_of};
use crate::deeds::Outputs;
use crate::error::ElfError;
use crate::inputs::Inputs;
use crate::parts::{calls_and_relocations, labels_and_entry};
use crate::read_only::{Placing, copy_sections};
use crate::validate::Job;
use ebpf::key_table;
use elf_parser::{Elf64, file_header};
use program::FunctionRegistry;

// Every number zero.
pub fn clear_words(s: &mut [u32])
    ensures { s.new ≡ replicate (length s.old) 0 }
{
    s.fill(0);
}

// Every lent byte and number zero, and no row used.
// Kept: five calls for the five columns, which are fields; a loop would go over an array made of them for it.
pub(crate) fn clear_all(image: &mut [u8], ro: &mut [u8], registry: &mut FunctionRegistry<'_>)
    ensures same { SameColumns registry.old registry.new }
    ensures clears { Clears image ro (columns_of registry.old) (columns_of registry.new) }
    ensures used { registry.new.used ≡ 0 }
{
    image.fill(0);
    ro.fill(0);
    clear_words(registry.keys);
    clear_words(registry.indices);
    clear_words(registry.kinds);
    clear_words(registry.starts);
    clear_words(registry.lengths);
    registry.used = 0;
}

// All parts of a load. The placing of the read-only sections refuses after everything else.
fn all_parts(out: &mut Outputs<'_, '_>, inputs: &Inputs<'_>) -> Result<(), ElfError>
    requires { FirstAsks (all_count inputs.now.file.now inputs.now.job) inputs.now out.old }
    ensures keeps { Keeps out.old out.new }
    ensures settles { SettlesTo (job_trace inputs.now.file.now inputs.now.builtins.now inputs.now.job inputs.now.file.now) (all_count inputs.now.file.now inputs.now.job) out.old out.new result }
{
    calls_and_relocations(out, inputs)?;
    labels_and_entry(out, inputs)?;
    let placing = inputs.job.placing;
    placing?;
    Ok(())
}

// The same, with the table of keys made here. Only version 1 asks for it: in version 2 an index is its
// own key.
// Kept: file, built-ins and job beside each other here and in `fill_all` alone. They are `Inputs` but for the table
// of keys, which is made here, since version 2 asks for none; a struct of the three would be one more for two functions.
#[tactic(auto, using(crate::proofs::Rowing::none_keyed, crate::proofs::Rowing::first_keyed))]
fn keyed_parts(
    out: &mut Outputs<'_, '_>,
    file: &[u8],
    builtins: &[u32],
    job: Job,
) -> Result<(), ElfError>
    requires { InFile file.now job × (length out.old.image.now ≡ length file.now) × Starts (all_count file.now job) out.old }
    ensures keeps { Keeps out.old out.new }
    ensures settles { SettlesTo (job_trace file.now builtins.now job file.now) (all_count file.now job) out.old out.new result }
{
    if job.version2 {
        let none = [0u32; 0];
        return all_parts(
            out,
            &Inputs {
                file,
                builtins,
                table: &none,
                job,
            },
        );
    }
    let table = key_table();
    all_parts(
        out,
        &Inputs {
            file,
            builtins,
            table: &table,
            job,
        },
    )
}

// The read-only sections' bytes, where they are copied.
fn copy_placed(ro: &mut [u8], image: &[u8], elf: &Elf64<'_>, placing: Result<Placing, ElfError>)
    ensures { ro.new ≡ placed_bytes elf.now.file.now elf.now.layout placing image.now ro.old }
{
    if let Ok(Placing::Owned { lowest, .. }) = placing {
        let h = file_header(elf.file);
        let count = h.e_shnum as u32;
        copy_sections(ro, image, elf, count, lowest);
    }
}

// The image, the read-only bytes and the table of a file that passed the checks, and the answer.
pub(crate) fn fill_all(
    image: &mut [u8],
    ro: &mut [u8],
    registry: &mut FunctionRegistry<'_>,
    file: &[u8],
    builtins: &[u32],
    job: Job,
) -> Result<Accepted, ElfError>
    requires asks { FillAsks file job image (columns_of registry.old) }
    requires empty { registry.old.used ≡ 0 }
    ensures same { SameColumns registry.old registry.new }
    ensures lens { SameLens (columns_of registry.old) (columns_of registry.new) }
    ensures fills { Fills file builtins.now job image ro (columns_of registry.old) (columns_of registry.new) result }
    ensures used { OnUsed result (λ used. registry.new.used ≡ used) }
{
    let mut out = Outputs {
        image,
        registry,
        moves: 0,
    };
    keyed_parts(&mut out, file, builtins, job)?;
    let elf = Elf64 {
        file,
        layout: job.layout,
    };
    copy_placed(ro, out.image(), &elf, job.placing);
    answer_of(&out, job)
}
