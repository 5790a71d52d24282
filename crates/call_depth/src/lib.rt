#![tactic(auto)]
// How deep a loaded profile calls: the longest chain of calls from the entry, counted in functions. Asked
// with a load, or about a load already made, by its answer, its image and its table.
ghost use Rattle.std.specs.Prelude.{◌≡◌, ◌<◌, length, get_or};
ghost use Rattle.program.specs.Table.{SameColumns, SameLens, capacity, columns_in, columns_of};
ghost use Rattle.loader.specs.Loads.{used_of};
ghost use Rattle.call_graph.specs.Profile.{CallsFunction, Answers};
ghost use Rattle.call_graph.specs.Answer.{depth_of};
ghost use Rattle.call_depth.specs.Called.{profile_of, WorkLent};
ghost use Rattle.call_depth.specs.Asked.{limit_of, limited, depth_in, fits_in, depth_by, depth_asked};
ghost use Rattle.call_depth.specs.Meaning.{MeansUnlessRefused, MeansAsked};
ghost use Rattle.call_depth.specs.Loads.{LoadsAndMeasures};

use call_graph::Recursive;
use elf_parser::past;
use loader::{Accepted, BuiltinProgram, ElfError, LoadAnd, MAX_FILE_LENGTH, load};
use profile::Profile;
use program::{FunctionRegistry, FunctionTable};
use slots::FLAG;

mod error;
mod marking;
mod profile;
mod recursion;
mod settling;
mod slots;

pub use error::CallDepthError;

impl Profile<'_> {
    // From the function of row `entry`.
    fn depth_from(self, work: &mut [u32], entry: usize) -> Result<u32, Recursive>
        requires { WorkLent self.text.now self.indices.now work.old × (entry < length self.indices.now) }
        ensures is { result ≡ depth_of (profile_of self) (get_or self.entry.indices.now entry 0) }
        ensures means { Answers (profile_of self) (get_or self.entry.indices.now entry 0) result }
    {
        self.settle(work, entry);
        let word = work[entry];
        if word < FLAG {
            return Ok(word);
        }
        Err(Recursive {
            index: self.recursive(work, entry),
        })
    }

    // From the function at the index `entry`.
    fn depth_in(self, work: &mut [u32], entry: u32, limit: u32) -> Result<u32, CallDepthError>
        requires { WorkLent self.text.now self.indices.now work.old }
        ensures is { result ≡ depth_in self.entry.text.now self.entry.keys.now self.entry.indices.now self.entry.version2 entry limit }
        ensures means { MeansUnlessRefused (CallsFunction (profile_of self)) entry (limit_of limit) result }
    {
        let Some(row) = self.indices.iter().position(|index| *index == entry) else {
            return Err(CallDepthError::Refused(ElfError::ValueOutOfBounds));
        };
        limited(limit_of(limit), self.depth_from(work, row))
    }
}

#[tactic(auto, using(ebpf::specs::Choice::choices), unfolding(crate::specs::Asked::limit_of))]
fn limit_of(limit: u32) -> u32
    ensures { result ≡ limit_of limit }
{
    if (limit == 0) | (64 < limit) {
        return 64;
    }
    limit
}

#[tactic(auto, using(ebpf::specs::Choice::choices))]
fn limited(limit: u32, depth: Result<u32, Recursive>) -> Result<u32, CallDepthError>
    ensures { result ≡ limited limit depth }
{
    let chain = depth?;
    if limit < chain {
        return Err(CallDepthError::TooDeep(chain));
    }
    Ok(chain)
}

#[tactic(auto, unfolding(crate::specs::Asked::fits_in))]
fn fits_in(rows: usize, len: usize, a: Accepted) -> bool
    ensures { result ≡ fits_in rows len a.used a.text.start a.text.length }
{
    let outside = past(len as u64, a.text.start as u64, a.text.length as u64);
    ((a.used <= rows) & (a.used < 0x4000_0000))
        & ((a.text.length as u64 <= MAX_FILE_LENGTH) & !outside)
}

// By an accepted load's answer.
#[tactic(auto, using(ebpf::specs::Choice::choices, crate::proofs::Fits::fits, crate::proofs::Fits::used_long, crate::proofs::Fits::lent_parts), unfolding(crate::specs::Asked::depth_by))]
fn depth_by(
    work: &mut [u32],
    image: &[u8],
    table: FunctionTable,
    a: Accepted,
    limit: u32,
) -> Result<u32, CallDepthError>
    ensures is { result ≡ depth_by (length work.old) (capacity (columns_in table.entry)) image.now table.entry.keys.now table.entry.indices.now a limit }
    ensures means { MeansAsked (Ok a) image.now (columns_in table.entry) limit result }
{
    let rows = table.rows_lent();
    if work.len() < rows {
        return Err(CallDepthError::Refused(ElfError::BufferShort));
    }
    if !fits_in(rows, image.len(), a) {
        return Err(CallDepthError::Refused(ElfError::ValueOutOfBounds));
    }
    let used = a.used;
    let profile = Profile {
        text: &image[a.text.start..a.text.start + a.text.length],
        keys: &table.keys[..used],
        indices: &table.indices[..used],
        version2: a.version == 2,
    };
    profile.depth_in(&mut work[..used], a.entry, limit)
}

// HOW DEEP THE PROFILE CALLS that a load answered for: by its answer, which may be a refusal, and by the
// image and the table that it left. `work` has a number for each row lent; what it holds afterwards is
// left free. The rows used are the answer's, not the table's. What the answer means is said of any image and table.
pub fn call_depth(
    work: &mut [u32],
    image: &[u8],
    table: FunctionTable,
    answer: Result<Accepted, ElfError>,
    limit: u32,
) -> Result<u32, CallDepthError>
    ensures is { result ≡ depth_asked (length work.old) (capacity (columns_in table.entry)) image.now table.entry.keys.now table.entry.indices.now answer limit }
    ensures means { MeansAsked answer image.now (columns_in table.entry) limit result }
{
    depth_by(work, image, table, answer?, limit)
}

// A load, and how deep the profile calls. The load's outputs stay as they are where the question is
// refused.
pub fn load_call_depth(
    file: &[u8],
    loader: BuiltinProgram<'_>,
    image: &mut [u8],
    ro_section: &mut [u8],
    registry: &mut FunctionRegistry<'_>,
    work: &mut [u32],
    limit: u32,
) -> LoadAnd<Result<u32, CallDepthError>>
    ensures same { SameColumns registry.old registry.new }
    ensures lens { SameLens (columns_of registry.old) (columns_of registry.new) }
    ensures measures { LoadsAndMeasures file loader.entry.functions.now loader.entry.config image ro_section (columns_of registry.old) (columns_of registry.new) work limit result }
    ensures used { registry.new.used ≡ used_of result.load }
{
    let answer = load(file, loader, image, ro_section, registry);
    LoadAnd {
        load: answer,
        asked: call_depth(work, image, registry.as_table(), answer, limit),
    }
}
