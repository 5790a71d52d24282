// The answer of a load.
ghost use Rattle.std.specs.Prelude.{◌≡◌, ◌-◌, ◌≤◌, ◌^◌};
ghost use Rattle.loader.specs.Load.{accepted_as, answer_by};

use crate::deeds::Outputs;
use crate::error::ElfError;
use crate::read_only::Placing;
use crate::validate::Job;
use elf_parser::Place;

// What an accepted load answers: the version, the entry's index, the rows used and the moves in all; whether the
// read-only bytes were copied to the buffer, their offset from the program's start, where they start in the image
// (0 where they were copied) and how many they are; the text's address, and its place in the file.
// Kept: the flag beside the start, and the version's number. Anyone may make an answer, and what takes one answers
// for every flag, start and number: an Option and a bool could say no start of copied bytes and no third version.
#[derive(Clone, Copy, PartialEq, Eq, Debug)]
pub struct Accepted {
    pub version: u32,
    pub entry: u32,
    pub used: usize,
    pub moves: u64,
    pub ro_copied: bool,
    pub ro_offset: u64,
    pub ro_start: u64,
    pub ro_length: u64,
    pub text_addr: u64,
    pub text: Place,
}

// The answer of a load, and that of a question which was asked with it.
#[derive(Clone, Copy, PartialEq, Eq, Debug)]
pub struct LoadAnd<T> {
    pub load: Result<Accepted, ElfError>,
    pub asked: T,
}

// The answer of an accepted load, with the place of the read-only bytes.
// Kept: the entry's index is worked out as in `entry_deed`, which tests first that its offset is whole; a method for
// one difference would be no plainer.
#[tactic(auto, using(ebpf::specs::Choice::choices))]
fn accepted_as(
    job: Job,
    copied: bool,
    offset: u64,
    start: u64,
    n: u64,
    out: &Outputs<'_, '_>,
) -> Accepted
    requires { job.e_entry - job.sh_addr ≤ 2 ^ 24 }
    ensures { result ≡ accepted_as job copied offset start n out.now.registry.now.used out.now.moves }
{
    let entry = job.e_entry.saturating_sub(job.sh_addr) / 8;
    Accepted {
        version: if job.version2 { 2 } else { 1 },
        entry: entry as u32,
        used: out.registry.used,
        moves: out.moves,
        ro_copied: copied,
        ro_offset: offset,
        ro_start: start,
        ro_length: n,
        text_addr: job.addr,
        text: job.text,
    }
}

// The answer of a file that passed the checks.
pub(crate) fn answer_of(out: &Outputs<'_, '_>, job: Job) -> Result<Accepted, ElfError>
    requires { job.e_entry - job.sh_addr ≤ 2 ^ 24 }
    ensures { result ≡ answer_by job job.placing out.now.registry.now.used out.now.moves }
{
    match job.placing? {
        Placing::Borrowed {
            offset,
            start,
            length,
        } => Ok(accepted_as(job, false, offset, start, length, out)),
        Placing::Owned {
            offset,
            lowest: _,
            length,
        } => Ok(accepted_as(job, true, offset, 0, length, out)),
    }
}
