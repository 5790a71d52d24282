// What a load reads.
ghost use Rattle.std.specs.Prelude.{◌≡◌};
ghost use Rattle.loader.specs.Functions.{Keyed};
ghost use Rattle.loader.specs.InFile.{InFile};

use crate::validate::Job;
use elf_parser::Elf64;

// The file, the built-in keys, the keys of the first indices, and what the checks left. `in_file` is what
// the checks showed of the job, and by `keyed` the table gives every index its key.
#[derive(Clone, Copy, PartialEq, Eq, Debug)]
pub struct Inputs<'a> {
    pub file: &'a [u8],
    pub builtins: &'a [u32],
    pub table: &'a [u32],
    pub job: Job,
    pub ghost in_file: { InFile file.now job },
    pub ghost keyed: { Keyed table.now },
}

impl<'a> Inputs<'a> {
    // The file with its layout.
    #[inline(always)]
    pub(crate) fn elf(&self) -> Elf64<'a>
        ensures { result ≡ record { file = self.now.file; layout = self.now.job.layout } }
    {
        Elf64 {
            file: self.file,
            layout: self.job.layout,
        }
    }
}
