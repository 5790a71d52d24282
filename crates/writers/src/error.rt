// Why it is not told who wrote a byte.
ghost use Rattle.std.specs.Prelude.{◌≡◌};
ghost use Rattle.writers.specs.declared.error.WhoWroteError.TheVariants.{Refused};
ghost use Rattle.writers.specs.Errors.{report_of};

use elf_parser::Report;
use loader::ElfError;

// 45, where the offset is at or past the file's end; or why the load or the question is refused.
#[derive(Clone, Copy, PartialEq, Eq, Debug)]
pub enum WhoWroteError {
    NoSuchIndex,
    Refused(ElfError),
}

impl From<ElfError> for WhoWroteError {
    ghost from_gives = { λ e r. r ≡ Refused e };

    fn from(e: ElfError) -> WhoWroteError {
        WhoWroteError::Refused(e)
    }
}

// In numbers.
impl From<WhoWroteError> for Report {
    ghost from_gives = { λ e r. r ≡ report_of e };

    fn from(e: WhoWroteError) -> Report {
        match e {
            WhoWroteError::NoSuchIndex => Report::with_value(45, 0),
            WhoWroteError::Refused(refusal) => Report::from(refusal),
        }
    }
}
