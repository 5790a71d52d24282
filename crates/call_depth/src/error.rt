// Why there is no depth.
ghost use Rattle.std.specs.Prelude.{◌≡◌};
ghost use Rattle.call_depth.specs.declared.error.CallDepthError.TheVariants.{RecursiveCall, Refused};
ghost use Rattle.call_depth.specs.Errors.{report_of};

use call_graph::Recursive;
use elf_parser::Report;
use loader::ElfError;

// 50, with the smallest index of a function that is reached and reaches itself; 51, with a chain past
// the limit; or why the load or the question is refused.
#[derive(Clone, Copy, PartialEq, Eq, Debug)]
pub enum CallDepthError {
    RecursiveCall(u32),
    TooDeep(u32),
    Refused(ElfError),
}

impl From<Recursive> for CallDepthError {
    ghost from_gives = { λ e r. r ≡ RecursiveCall e.index };

    fn from(e: Recursive) -> CallDepthError {
        CallDepthError::RecursiveCall(e.index)
    }
}

impl From<ElfError> for CallDepthError {
    ghost from_gives = { λ e r. r ≡ Refused e };

    fn from(e: ElfError) -> CallDepthError {
        CallDepthError::Refused(e)
    }
}

// In numbers: the value is the index, or the chain.
impl From<CallDepthError> for Report {
    ghost from_gives = { λ e r. r ≡ report_of e };

    fn from(e: CallDepthError) -> Report {
        match e {
            CallDepthError::RecursiveCall(index) => Report::with_value(50, index as u64),
            CallDepthError::TooDeep(chain) => Report::with_value(51, chain as u64),
            CallDepthError::Refused(refusal) => Report::from(refusal),
        }
    }
}
