// How deep a profile calls, in words.
ghost use Rattle.std.specs.Prelude.{◌≡◌};
ghost use Rattle.program.specs.Table.{columns_in};
ghost use Rattle.exports.specs.Depth.{depth_answer, Measured, accepted_depth, load_depth_answer};

use crate::answers::{Answer, answer_with, answered, reported};
use crate::loading::{loaded_with, told};
use call_depth::{CallDepthError, call_depth};
use elf_parser::Report;
use loader::{Accepted, LoadAnd};
use program::FunctionTable;

fn depth_answer(depth: Result<u32, CallDepthError>) -> Answer
    ensures { result ≡ depth_answer depth }
{
    answered(depth, |chain| answer_with(0, &[0, 0, 0, chain as u64]))
}

// How deep it calls, by the words of a load's answer, and the image and the table that it left.
pub(crate) fn measured(
    work: &mut [u32],
    image: &[u8],
    table: FunctionTable,
    loaded: &[u64],
    limit: u32,
) -> Answer
    ensures { Measured work image (columns_in table.entry) loaded.now limit result }
{
    match told(loaded) {
        Err(r) => reported(r),
        Ok(a) => depth_answer(call_depth(work, image, table, Ok(a), limit)),
    }
}

// The answer of an accepted load, with the chain behind it. Where the question is refused, the load's
// words stay behind the refusal.
fn accepted_depth(a: Accepted, depth: Result<u32, CallDepthError>) -> Answer
    ensures { result ≡ accepted_depth a depth }
{
    match depth {
        Ok(chain) => loaded_with(Report::with_value(0, 0), a, chain as u64, 0),
        Err(e) => loaded_with(Report::from(e), a, 0, 0),
    }
}

pub(crate) fn load_depth_answer(answers: LoadAnd<Result<u32, CallDepthError>>) -> Answer
    ensures { result ≡ load_depth_answer answers.load answers.asked }
{
    answered(answers.load, |a| accepted_depth(a, answers.asked))
}
