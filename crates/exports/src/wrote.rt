// Who wrote a byte, in words.
ghost use Rattle.std.specs.Prelude.{◌≡◌};
ghost use Rattle.exports.specs.Wrote.{kind_of, number_in, wrote_answer, who_wrote_answer, filled_answer, Numbers, accepted_wrote, load_wrote_answer};

use crate::answers::{Answer, answer_with, answered, reported};
use crate::loading::{loaded_with, told};
use elf_parser::Report;
use loader::{Accepted, ElfError, LoadAnd, clear_words};
use writers::{LoadedText, WhoWroteError, Writer, who_wrote_all_by, who_wrote_by};

// Who wrote a byte, in words: the kind of the writer, and the number of the slot or of the relocation.
#[derive(Clone, Copy, PartialEq, Eq, Debug)]
pub struct WriterWords {
    pub kind: u64,
    pub number: u64,
}

impl From<Writer> for WriterWords {
    ghost from_gives = { λ w r. r ≡ record { kind = kind_of w; number = number_in w } };

    fn from(w: Writer) -> WriterWords {
        let (kind, number) = match w {
            Writer::File => (0, 0),
            Writer::Call(i) => (1, i as u64),
            Writer::Relocation(k) => (2, k as u64),
        };
        WriterWords { kind, number }
    }
}

fn wrote_answer(wrote: Result<Writer, WhoWroteError>) -> Answer
    ensures { result ≡ wrote_answer wrote }
{
    answered(wrote, |w| {
        let WriterWords { kind, number } = WriterWords::from(w);
        answer_with(0, &[0, 0, 0, kind, number])
    })
}

// Who wrote a byte, by the words of a load's answer.
#[tactic(auto, using(ebpf::specs::Choice::choices), unfolding(crate::specs::Wrote::who_wrote_answer))]
pub(crate) fn who_wrote_answer(file: &[u8], loaded: &[u64], offset: u64) -> Answer
    ensures { result ≡ who_wrote_answer file.now loaded.now offset }
{
    answered(told(loaded), |a| {
        wrote_answer(who_wrote_by(file, LoadedText::from(a), offset))
    })
}

fn filled_answer(filled: Result<(), ElfError>) -> Answer
    ensures { result ≡ filled_answer filled }
{
    answered(filled, |_| answer_with(0, &[0]))
}

// Who wrote each byte, by the words of a load's answer.
#[tactic(auto, using(ebpf::specs::Choice::choices, writers::proofs::Telling::cleared, writers::proofs::Telling::as_long), unfolding(crate::specs::Wrote::all_answer, crate::specs::Wrote::all_number))]
pub(crate) fn numbers_answer(numbers: &mut [u32], file: &[u8], loaded: &[u64]) -> Answer
    ensures { Numbers file loaded numbers result }
{
    match told(loaded) {
        Err(r) => {
            clear_words(numbers);
            reported(r)
        }
        Ok(a) => filled_answer(who_wrote_all_by(numbers, file, LoadedText::from(a))),
    }
}

// The answer of an accepted load, with who wrote the byte behind it. An offset past the file's end
// leaves the load's words as they are.
fn accepted_wrote(a: Accepted, wrote: Result<Writer, WhoWroteError>) -> Answer
    ensures { result ≡ accepted_wrote a wrote }
{
    match wrote {
        Ok(w) => {
            let WriterWords { kind, number } = WriterWords::from(w);
            loaded_with(Report::with_value(0, 0), a, kind, number)
        }
        Err(WhoWroteError::NoSuchIndex) => loaded_with(Report::with_value(45, 0), a, 0, 0),
        Err(WhoWroteError::Refused(e)) => reported(Report::from(e)),
    }
}

pub(crate) fn load_wrote_answer(answers: LoadAnd<Result<Writer, WhoWroteError>>) -> Answer
    ensures { result ≡ load_wrote_answer answers.load answers.asked }
{
    answered(answers.load, |a| accepted_wrote(a, answers.asked))
}
