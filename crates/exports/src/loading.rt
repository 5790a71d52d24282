// What a load answers in words, and what such words tell.
ghost use Rattle.std.specs.Prelude.{◌≡◌};
ghost use Rattle.exports.specs.Answers.{loaded_with, load_answer, text_answer};
ghost use Rattle.exports.specs.Told.{accepted_told, told};

use crate::answers::{Answer, answer_with, answered, place_words, word_in};
use elf_parser::{Place, Report};
use loader::{Accepted, ElfError};

// The words of an accepted load, with a refusal's before them, zeros where there is none, and two words
// behind them.
pub(crate) fn loaded_with(r: Report, a: Accepted, last: u64, behind: u64) -> Answer
    ensures { result ≡ loaded_with r a last behind }
{
    let words = [
        r.value,
        r.start,
        r.length,
        a.version as u64,
        a.entry as u64,
        a.used as u64,
        a.moves,
        u64::from(a.ro_copied),
        a.ro_offset,
        a.ro_start,
        a.ro_length,
        a.text_addr,
        a.text.start as u64,
        a.text.length as u64,
        last,
        behind,
    ];
    answer_with(r.number, &words)
}

pub(crate) fn load_answer(a: Result<Accepted, ElfError>) -> Answer
    ensures { result ≡ load_answer a }
{
    answered(a, |a| loaded_with(Report::with_value(0, 0), a, 0, 0))
}

// The accepted load whose answer is in these words. A word too large for a version's number is read as 0.
#[tactic(auto, using(ebpf::specs::Choice::choices), unfolding(crate::specs::Told::version_in))]
fn accepted_told(loaded: &[u64]) -> Accepted
    ensures { result ≡ accepted_told loaded.now }
{
    Accepted {
        version: u32::try_from(word_in(loaded, 4)).unwrap_or(0),
        entry: (word_in(loaded, 5) % 0x1_0000_0000) as u32,
        used: word_in(loaded, 6) as usize,
        moves: word_in(loaded, 7),
        ro_copied: word_in(loaded, 8) != 0,
        ro_offset: word_in(loaded, 9),
        ro_start: word_in(loaded, 10),
        ro_length: word_in(loaded, 11),
        text_addr: word_in(loaded, 12),
        text: Place {
            start: word_in(loaded, 13) as usize,
            length: word_in(loaded, 14) as usize,
        },
    }
}

// What the words of a load's answer tell: the accepted load, or the refusal that they are.
#[tactic(auto, using(ebpf::specs::Choice::choices))]
pub(crate) fn told(loaded: &[u64]) -> Result<Accepted, Report>
    ensures { result ≡ told loaded.now }
{
    let refused = Report {
        number: (word_in(loaded, 0) % 0x1_0000_0000) as u32,
        value: word_in(loaded, 1),
        start: word_in(loaded, 2),
        length: word_in(loaded, 3),
    };
    if refused.number == 0 {
        Ok(accepted_told(loaded))
    } else {
        Err(refused)
    }
}

pub(crate) fn text_answer(p: Result<Place, ElfError>) -> Answer
    ensures { result ≡ text_answer p }
{
    answered(p, place_words)
}
