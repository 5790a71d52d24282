// What the exported functions answer, and how it is written into a lent slice.
ghost use Rattle.std.specs.Prelude.{MatchResult, ◌≡◌, ◌∷◌, ◌++◌, ◌≤◌, length, get_or, drop};
ghost use Rattle.exports.specs.Answers.{written, Gives, answer_with, reported, laid_out, parse_answer, place_words, place_answer, table_answer, symbol_answer, row_answer, word_or_none, nine_words};

use elf_parser::{ElfParserError, Entries, Layout, Place, Report};
use hash_table::BadHashTable;
use program::Row;

// A number, 0 where nothing was refused, and what goes with it.
// Kept: the words in an array of its own, since memory is fixed and there is no heap.
#[derive(Clone, Copy, PartialEq, Eq, Debug)]
pub struct Answer {
    pub number: u32,
    pub words: [u64; 23],
}

// The word at a place, 0 past the last.
pub(crate) fn word_in(words: &[u64], i: usize) -> u64
    ensures { result ≡ get_or words.now i 0 }
{
    words.get(i).copied().unwrap_or(0)
}

// Fills a slice: the words, as many as there is room for, and zeros behind them.
#[tactic(auto, using(crate::proofs::Writing::filled_all))]
fn fill(to: &mut [u64], words: &[u64])
    ensures { to.new ≡ written (length to.old) words.now }
{
    let held = to.len().min(words.len());
    to[..held].copy_from_slice(&words[..held]);
    to[held..].fill(0);
}

// An answer of a number and these words, with zeros behind them.
pub(crate) fn answer_with(number: u32, first: &[u64]) -> Answer
    ensures { result ≡ answer_with number first.now }
{
    let mut words = [0u64; 23];
    fill(&mut words, first);
    Answer { number, words }
}

// A refusal in numbers.
pub(crate) fn reported(r: Report) -> Answer
    ensures { result ≡ reported r }
{
    answer_with(r.number, &[r.value, r.start, r.length])
}

// What comes of a question: its answer, or its refusal in numbers.
#[inline(always)]
pub(crate) fn answered<T, E: Into<Report>, F: FnOnce(T) -> Answer>(
    asked: Result<T, E>,
    tell: F,
) -> Answer
    requires { F.IsAlwaysCallable tell }
    ensures { MatchResult asked (λ x. F.post tell x result) (λ e. (r : Report) × E.converts e r × result ≡ reported r) }
{
    match asked {
        Ok(x) => tell(x),
        Err(e) => reported(e.into()),
    }
}

fn laid_out(l: Layout) -> Answer
    ensures { result ≡ laid_out l }
{
    let program_headers = l.program_headers;
    let section_headers = l.section_headers;
    let relocations = l.dynamic_relocations;
    let relas = l.dynamic_relas;
    let symbols = l.dynamic_symbols;
    let words = [
        0,
        0,
        0,
        program_headers.offset,
        program_headers.count,
        section_headers.offset,
        section_headers.count,
        l.shstrtab.unwrap_or(0),
        l.symtab.unwrap_or(0),
        l.strtab.unwrap_or(0),
        l.dynstr.unwrap_or(0),
        relocations.offset,
        relocations.count,
        symbols.offset,
        symbols.count,
        relas.offset,
        relas.count,
        l.hash_table.unwrap_or(0),
    ];
    answer_with(0, &words)
}

pub(crate) fn parse_answer(parsed: Result<Layout, ElfParserError>) -> Answer
    ensures { result ≡ parse_answer parsed }
{
    answered(parsed, laid_out)
}

// The words of a place: its start and its length.
pub(crate) fn place_words(p: Place) -> Answer
    ensures { result ≡ place_words p }
{
    answer_with(0, &[0, 0, 0, p.start as u64, p.length as u64])
}

pub(crate) fn place_answer(place: Result<Place, ElfParserError>) -> Answer
    ensures { result ≡ place_answer place }
{
    answered(place, place_words)
}

pub(crate) fn table_answer(table: Result<Entries, ElfParserError>) -> Answer
    ensures { result ≡ table_answer table }
{
    answered(table, |t| answer_with(0, &[0, 0, 0, t.offset, t.count]))
}

#[tactic(auto, unfolding(crate::specs::Answers::written))]
pub(crate) fn symbol_answer(found: Result<Option<u32>, BadHashTable>) -> Answer
    ensures { result ≡ symbol_answer found }
{
    answered(found, |symbol| match symbol {
        Some(index) => answer_with(0, &[0, 0, 0, 1, index as u64]),
        None => answer_with(0, &[0, 0, 0, 0]),
    })
}

// The word that says that there is none.
const NONE: u64 = 18446744073709551615;

// The index or the number of a row that is found, or that word.
pub(crate) fn word_or_none(found: Option<u64>) -> u64
    ensures { result ≡ word_or_none found }
{
    found.unwrap_or(NONE)
}

// Fills the lent slice: the number, and the words behind it. The words are lent: by value they
// would be copied.
#[tactic(auto, using(crate::proofs::Writing::behind_length, crate::proofs::Writing::filled_behind, crate::proofs::Writing::no_room))]
fn give_words(answer: &mut [u64], number: u32, words: &[u64])
    ensures { answer.new ≡ written (length answer.old) (number ∷ words.now) }
{
    if 0 < answer.len() {
        answer[0] = number as u64;
        fill(&mut answer[1..], words);
    }
}

// Fills the lent slice with an answer's words.
pub(crate) fn give(answer: &mut [u64], a: Answer) -> u32
    ensures { Gives a answer result }
{
    let words = a.words;
    give_words(answer, a.number, &words);
    a.number
}

// Fills a lent slice with a row's nine words.
// Kept: beside `fill`, since a copy of nine words, a number known beforehand, makes a lookup a fifth
// faster; and the words written out twice, since one array for both would go over the stack.
fn give_nine(answer: &mut [u64], found: u64, index: u64, kind: u64, start: u64, size: u64)
    ensures { answer.new ≡ written (length answer.old) (nine_words found index kind start size) }
{
    if answer.len() < 9 {
        fill(answer, &[0, 0, 0, 0, found, index, kind, start, size]);
        return;
    }
    answer[..9].copy_from_slice(&[0, 0, 0, 0, found, index, kind, start, size]);
    answer[9..].fill(0);
}

// Fills the lent slice with the words of a row, or of none.
#[tactic(auto, using(crate::proofs::Writing::row_given, crate::proofs::Writing::none_given))]
pub(crate) fn give_row(answer: &mut [u64], f: Option<Row>) -> u32
    ensures { Gives (row_answer f) answer result }
{
    match f {
        Some(row) => give_nine(
            answer,
            1,
            row.index as u64,
            row.kind as u64,
            row.start as u64,
            row.length as u64,
        ),
        None => give_nine(answer, 0, 0, 0, 0, 0),
    }
    0
}
