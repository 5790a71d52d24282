// A table of records that lies in the file.
ghost use Rattle.std.specs.Prelude.{◌≡◌, ℕ, Bool, ◌+◌, ◌*◌, ◌≤◌, ◌<◌, Result, length};

use crate::error::ElfParserError;
use crate::records::Entries;
use crate::types::{Record, record_at};
use std::marker::PhantomData;

// Kept: without Clone and Copy, which were tried: the check derives them for no struct that has a ghost field and a
// type parameter.
#[derive(PartialEq, Eq, Debug, Drop)]
pub(crate) struct Table<'a, T: Record> {
    pub(crate) file: &'a [u8],
    pub(crate) entries: Entries,
    of: PhantomData<T>,
    pub ghost inside: { entries.offset + T.SIZE * entries.count ≤ length file.now },
}

impl<'a, T: Record> Table<'a, T> {
    ghost use Rattle.elf_parser.specs.declared.error.ElfParserError.{ElfParserError};
    ghost use Rattle.elf_parser.specs.Dynamic.{first_with};
    ghost use Rattle.elf_parser.specs.Loops.{over};

    pub(crate) fn new(file: &'a [u8], entries: Entries) -> Table<'a, T>
        requires inside { entries.offset + T.SIZE * entries.count ≤ length file.now }
        ensures { (result.file.now ≡ file.now) × (result.entries ≡ entries) }
    {
        Table {
            file,
            entries,
            of: PhantomData,
        }
    }

    // The record number `i`.
    pub(crate) fn nth(&self, i: u64) -> T
        requires below { i < self.now.entries.count }
        ensures { result ≡ T.at self.now.file.now (self.now.entries.offset + T.SIZE * i) }
    {
        record_at(
            self.file,
            self.entries.offset as usize + T::SIZE * i as usize,
        )
    }

    // The first record that passes a test.
    #[tactic(auto, using(crate::specs::Dynamic::later_here, crate::specs::Dynamic::later_next, crate::specs::Dynamic::later_end))]
    pub(crate) fn first_with<F: Fn(T) -> bool>(&self, test: F) -> Option<T>
        ghost passes: { T → Bool }
        requires callable { F.IsAlwaysCallable test }
        requires tests { (x : T) (r : Bool) → F.post test x r → r ≡ passes x }
        ensures { result ≡ first_with passes (T.at self.now.file.now) T.SIZE self.now.entries.count self.now.entries.offset }
    {
        for i in 0..self.entries.count {
            let record = self.nth(i);
            if test(record) {
                return Some(record);
            }
        }
        None
    }

    // What is left of a state after the records, in turn: `step` goes from one to the next, with the place where
    // the record starts, up to the first that refuses.
    #[tactic(auto, using(std::proofs::lemmas::Result::err_from_is_err_and, crate::specs::Loops::rest_all, crate::specs::Loops::rest_next, crate::specs::Loops::rest_stop, crate::specs::Loops::rest_end))]
    pub(crate) fn over<S: Copy, F: Fn(u64, T, S) -> Result<S, ElfParserError>>(
        &self,
        first: S,
        step: F,
    ) -> Result<S, ElfParserError>
        ghost stepped: { ℕ → S → Result S ElfParserError }
        requires callable { F.IsAlwaysCallable step }
        requires steps { (at : ℕ) (x : S) (r : Result S ElfParserError) → F.post step at (T.at self.now.file.now at) x r → r ≡ stepped at x }
        ensures { result ≡ over stepped T.SIZE self.now.entries.count self.now.entries.offset first }
    {
        let mut state = first;
        for i in 0..self.entries.count {
            let at = self.entries.offset + T::SIZE as u64 * i;
            state = step(at, self.nth(i), state)?;
        }
        Ok(state)
    }
}
