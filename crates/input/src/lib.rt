#![tactic(auto)]
// Reading until a buffer is full, and record by record.
ghost use Rattle.std.specs.Prelude.{◌≡◌, ◌<◌, ◌≤◌, length, take, IfOk, Ok, Err, false};
ghost use Rattle.std.specs.Io.KnownBytes.{Consumes, IsAtEnd};
ghost use Rattle.std.specs.declared.io.Error.{Error};
ghost use Rattle.input.specs.declared.RecordError.TheVariants.{Io, Bad};

use std::io;
use std::io::Read;

// Why a record of the input has no line: what is read or written failed, or the record is no right one.
#[derive(Debug, Drop)]
pub enum RecordError {
    Io(io::Error),
    Bad,
}

impl From<io::Error> for RecordError {
    ghost from_gives = { λ e r. r ≡ Io e };

    fn from(e: io::Error) -> RecordError {
        RecordError::Io(e)
    }
}

impl RecordError {
    // What comes after such a record: a failure is handed on, and behind a record that is no right one there is no
    // more. The words for it are the caller's.
    pub fn ends(self) -> io::Result<bool>
        ensures failed { (e : Error) → self ≡ Io e → result ≡ Err e }
        ensures bad { self ≡ Bad → result ≡ Ok false }
    {
        match self {
            RecordError::Io(failure) => Err(failure),
            RecordError::Bad => Ok(false),
        }
    }
}

// Reads until the buffer is full or the input ends, and answers how many bytes came. A read that a
// signal interrupts is an error like any other.
pub fn read_full<R: Read>(input: &mut R, bytes: &mut [u8]) -> io::Result<usize>
    ensures within { IfOk result (λ n. n ≤ length bytes.new) }
    ensures read { IfOk result (λ n.
        Consumes (R.remaining input.old) (R.remaining input.new) (take n bytes.new)) }
    ensures end { IfOk result (λ n. n < length bytes.new → IsAtEnd (R.remaining input.new)) }
{
    let mut filled = 0;
    // Kept: each read gives its own length, so that no range counts the turns; one over the bytes would end most
    // times before its end, by a test of its own.
    while filled < bytes.len() {
        let n = input.read(&mut bytes[filled..])?;
        if n == 0 {
            break;
        }
        filled += n;
    }
    Ok(filled)
}
