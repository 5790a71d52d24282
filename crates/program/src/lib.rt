#![tactic(auto)]
// The function registry: the port of src/program.rs. A table of rows in five lent slices, ascending
// by key, with zeros behind the used rows; it has as many rows as the shortest slice has numbers.
mod columns;
mod hashed_legacy;
mod registry;
mod search;
mod table;

pub use hashed_legacy::{ENTRYPOINT_KEY, is_builtin};
pub use table::{index_ascending, row_ascending, rows_lent};

// What a row says of its name: it is empty or not kept, a part of the file, the text entrypoint, or
// made from the index. Only a part of the file has a start.
// Kept: numbers and no enum, since C reads them in the column of kinds. `KeptName` and `Row` have the number too, as
// it goes into the column: an enum there would be made only to be turned into the number.
pub const NAME_EMPTY: u32 = 0;

pub const NAME_IN_FILE: u32 = 1;

pub const NAME_ENTRYPOINT: u32 = 2;

pub const NAME_OF_INDEX: u32 = 3;
// The length of the text entrypoint.
pub const ENTRYPOINT_LENGTH: u32 = 10;

// A row of the table: the key, the instruction index, and the name's kind, start and length.
#[derive(Clone, Copy, PartialEq, Eq, Debug)]
pub struct Row {
    pub key: u32,
    pub index: u32,
    pub kind: u32,
    pub start: u32,
    pub length: u32,
}

// The table: a column for each field of a row, of which the first `used` rows are used.
// Kept: five columns and no slice of rows, since C lends each as a slice of numbers; and two types, since a field
// is lent either for writing or for reading. That the columns stay the slices that were lent (`SameColumns`) stands in
// the contracts of those who write: it speaks of before and after, which no invariant of the type can.
#[derive(Drop)]
pub struct FunctionRegistry<'a> {
    pub keys: &'a mut [u32],
    pub indices: &'a mut [u32],
    pub kinds: &'a mut [u32],
    pub starts: &'a mut [u32],
    pub lengths: &'a mut [u32],
    pub used: usize,
}

// The same lent for reading.
#[derive(Clone, Copy, PartialEq, Eq, Debug)]
pub struct FunctionTable<'a> {
    pub keys: &'a [u32],
    pub indices: &'a [u32],
    pub kinds: &'a [u32],
    pub starts: &'a [u32],
    pub lengths: &'a [u32],
    pub used: usize,
}

// What a registration that is not refused did.
#[derive(Clone, Copy, PartialEq, Eq, Debug)]
pub enum Registered {
    // How many rows moved.
    Inserted(usize),
    // The key is held with the same index: the first name stays.
    Repeat,
}

// Why a registration is refused.
#[derive(Clone, Copy, PartialEq, Eq, Debug)]
pub enum RegisterError {
    // The key is held with another index.
    Collision,
    Full,
}

// A built-in has the key.
#[derive(Clone, Copy, PartialEq, Eq, Debug)]
pub struct SymbolHashCollision {
    pub key: u32,
}

// The name that a function is registered under.
#[derive(Clone, Copy, PartialEq, Eq, Debug)]
pub enum FunctionName {
    // A part of the file, and whether its bytes are the text entrypoint.
    Symbol {
        start: u32,
        length: u32,
        entrypoint: bool,
    },
    // Made from the instruction index.
    OfIndex,
    // The entry's own text.
    Entrypoint,
}

// What a function is registered by, beside its name and index.
#[derive(Clone, Copy, PartialEq, Eq, Debug)]
pub struct HashedLegacy<'a> {
    // The keys of the first indices; those of the others are worked out.
    pub table: &'a [u32],
    // The keys of the built-ins.
    pub builtins: &'a [u32],
    pub version2: bool,
    // The settings: whether a key that a built-in has is refused, and whether rows keep names.
    pub check_collision: bool,
    pub labels: bool,
}

// What a row keeps of a name. The default is that of a name which is empty or not kept: `NAME_EMPTY`, 0, and no place.
#[derive(Clone, Copy, PartialEq, Eq, Debug, Default)]
pub struct KeptName {
    pub kind: u32,
    pub start: u32,
    pub length: u32,
}
