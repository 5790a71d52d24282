// A table lent for reading: how many rows count, what a registration answers, and the lookups.
ghost use Rattle.std.specs.Prelude.{◌≡◌, ◌+◌};
ghost use Rattle.program.specs.Table.{HasRoom, register_in, lookup_in, lookup_ascending_in, row_ascending_in, index_ascending_in, Least, Within, capacity, counted, row_at, columns_in};

use crate::{FunctionTable, RegisterError, Registered, Row, search};

// As many rows as the shortest column has numbers, by the columns' lengths alone.
// Kept: the five numbers and no table, since the question is of any five lengths, also of columns that nobody
// lends: a struct of them would be made only to be taken apart here.
#[tactic(auto, unfolding(crate::specs::Table::least))]
pub fn rows_lent(keys: usize, indices: usize, kinds: usize, starts: usize, lengths: usize) -> usize
    ensures { Least result keys indices kinds starts lengths }
{
    keys.min(indices).min(kinds).min(starts).min(lengths)
}

impl FunctionTable<'_> {
    // The same of this table.
    #[tactic(auto, unfolding(crate::specs::Table::capacity))]
    pub fn rows_lent(self) -> usize
        ensures is { result ≡ capacity (columns_in self.entry) }
        ensures within { Within result (columns_in self.entry) }
    {
        rows_lent(
            self.keys.len(),
            self.indices.len(),
            self.kinds.len(),
            self.starts.len(),
            self.lengths.len(),
        )
    }

    // The rows that count: at most those lent.
    #[tactic(auto, unfolding(crate::specs::Table::counted))]
    pub(crate) fn counted(self) -> usize
        ensures is { result ≡ counted (columns_in self.entry) self.entry.used }
        ensures within { Within result (columns_in self.entry) }
    {
        self.used.min(self.rows_lent())
    }

    // What a registration answers, before anything moves. Inlined, since as a call's result it would go
    // through memory.
    #[inline(always)]
    #[tactic(auto, using(ebpf::specs::Choice::choices, crate::proofs::Steps::register_counted), unfolding(crate::specs::Table::counted))]
    pub(crate) fn answer_of(self, row: Row) -> Result<Registered, RegisterError>
        ensures is { result ≡ register_in (columns_in self.entry) self.entry.used row }
        ensures room { HasRoom (columns_in self.entry) self.entry.used result }
    {
        let rows = self.rows_lent();
        let n = self.used.min(rows);
        match search::binary_search(&self.keys[..n], row.key) {
            Ok(at) if self.indices[at] == row.index => Ok(Registered::Repeat),
            Ok(_) => Err(RegisterError::Collision),
            Err(_) if rows <= n => Err(RegisterError::Full),
            Err(at) => Ok(Registered::Inserted(n - at)),
        }
    }

    fn row_at(self, at: usize) -> Row
        requires { Within (at + 1) (columns_in self) }
        ensures { result ≡ row_at (columns_in self.entry) at }
    {
        Row {
            key: self.keys[at],
            index: self.indices[at],
            kind: self.kinds[at],
            start: self.starts[at],
            length: self.lengths[at],
        }
    }

    // The first used row with the key, whatever the columns hold: a scan, since the rows need not
    // ascend. At most the rows lent count.
    #[tactic(auto, using(crate::proofs::Steps::row_within, crate::proofs::Steps::lookup_counted))]
    pub fn lookup_by_key(self, key: u32) -> Option<Row>
        ensures { result ≡ lookup_in (columns_in self.entry) self.entry.used key }
    {
        let at = search::first_of(&self.keys[..self.counted()], key)?;
        Some(self.row_at(at))
    }

    // The row that a binary search over the used keys comes to, if it has the key. Where the rows
    // ascend, as in every table that a load leaves, this is what `lookup_by_key` answers, in few steps.
    // On other content it may miss a row that is there. At most the rows lent count.
    #[tactic(auto, using(crate::proofs::Steps::row_inside, crate::proofs::Steps::row_within, crate::proofs::Tables::row_counted))]
    pub fn lookup_ascending(self, key: u32) -> Option<Row>
        ensures { result ≡ lookup_ascending_in (columns_in self.entry) self.entry.used key }
    {
        let at = row_ascending(self.keys, self.counted(), key)?;
        Some(self.row_at(at))
    }
}

// The number of the row under a key, as `lookup_ascending` finds it, by the column of keys alone: the
// caller reads what it needs of that row in its own columns. As many rows count as the column has
// numbers.
// Kept: the column and no table, since a caller has one or two columns at hand; and `used` beside it, which a
// C caller gives and which may pass the column's length: the promise speaks of that case.
#[tactic(auto, using(crate::proofs::Steps::row_found))]
pub fn row_ascending(keys: &[u32], used: usize, key: u32) -> Option<usize>
    ensures { result ≡ row_ascending_in keys.now used key }
{
    let n = used.min(keys.len());
    search::binary_search(&keys[..n], key).ok()
}

// The index of that row, by the columns of keys and indices alone: what a call needs, with less to hand
// over. As many rows count as the shorter column has numbers.
// Kept: the two columns and no table, and `used` beside them, likewise.
#[tactic(auto, using(crate::proofs::Steps::row_inside), unfolding(crate::specs::Table::index_ascending_in))]
pub fn index_ascending(keys: &[u32], indices: &[u32], used: usize, key: u32) -> Option<u32>
    ensures { result ≡ index_ascending_in keys.now indices.now used key }
{
    let n = used.min(indices.len());
    let row = row_ascending(keys, n, key)?;
    Some(indices[row])
}
