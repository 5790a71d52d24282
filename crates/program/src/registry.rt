// A table lent for writing: a place opened and closed in its five columns, and what registers and
// removes a row.
ghost use Rattle.std.specs.Prelude.{◌≡◌, ◌+◌, ◌-◌, ◌≤◌, ◌<◌};
ghost use Rattle.program.specs.Table.{Registers, RegistersAlike, RegistersBy, opening_of, Unregisters, Within, columns_of, columns_in, closed_row, SameColumns, used_after, used_without};

use crate::columns::{close_at, open_at};
use crate::table::row_ascending;
use crate::{FunctionRegistry, FunctionTable, RegisterError, Registered, Row};

impl FunctionRegistry<'_> {
    // The table as it stands.
    pub fn as_table(&self) -> FunctionTable<'_>
        ensures columns { columns_in result ≡ columns_of self.now }
        ensures used { result.used ≡ self.now.used }
    {
        FunctionTable {
            keys: self.keys,
            indices: self.indices,
            kinds: self.kinds,
            starts: self.starts,
            lengths: self.lengths,
            used: self.used,
        }
    }

    // Opens the place `at` of each column, and puts the row there. Where all rows have one name
    // (`ALIKE`), that of the row goes behind the last, and no name moves.
    #[tactic(auto, using(crate::proofs::Shift::opened_end), unfolding(crate::specs::Table::opened_row, crate::specs::Table::opened_alike))]
    fn open_row<const ALIKE: bool>(&mut self, at: usize, row: Row)
        requires at_within { at ≤ self.old.used }
        requires room { Within (self.old.used + 1) (columns_of self.old) }
        ensures same { SameColumns self.old self.new }
        ensures opened { columns_of self.new ≡ opening_of ALIKE at self.old.used row (columns_of self.old) }
        ensures used { self.new.used ≡ self.old.used + 1 }
    {
        let n = self.used;
        let name_at = if ALIKE { n } else { at };
        open_at(self.keys, at, n, row.key);
        open_at(self.indices, at, n, row.index);
        open_at(self.kinds, name_at, n, row.kind);
        open_at(self.starts, name_at, n, row.start);
        open_at(self.lengths, name_at, n, row.length);
        self.used = n + 1;
    }

    // Closes the place `at` of each column, of which `n` rows count.
    #[tactic(auto, unfolding(crate::specs::Table::closed_row))]
    fn close_row(&mut self, at: usize, n: usize)
        requires at_within { at < n }
        requires room { Within n (columns_of self.old) }
        ensures same { SameColumns self.old self.new }
        ensures closed { columns_of self.new ≡ closed_row at n (columns_of self.old) }
        ensures used { self.new.used ≡ n - 1 }
    {
        close_at(self.keys, at, n);
        close_at(self.indices, at, n);
        close_at(self.kinds, at, n);
        close_at(self.starts, at, n);
        close_at(self.lengths, at, n);
        self.used = n - 1;
    }

    // Registers a row, at the place where the search for its key comes to.
    #[tactic(auto, using(std::proofs::lemmas::Result::err_from_is_err_and, crate::proofs::Steps::registered_counted))]
    fn register<const ALIKE: bool>(&mut self, row: Row) -> Result<Registered, RegisterError>
        ensures same { SameColumns self.old self.new }
        ensures registers { RegistersBy (opening_of ALIKE) (columns_of self.old) (columns_of self.new) self.old.used row result }
        ensures used { self.new.used ≡ used_after self.old.used result }
    {
        let answer = self.as_table().answer_of(row)?;
        if let Registered::Inserted(moves) = answer {
            self.open_row::<ALIKE>(self.used - moves, row);
        }
        Ok(answer)
    }

    // Registers a row. At most the rows lent count: where one is inserted there is room behind the used
    // rows, so that they all count.
    pub fn register_function(&mut self, row: Row) -> Result<Registered, RegisterError>
        ensures same { SameColumns self.old self.new }
        ensures registers { Registers (columns_of self.old) (columns_of self.new) self.old.used row result }
        ensures used { self.new.used ≡ used_after self.old.used result }
    {
        self.register::<false>(row)
    }

    // Registers a row whose name is that of every used row: the answer is `register_function`'s, but the
    // columns of the name are not shifted, since there equal numbers would move: the name goes behind
    // the last row.
    pub fn register_alike(&mut self, row: Row) -> Result<Registered, RegisterError>
        ensures same { SameColumns self.old self.new }
        ensures registers { RegistersAlike (columns_of self.old) (columns_of self.new) self.old.used row result }
        ensures used { self.new.used ≡ used_after self.old.used result }
    {
        self.register::<true>(row)
    }

    // Removes the row of a key, where there is one: how many rows moved. At most the rows lent count.
    #[tactic(auto, using(crate::proofs::Steps::row_inside, crate::proofs::Steps::unregister_counted, crate::proofs::Steps::unregistered_counted))]
    pub fn unregister_function(&mut self, key: u32) -> Option<usize>
        ensures same { SameColumns self.old self.new }
        ensures unregisters { Unregisters (columns_of self.old) (columns_of self.new) self.old.used key result }
        ensures used { self.new.used ≡ used_without (columns_of self.old) self.old.used result }
    {
        let table = self.as_table();
        let n = table.counted();
        let at = row_ascending(table.keys, n, key)?;
        self.close_row(at, n);
        Some(n - at - 1)
    }
}
