// The lines of a load, stored in a lent slice.
ghost use Rattle.std.specs.Prelude.{◌+◌, ◌^◌, ◌≤◌, length};
ghost use Rattle.program.specs.Table.{Within, columns_in, rows_of};
ghost use Rattle.loader.specs.Errors.{report_of};
ghost use Rattle.listing.specs.Lines.{word_line, row_line, row_lines, refused_line, accepted_line, answer_lines, Stores};

use crate::storing::Lines;
use elf_parser::Report;
use loader::{Accepted, ElfError};
use program::{FunctionTable, Row};

impl Lines<'_> {
    // A word and four numbers.
    #[tactic(auto, using(crate::proofs::Stores::parts), unfolding(crate::specs::Lines::word_line))]
    fn put_word_line(&mut self, word: &[u8], a: u64, b: u64, c: u64, d: u64)
        requires { (self.old.at + 93 ≤ 2 ^ 32) × (length word.now ≤ 8) }
        ensures { Stores 93 (word_line word.now a b c d) self.old self.new }
    {
        self.put_bytes(word);
        self.put_spaced(a);
        self.put_spaced(b);
        self.put_spaced(c);
        self.put_spaced(d);
        self.put_byte(b'\n');
    }

    fn put_refused(&mut self, e: ElfError)
        requires { self.old.at + 93 ≤ 2 ^ 32 }
        ensures { Stores 93 (refused_line (report_of e)) self.old self.new }
    {
        let r = Report::from(e);
        self.put_word_line(b"refused", r.number as u64, r.value, r.start, r.length);
    }

    fn put_accepted(&mut self, a: Accepted)
        requires { self.old.at + 93 ≤ 2 ^ 32 }
        ensures { Stores 93 (accepted_line a) self.old self.new }
    {
        self.put_word_line(
            b"accepted",
            a.version as u64,
            a.entry as u64,
            a.used as u64,
            a.moves,
        );
    }

    // A row: key, index, name kind.
    #[tactic(auto, using(crate::proofs::Stores::parts), unfolding(crate::specs::Lines::row_line))]
    fn put_row(&mut self, row: Row)
        requires { self.old.at + 63 ≤ 2 ^ 32 }
        ensures { Stores 63 (row_line row.key row.index row.kind) self.old self.new }
    {
        self.put_decimal(row.key as u64);
        self.put_spaced(row.index as u64);
        self.put_spaced(row.kind as u64);
        self.put_byte(b'\n');
    }

    // The used rows.
    // Kept: each field read by itself. The table's own `row_at` asks that there is such a row, and a public function
    // here asks nothing, so that a row would come as an Option, to be taken apart again.
    #[tactic(auto, using(crate::proofs::Stores::parts, crate::proofs::Listed::lines_from, crate::proofs::Listed::lines_end))]
    fn put_rows(&mut self, table: FunctionTable)
        requires { (self.old.at + 16128 ≤ 2 ^ 32) × (table.used ≤ 256) × Within table.used (columns_in table) }
        ensures { Stores 16128 (row_lines (rows_of (columns_in table.entry) table.entry.used)) self.old self.new }
    {
        for i in 0..table.used {
            self.put_row(Row {
                key: table.keys[i],
                index: table.indices[i],
                kind: table.kinds[i],
                start: table.starts[i],
                length: table.lengths[i],
            });
        }
    }

    // What a load answered, and its rows.
    #[tactic(auto, using(crate::proofs::Stores::parts))]
    pub(crate) fn put_load(&mut self, answer: Result<Accepted, ElfError>, table: FunctionTable)
        requires { (self.old.at + 16221 ≤ 2 ^ 32) × (table.used ≤ 256) × Within table.used (columns_in table) }
        ensures { Stores 16221 (answer_lines answer (rows_of (columns_in table.entry) table.entry.used)) self.old self.new }
    {
        match answer {
            Err(e) => self.put_refused(e),
            Ok(a) => {
                self.put_accepted(a);
                self.put_rows(table);
            }
        }
    }
}
