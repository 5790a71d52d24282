#![tactic(auto)]
// A dynamic symbol by its name, through the gABI's hash table: bucket count, chain count, buckets and
// chains, numbers of 32 bits each. Every function takes the file with its layout, also one that no parse made.
ghost use Rattle.std.specs.Prelude.{◌≡◌, ◌+◌, ◌%◌, ◌<◌, length};
ghost use Rattle.hash_table.specs.Hash.{sum_with, high_bits, without_high, hash_with, elf_hash};
ghost use Rattle.hash_table.specs.Find.{bad_table, report_of, table_at, hash_table_of, Usable, number_at, bucket_at, chain_at, carries, link_at, walked, find_symbol};

use ebpf::little_endian::read;
use elf_parser::{Elf64, ElfParserError, Report, bytes_at, past};
use std::ops::ControlFlow;

// (h << 4) + byte, modulo 2^32.
fn sum_with(h: u32, byte: u8) -> u32
    ensures { result ≡ sum_with h byte }
{
    (h << 4).wrapping_add(byte as u32)
}

// g: the four highest bits of the sum.
fn high_bits(h: u32) -> u32
    ensures { result ≡ high_bits h }
{
    h & 0xf000_0000
}

// h ^ (g >> 24), and then without the bits of g.
fn without_high(h: u32, g: u32) -> u32
    ensures { result ≡ without_high h g }
{
    (h ^ (g >> 24)) & !g
}

// The state after a byte.
fn hash_with(h: u32, byte: u8) -> u32
    ensures { result ≡ hash_with h byte }
{
    let sum = sum_with(h, byte);
    without_high(sum, high_bits(sum))
}

// The gABI's hash of a name.
#[tactic(auto, using(crate::specs::Hash::hash_next, crate::specs::Hash::hash_end))]
pub fn elf_hash(name: &[u8]) -> u32
    ensures { result ≡ elf_hash name.now }
{
    let mut h = 0;
    for byte in name {
        h = hash_with(h, *byte);
    }
    h
}

// A hash table: where its buckets start, how many they are, and how many chains there are behind them.
#[derive(Clone, Copy, PartialEq, Eq, Debug)]
struct HashTable {
    buckets: usize,
    nbucket: u32,
    nchain: u32,
}

// The hash table cannot be used.
#[derive(Clone, Copy, PartialEq, Eq, Debug)]
pub struct BadHashTable;

impl From<BadHashTable> for Report {
    ghost from_gives = { λ e r. r ≡ report_of e };

    fn from(_: BadHashTable) -> Report {
        Report::with_value(48, 0)
    }
}

// A place that the reader refuses leaves nothing to use.
impl From<ElfParserError> for BadHashTable {
    ghost from_gives = { λ e r. r ≡ bad_table };

    fn from(_: ElfParserError) -> BadHashTable {
        BadHashTable
    }
}

// The table at a place in the file, with as many chains as there are symbols.
#[tactic(auto, using(ebpf::specs::Choice::choices), unfolding(crate::specs::Find::table_at))]
fn table_at(file: &[u8], symbols: u64, at: u64) -> Result<HashTable, BadHashTable>
    ensures { result ≡ table_at file.now symbols at }
{
    let len = file.len() as u64;
    if past(len, at, 8) {
        return Err(BadHashTable);
    }
    let from = at as usize;
    let nbucket = read::<u32>(file, from);
    let nchain = read::<u32>(file, from + 4);
    if nbucket == 0 {
        return Err(BadHashTable);
    }
    if nchain as u64 != symbols {
        return Err(BadHashTable);
    }
    if past(len, at, 8 + (nbucket as u64 + nchain as u64) * 4) {
        return Err(BadHashTable);
    }
    Ok(HashTable {
        buckets: from + 8,
        nbucket,
        nchain,
    })
}

// The table that tag 4 leads to.
#[tactic(auto, using(ebpf::specs::Choice::choices), unfolding(crate::specs::Find::hash_table_of))]
fn hash_table(elf: &Elf64<'_>) -> Result<HashTable, BadHashTable>
    ensures { result ≡ hash_table_of elf.now.file.now elf.now.layout }
{
    let vaddr = elf.layout.hash_table.ok_or(BadHashTable)?;
    let at = elf.file_offset(vaddr)?.ok_or(BadHashTable)?;
    table_at(elf.file, elf.layout.dynamic_symbols.count, at)
}

// The bucket that a hash falls into.
fn bucket_of(hash: u32, nbucket: u32) -> u32
    requires { 0 < nbucket }
    ensures { (result ≡ hash % nbucket) × (result < nbucket) }
{
    hash % nbucket
}

// A name that is looked for through a file's hash table, which has buckets and lies in the file.
#[derive(Clone, Copy, PartialEq, Eq, Debug)]
struct Search<'a> {
    elf: &'a Elf64<'a>,
    name: &'a [u8],
    table: HashTable,
    ghost usable: { Usable (length elf.now.file.now) table },
}

impl Search<'_> {
    // The number at a place behind the two counts: `index` from `first` on, which is 0 for the buckets and
    // their count for the chains.
    fn number_at(&self, first: u32, index: u32) -> u32
        requires { first + index < self.now.table.nbucket + self.now.table.nchain }
        ensures { result ≡ number_at self.now.elf.now.file.now self.now.table (first + index) }
    {
        read(
            self.elf.file,
            self.table.buckets + (first as usize + index as usize) * 4,
        )
    }

    // The first symbol of the bucket that a hash falls into.
    fn bucket_at(&self, hash: u32) -> u32
        ensures { result ≡ bucket_at self.now.elf.now.file.now self.now.table hash }
    {
        let bucket = bucket_of(hash, self.table.nbucket);
        self.number_at(0, bucket)
    }

    // The symbol behind another on its chain.
    fn chain_at(&self, index: u32) -> u32
        requires { index < self.now.table.nchain }
        ensures { result ≡ chain_at self.now.elf.now.file.now self.now.table index }
    {
        self.number_at(self.table.nbucket, index)
    }

    // Whether a symbol carries the name, which is refused where its own cannot be read.
    #[tactic(auto, using(elf_parser::specs::SectionNames::same_tested))]
    fn carries_name(&self, index: u32) -> Result<bool, BadHashTable>
        ensures { result ≡ carries self.now.elf.now.file.now self.now.elf.now.layout self.now.name.now index }
    {
        let symbol = self.elf.dynamic_symbol(index)?;
        let place = self.elf.dynamic_symbol_name(symbol.st_name)?;
        Ok(bytes_at(self.elf.file, place) == self.name)
    }

    // One link of a chain: the end of the walk, or where it goes on.
    #[tactic(auto, using(ebpf::specs::Choice::choices), unfolding(crate::specs::Find::link_at))]
    fn link_at(&self, index: u32) -> Result<ControlFlow<Option<u32>, u32>, BadHashTable>
        ensures { result ≡ link_at self.now.elf.now.file.now self.now.elf.now.layout self.now.name.now self.now.table index }
    {
        if index == 0 {
            return Ok(ControlFlow::Break(None));
        }
        if self.table.nchain <= index {
            return Err(BadHashTable);
        }
        if self.carries_name(index)? {
            return Ok(ControlFlow::Break(Some(index)));
        }
        Ok(ControlFlow::Continue(self.chain_at(index)))
    }

    // The walk along a chain from a symbol on: a chain has no more links than there are symbols, and the end.
    #[tactic(auto, using(crate::specs::Find::walked_is, crate::specs::Find::walked_end), unfolding(crate::specs::Find::on_link))]
    fn walk(&self, first: u32) -> Result<Option<u32>, BadHashTable>
        ensures { result ≡ walked self.now.elf.now.file.now self.now.elf.now.layout self.now.name.now self.now.table (self.now.table.nchain + 1) first }
    {
        let mut index = first;
        for _ in 0..self.table.nchain as u64 + 1 {
            match self.link_at(index)? {
                ControlFlow::Break(found) => return Ok(found),
                ControlFlow::Continue(next) => index = next,
            }
        }
        Err(BadHashTable)
    }
}

// The dynamic symbol with a name: the first on the name's chain that carries it, if one does.
#[tactic(auto, using(crate::specs::Find::table_lies))]
pub fn find_symbol(elf: &Elf64<'_>, name: &[u8]) -> Result<Option<u32>, BadHashTable>
    ensures { result ≡ find_symbol elf.now.file.now elf.now.layout name.now }
{
    let table = hash_table(elf)?;
    let search = Search { elf, name, table };
    search.walk(search.bucket_at(elf_hash(name)))
}
