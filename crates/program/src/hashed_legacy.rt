// How `register_function_hashed_legacy` decides: the key of a name and an index, what the row keeps of
// the name, and whether a built-in has the key. Values only; the caller registers the row.
ghost use Rattle.std.specs.Prelude.{◌≡◌};
ghost use Rattle.program.specs.Search.{is_among};
ghost use Rattle.program.specs.HashedLegacy.{is_entrypoint, legacy_key, kept_name, is_taken, row_under, legacy_row};

use crate::{FunctionName, HashedLegacy, KeptName, Row, SymbolHashCollision, search};

// The hash of the name entrypoint.
pub const ENTRYPOINT_KEY: u32 = 0x71e3cf81;

fn is_entrypoint(name: FunctionName) -> bool
    ensures { result ≡ is_entrypoint name }
{
    match name {
        FunctionName::Symbol { entrypoint, .. } => entrypoint,
        FunctionName::OfIndex => false,
        FunctionName::Entrypoint => true,
    }
}

// Whether a binary search finds the key: on keys that ascend strictly, whether it is among them.
#[tactic(auto, using(crate::proofs::Searches::found_among))]
pub fn is_builtin(builtins: &[u32], key: u32) -> bool
    ensures { result ≡ is_among key builtins.now }
{
    search::binary_search(builtins, key).is_ok()
}

impl HashedLegacy<'_> {
    // The key of a name and an index: in version 2 the index; in version 1 the hash of the name
    // entrypoint for that name, else the index's key, from the lent table of the first keys or worked out.
    // Inlined, so that no caller puts the struct into memory for it.
    #[inline(always)]
    #[tactic(auto, using(ebpf::specs::Choice::choices, crate::proofs::Keys::entrypoint_key), unfolding(crate::specs::HashedLegacy::legacy_key))]
    pub fn legacy_key(&self, name: FunctionName, index: u32) -> u32
        ensures { result ≡ legacy_key self.now.table.now self.now.version2 name index }
    {
        if self.version2 {
            return index;
        }
        if is_entrypoint(name) {
            return ENTRYPOINT_KEY;
        }
        ebpf::index_key_in(self.table, index as u64)
    }

    // What a row keeps of a name. Without labels only the name entrypoint is kept.
    #[tactic(auto, using(ebpf::specs::Choice::choices), unfolding(crate::specs::HashedLegacy::kept_symbol))]
    pub fn kept_name(&self, name: FunctionName) -> KeptName
        ensures { result ≡ kept_name self.now.labels name }
    {
        match name {
            FunctionName::Symbol { length: 0, .. } => KeptName::default(),
            FunctionName::Symbol {
                start,
                length,
                entrypoint,
            } if self.labels | entrypoint => KeptName {
                kind: crate::NAME_IN_FILE,
                start,
                length,
            },
            FunctionName::OfIndex if self.labels => KeptName {
                kind: crate::NAME_OF_INDEX,
                start: 0,
                length: 0,
            },
            FunctionName::Symbol { .. } | FunctionName::OfIndex => KeptName::default(),
            FunctionName::Entrypoint => KeptName {
                kind: crate::NAME_ENTRYPOINT,
                start: 0,
                length: crate::ENTRYPOINT_LENGTH,
            },
        }
    }

    // Whether a built-in has the key already: asked in version 1 with the check on only.
    #[tactic(auto, using(ebpf::specs::Choice::choices), unfolding(crate::specs::HashedLegacy::is_taken))]
    pub fn is_taken(&self, key: u32) -> bool
        ensures { result ≡ is_taken self.now.builtins.now self.now.version2 self.now.check_collision key }
    {
        !self.version2 && self.check_collision && is_builtin(self.builtins, key)
    }

    // The row that a function is registered as under a key, or the collision of the key with a built-in.
    // Inlined, as what it answers would go through memory otherwise.
    #[inline(always)]
    #[tactic(auto, using(ebpf::specs::Choice::choices))]
    pub fn row_under(
        &self,
        key: u32,
        name: FunctionName,
        index: u32,
    ) -> Result<Row, SymbolHashCollision>
        ensures { result ≡ row_under self.now.builtins.now self.now.version2 self.now.check_collision self.now.labels key name index }
    {
        if self.is_taken(key) {
            return Err(SymbolHashCollision { key });
        }
        let kept = self.kept_name(name);
        Ok(Row {
            key,
            index,
            kind: kept.kind,
            start: kept.start,
            length: kept.length,
        })
    }

    // The same under the key of the name and the index.
    #[tactic(auto, unfolding(crate::specs::HashedLegacy::legacy_row))]
    pub fn legacy_row(&self, name: FunctionName, index: u32) -> Result<Row, SymbolHashCollision>
        ensures { result ≡ legacy_row self.now.table.now self.now.builtins.now self.now.version2 self.now.check_collision self.now.labels name index }
    {
        let key = self.legacy_key(name, index);
        self.row_under(key, name, index)
    }
}
