// Searching a slice.
ghost use Rattle.std.specs.Prelude.{MatchResult, ◌≡◌, ◌+◌, ◌≤◌, ◌<◌, eqb, leb, length, position};
ghost use Rattle.ebpf.specs.Choice.{◌if◌else◌};
ghost use Rattle.program.specs.Search.{search_result, Halved, left_of, narrowed, PassesTo};

// `half` where a is at most b, else 0.
// Kept: worked out. `half * (a <= b) as usize` was tried: in a loop it becomes a branch, which is guessed wrong every
// second time, and README's bar is that no branch of the search depends on the keys. The index of one of 65,536 keys
// in 200 rows then takes 26.5 ns in place of 15.3, in 5,000 rows 56 in place of 31.
#[tactic(auto, using(crate::proofs::Searches::half_where, crate::proofs::Searches::half_fits))]
fn half_where(half: usize, a: u32, b: u32) -> usize
    ensures { result ≡ (half if leb a b else 0) }
{
    let one = (4294967296 + b as usize - a as usize) / 4294967296;
    half * one
}

// A turn of the search outside a loop, where a test becomes no branch.
#[tactic(auto, using(crate::proofs::Searches::halved_up, crate::proofs::Searches::halved_down))]
fn halve(ranks: &[u32], base: usize, half: usize, key: u32) -> usize
    requires { base + half < length ranks.now }
    ensures { Halved key ranks.now base half result }
{
    let at = base + half;
    if ranks[at] <= key {
        return at;
    }
    base
}

// Halves at most sixteen numbers, from `base` on, until one is left: four turns, of which some may find
// one number already.
// Kept: one behind another, where a test costs no branch; in a loop each turn has one more, which is guessed wrong,
// and a lookup takes longer (docs/DECISIONS.md).
#[tactic(auto, using(crate::proofs::Searches::stays, crate::proofs::Searches::four_turns))]
fn narrow_few(ranks: &[u32], base: usize, size: usize, key: u32) -> usize
    requires { (0 < size) × (size ≤ 16) × (base + size ≤ length ranks.now) }
    ensures { result ≡ narrowed size key ranks.now base size }
{
    let half1 = size / 2;
    let size1 = size - half1;
    let base1 = halve(ranks, base, half1, key);
    let half2 = size1 / 2;
    let size2 = size1 - half2;
    let base2 = halve(ranks, base1, half2, key);
    let half3 = size2 / 2;
    let size3 = size2 - half3;
    let base3 = halve(ranks, base2, half3, key);
    halve(ranks, base3, size3 / 2, key)
}

// Halves the numbers until one is left: where that one stands.
// Kept: a turn takes off half of what is left, which no range gives.
#[tactic(auto, using(crate::proofs::Searches::half_le, crate::proofs::Searches::turn, crate::proofs::Searches::left_within))]
fn narrow(ranks: &[u32], key: u32) -> usize
    requires { 0 < length ranks.now }
    ensures is { result ≡ left_of key ranks.now }
    ensures within { result < length ranks.now }
{
    let mut base = 0;
    let mut size = ranks.len();
    while 16 < size {
        let half = size / 2;
        base += half_where(half, ranks[base + half], key);
        size -= half;
    }
    narrow_few(ranks, base, size, key)
}

// The binary search, which answers as std's: the place of `key`, or how many of the numbers are below it where
// they ascend; on any others it is at most their count.
// Kept: of numbers that do not ascend std's binary search says that the place is inside, and that an `Ok` holds the
// key, but not which place it is, so that by its contract no proof can close: a registration and a lookup promise an
// equation there too.
#[tactic(auto, using(crate::proofs::Searches::search_none, crate::proofs::Searches::search_next, crate::proofs::Searches::search_here, crate::proofs::Searches::search_before))]
pub(crate) fn binary_search(ranks: &[u32], key: u32) -> Result<usize, usize>
    ensures is { result ≡ search_result key ranks.now }
    ensures inside { MatchResult result (λ at. at < length ranks.now) (λ at. at ≤ length ranks.now) }
{
    if ranks.is_empty() {
        return Err(0);
    }
    let at = narrow(ranks, key);
    if ranks[at] < key {
        return Err(at + 1);
    }
    if ranks[at] == key {
        return Ok(at);
    }
    Err(at)
}

// How many numbers are passed over by eights: up to eight that have `key` among them, or to the last seven at
// most. Eight are compared without a branch between them, so that the processor does it at once.
fn pass_eights(keys: &[u32], key: u32) -> usize
    ensures { PassesTo key keys.now result }
{
    let eights = keys.as_chunks::<8>().0;
    let passed = eights.iter().position(|eight| eight.contains(&key));
    8 * passed.unwrap_or(eights.len())
}

// The index of the first number that is `key`.
fn position_of(keys: &[u32], key: u32) -> Option<usize>
    ensures { result ≡ position (λ k. eqb k key) keys.now }
{
    keys.iter().position(|k| *k == key)
}

// The same in less time, where the numbers are many.
pub(crate) fn first_of(keys: &[u32], key: u32) -> Option<usize>
    ensures { result ≡ position (λ k. eqb k key) keys.now }
{
    let from = pass_eights(keys, key);
    let at = position_of(&keys[from..], key)?;
    Some(from + at)
}
