// Little-endian numbers of a slice of bytes. A read past the end finds zeros there, so that no
// read demands anything; a caller that must refuse such a place compares with the length first.
ghost use Rattle.std.specs.Prelude.{◌≡◌, ℕ, List, length};
ghost use Rattle.ebpf.specs.LittleEndian.{le, bytes_at};

// The first bytes of a slice that may have fewer, with zeros past its end.
// Kept: `array::from_fn` was tried, and the proof didn't close: of what its closure holds at a later call nothing is
// known without an induction of its own. `copy_from_slice` of as many bytes as there are was tried, and misses the bar
// that no hash takes longer (README, "Speed"): that of a name of ten bytes takes 17.5 ns in place of 6.4.
fn padded<const N: usize>(s: &[u8]) -> [u8; N]
    ensures { result ≡ bytes_at N s.now 0 }
{
    let mut bytes = [0; N];
    for i in 0..N {
        bytes[i] = s.get(i).copied().unwrap_or(0);
    }
    bytes
}

// The bytes from a place on, with zeros past the end. Where the slice has them all, LLVM makes one
// load of them.
#[tactic(auto, using(crate::proofs::Reading::past, crate::proofs::Reading::whole, crate::proofs::Reading::from_rest))]
fn bytes_at<const N: usize>(s: &[u8], at: usize) -> [u8; N]
    ensures { result ≡ bytes_at N s.now at }
{
    // Kept: `s.get(at..)` in place of the test was tried, and misses the bar that no parse takes longer (README,
    // "Speed"): that of `two_slots.so` takes 66.0 ns in place of 64.2, of `addends.so` 238.0 in place of 234.3.
    if s.len() <= at {
        return [0; N];
    }
    let rest = &s[at..];
    match rest.first_chunk() {
        Some(bytes) => *bytes,
        None => padded(rest),
    }
}

// An unsigned number that is read from its bytes, the lowest first.
pub trait LittleEndian: Copy {
    // The number at a place of the bytes.
    ghost number_at: { List ℕ → ℕ → Self };

    fn read(s: &[u8], at: usize) -> Self
        ensures { result ≡ number_at s.now at };
}

// Kept: four of one shape. Each is std's `from_le_bytes` of its own type, which stands in no trait of std, and impls
// written by a macro of the repository are refused by the gate.
impl LittleEndian for u8 {
    ghost number_at = { le 1 };

    #[tactic(auto, using(crate::proofs::Reading::number_8))]
    fn read(s: &[u8], at: usize) -> u8 {
        u8::from_le_bytes(bytes_at(s, at))
    }
}

impl LittleEndian for u16 {
    ghost number_at = { le 2 };

    #[tactic(auto, using(crate::proofs::Reading::number_16))]
    fn read(s: &[u8], at: usize) -> u16 {
        u16::from_le_bytes(bytes_at(s, at))
    }
}

impl LittleEndian for u32 {
    ghost number_at = { le 4 };

    #[tactic(auto, using(crate::proofs::Reading::number_32))]
    fn read(s: &[u8], at: usize) -> u32 {
        u32::from_le_bytes(bytes_at(s, at))
    }
}

impl LittleEndian for u64 {
    ghost number_at = { le 8 };

    #[tactic(auto, using(crate::proofs::Reading::number_64))]
    fn read(s: &[u8], at: usize) -> u64 {
        u64::from_le_bytes(bytes_at(s, at))
    }
}

// The number at a place, of the type that the caller asks for.
pub fn read<T: LittleEndian>(s: &[u8], at: usize) -> T
    ensures { result ≡ T.number_at s.now at }
{
    T::read(s, at)
}
