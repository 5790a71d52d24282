// The steps of MurmurHash3, x86 32-bit.
ghost use Rattle.std.specs.Prelude.{◌≡◌};
ghost use Rattle.ebpf.specs.Murmur3.{scramble, step, mix, fmix32};

#[tactic(auto, using(crate::proofs::Rotation::rotated_15))]
pub(crate) fn scrambled(k: u32) -> u32
    ensures { result ≡ scramble k }
{
    k.wrapping_mul(0xcc9e2d51)
        .rotate_left(15)
        .wrapping_mul(0x1b873593)
}

#[tactic(auto, using(crate::proofs::Rotation::rotated_13))]
fn stepped(h: u32) -> u32
    ensures { result ≡ step h }
{
    h.rotate_left(13).wrapping_mul(5).wrapping_add(0xe6546b64)
}

// The state after one block.
pub(crate) fn mixed(h: u32, k: u32) -> u32
    ensures { result ≡ mix h k }
{
    stepped(h ^ scrambled(k))
}

// The finalization mix.
pub(crate) fn fmix(h: u32) -> u32
    ensures { result ≡ fmix32 h }
{
    let a = (h ^ (h >> 16)).wrapping_mul(0x85ebca6b);
    let b = (a ^ (a >> 13)).wrapping_mul(0xc2b2ae35);
    b ^ (b >> 16)
}
