// Addresses in the machine.
ghost use Rattle.std.specs.Prelude.{◌≡◌, ◌&&◌, leb, ltb};
ghost use Rattle.loader.specs.Addresses.{machine_addr, sum_up_to};

use ebpf::MM_PROGRAM_START;

// Where a section of that sh_addr stands in the machine.
#[tactic(auto, using(ebpf::specs::Choice::choices), unfolding(crate::specs::Addresses::machine_addr))]
pub(crate) fn machine_addr(version2: bool, sh_addr: u64) -> u64
    ensures { result ≡ machine_addr version2 sh_addr }
{
    if version2 & (MM_PROGRAM_START <= sh_addr) {
        return sh_addr;
    }
    sh_addr.saturating_add(MM_PROGRAM_START)
}

// Whether an address is one of the text's.
pub(crate) fn in_addresses(sh_addr: u64, sh_size: u64, a: u64) -> bool
    ensures { result ≡ (leb sh_addr a && ltb a (sum_up_to sh_addr sh_size)) }
{
    (sh_addr <= a) & (a < sh_addr.saturating_add(sh_size))
}
