// Parts of the file: a place, and the bytes there.
ghost use Rattle.std.specs.Prelude.{◌≡◌, ◌+◌, ltb};
ghost use Rattle.elf_parser.specs.Parts.{bytes_at, part_of};

// Where a name or a section's contents stand in the file.
#[derive(Clone, Copy, PartialEq, Eq, Debug, Default)]
pub struct Place {
    pub start: usize,
    pub length: usize,
}

// The bytes at a place; none where it does not lie in the file.
// Kept: `file.get(start..).and_then(|rest| rest.get(..length))` was tried, and the proof didn't close: the check does
// not find by itself which of its three ways the place goes, as it does here.
#[tactic(auto, using(ebpf::specs::Choice::choices), unfolding(crate::specs::Parts::bytes_at))]
pub fn bytes_at(file: &[u8], place: Place) -> &[u8]
    ensures { result.now ≡ bytes_at file.now place.start place.length }
{
    let start = place.start;
    match start.checked_add(place.length) {
        Some(end) if end <= file.len() => &file[start..end],
        _ => &file[..0],
    }
}

// The bytes at a place; none where it is refused, or does not lie in the file.
pub fn part_of<E: Copy>(file: &[u8], place: Result<Place, E>) -> &[u8]
    ensures { result.now ≡ part_of file.now place }
{
    place.map_or(&file[..0], |place| bytes_at(file, place))
}

// Whether `b` bytes from `a` on end past `len`.
pub fn past(len: u64, a: u64, b: u64) -> bool
    ensures { result ≡ ltb len (a + b) }
{
    a.checked_add(b).is_none_or(|end| len < end)
}
