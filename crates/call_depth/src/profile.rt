// The functions of a loaded profile and their calls.
ghost use Rattle.std.specs.Prelude.{◌≡◌, length};

// What says which function calls which: the text in the image, the columns of keys and of indices of the
// used rows, and whether the version is 2.
// Kept: `work` is no field of it. It is lent for writing, and what holds of it differs from step to step (`WorkLent`,
// `WordsReady`, `Shaped`), so that the clauses stay; and each would say besides that the slice is still the one lent.
#[derive(Clone, Copy, PartialEq, Eq, Debug)]
pub(crate) struct Profile<'a> {
    pub(crate) text: &'a [u8],
    pub(crate) keys: &'a [u32],
    pub(crate) indices: &'a [u32],
    pub(crate) version2: bool,
    pub ghost as_many: { length keys.now ≡ length indices.now },
}
