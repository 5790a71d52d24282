// The names of the refusals, for people.
ghost use Rattle.std.specs.Prelude.{◌≡◌, length};
ghost use Rattle.exports.specs.Answers.{written};
ghost use Rattle.exports.specs.Names.{Named, name_in, names_from_45, refusal_name};

// Fills a slice: the bytes, as many as there is room for, and zeros behind them.
// Kept: apart from `fill` of answers.rt. One `fill` for any `T: Copy` was tried: std's `fill` then asks of `T` that
// a clone can't fail, and tells of clones and not of the value; and `written`, which every answer is stated by,
// would take a type and its zero wherever it stands, to save these three lines. And byte by byte: by `copy_from_slice`
// the C interface would need `memmove` from where it is linked.
#[tactic(auto, using(crate::proofs::Writing::so_far_start))]
fn fill_bytes(to: &mut [u8], bytes: &[u8])
    ensures { to.new ≡ written (length to.old) bytes.now }
{
    for i in 0..to.len() {
        to[i] = bytes.get(i).copied().unwrap_or(0);
    }
}

// The name of the refusal with a number from 45 on, empty where no refusal has it. Apart from the others, since the
// check proves no match of forty numbers.
#[tactic(auto, using(ebpf::specs::Choice::choices), unfolding(crate::specs::Names::names_from_45, crate::specs::Names::name_in, crate::specs::Names::bytes))]
fn name_from_45(number: u32) -> &'static [u8]
    ensures { result.now ≡ name_in names_from_45 number }
{
    match number {
        45 => b"NoSuchIndex".as_slice(),
        46 => b"NotASection".as_slice(),
        47 => b"AddendNegative".as_slice(),
        48 => b"BadHashTable".as_slice(),
        49 => b"StringUnterminated".as_slice(),
        50 => b"RecursiveCall".as_slice(),
        51 => b"TooDeep".as_slice(),
        _ => b"".as_slice(),
    }
}

// The name of the refusal with a number, empty where no refusal has it.
// Kept: by numbers, which C gives, and not by the enums that `Report::from` takes, since C has no other word for them.
#[tactic(auto, using(ebpf::specs::Choice::choices), unfolding(crate::specs::Names::names, crate::specs::Names::name_in, crate::specs::Names::bytes, crate::specs::Names::refusal_name))]
fn name_of(number: u32) -> &'static [u8]
    ensures { result.now ≡ refusal_name number }
{
    match number {
        1 => b"InvalidFileHeader".as_slice(),
        2 => b"InvalidProgramHeader".as_slice(),
        3 => b"InvalidSectionHeader".as_slice(),
        4 => b"StringTooLong".as_slice(),
        5 => b"OutOfBounds".as_slice(),
        6 => b"InvalidSize".as_slice(),
        7 => b"Overlap".as_slice(),
        8 => b"SectionNotInOrder".as_slice(),
        9 => b"NoSectionNameStringTable".as_slice(),
        10 => b"InvalidDynamicSectionTable".as_slice(),
        11 => b"InvalidAlignment".as_slice(),
        12 => b"NoStringTable".as_slice(),
        13 => b"NoDynamicStringTable".as_slice(),
        20 => b"EntrypointOutOfBounds".as_slice(),
        21 => b"InvalidEntrypoint".as_slice(),
        22 => b"UnresolvedSymbol".as_slice(),
        23 => b"RelativeJumpOutOfBounds".as_slice(),
        24 => b"SymbolHashCollision".as_slice(),
        25 => b"WrongAbi".as_slice(),
        26 => b"WrongMachine".as_slice(),
        27 => b"NotOneTextSection".as_slice(),
        28 => b"WritableSectionNotSupported".as_slice(),
        29 => b"InvalidVirtualAddress".as_slice(),
        30 => b"UnknownRelocation".as_slice(),
        31 => b"WrongType".as_slice(),
        32 => b"UnknownSymbol".as_slice(),
        33 => b"ValueOutOfBounds".as_slice(),
        34 => b"UnsupportedSBPFVersion".as_slice(),
        40 => b"FileTooLong".as_slice(),
        41 => b"BufferShort".as_slice(),
        42 => b"BuiltinsNotAscending".as_slice(),
        43 => b"TableFull".as_slice(),
        44 => b"TextOutsideReadOnly".as_slice(),
        _ => name_from_45(number),
    }
}

// Gives the name of the refusal with a number: its bytes in the lent slice, and its length.
#[tactic(auto, using(crate::proofs::Named::name_short))]
pub(crate) fn refusal_name(name: &mut [u8], number: u32) -> u32
    ensures { Named (refusal_name number) name result }
{
    let text = name_of(number);
    fill_bytes(name, text);
    text.len() as u32
}
