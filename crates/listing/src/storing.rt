// Bytes, and the digits of numbers, stored in a lent slice one behind another; where the slice ends before, the
// bytes past its end are left out.
// Kept: tried as `write!` into a writer over the lent slice. std says what a writer holds only after `Ok`, and
// nowhere that one which can't fail gives `Ok`; `list_file` has no failure to answer, and promises the lines in the
// slice, as far as there is room, and how many bytes they are.
ghost use Rattle.std.specs.Prelude.{◌≡◌, [], ◌∷◌, ◌+◌, ◌^◌, ◌≤◌, length, replicate};
ghost use Rattle.listing.specs.Decimal.{last_digit, decimal};
ghost use Rattle.listing.specs.Lines.{spaced, SameSlice, Stores};

// The lent slice, and the place behind what is stored.
#[derive(Drop)]
pub struct Lines<'o> {
    pub out: &'o mut [u8],
    pub at: usize,
}

// The byte of a number's last digit.
fn last_digit(n: u64) -> u8
    ensures { result ≡ last_digit n }
{
    48 + (n % 10) as u8
}

impl Lines<'_> {
    // Every byte zero.
    pub(crate) fn clear(&mut self)
        ensures same { SameSlice self.old self.new }
        ensures out { self.new.out.now ≡ replicate (length self.old.out.now) 0 }
        ensures at { self.new.at ≡ self.old.at }
    {
        self.out.fill(0);
    }

    #[tactic(auto, using(crate::proofs::Stores::parts))]
    pub(crate) fn put_byte(&mut self, b: u8)
        requires { self.old.at + 1 ≤ 2 ^ 32 }
        ensures { Stores 1 (b ∷ []) self.old self.new }
    {
        if self.at < self.out.len() {
            self.out[self.at] = b;
        }
        self.at += 1;
    }

    #[tactic(auto, using(crate::proofs::Stores::parts))]
    pub(crate) fn put_bytes(&mut self, bytes: &[u8])
        requires { self.old.at + length bytes.now ≤ 2 ^ 32 }
        ensures { Stores (length bytes.now) bytes.now self.old self.new }
    {
        for byte in bytes {
            self.put_byte(*byte);
        }
    }

    // A number's digits, the highest first: those of a tenth, and the last one.
    #[tactic(auto, using(crate::proofs::Stores::parts, crate::proofs::Tenths::decimal_one, crate::proofs::Tenths::decimal_more, crate::proofs::Tenths::decimal_few, crate::proofs::Tenths::tenth_few))]
    pub(crate) fn put_decimal(&mut self, n: u64)
        requires { self.old.at + 20 ≤ 2 ^ 32 }
        ensures { Stores 20 (decimal n) self.old self.new }
    {
        if n < 10 {
            self.put_byte(last_digit(n));
            return;
        }
        self.put_decimal(n / 10);
        self.put_byte(last_digit(n));
    }

    // A space and a number.
    #[tactic(auto, using(crate::proofs::Stores::parts), unfolding(crate::specs::Lines::spaced))]
    pub(crate) fn put_spaced(&mut self, n: u64)
        requires { self.old.at + 21 ≤ 2 ^ 32 }
        ensures { Stores 21 (spaced n) self.old self.new }
    {
        self.put_byte(b' ');
        self.put_decimal(n);
    }
}
