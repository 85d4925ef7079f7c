// Fields of a word, and the halves that a step keeps of them.
#![tactic(auto)]

ghost use Rattle.std.specs.Prelude.{◌≡◌, true, ◌+◌, ◌*◌, ◌/◌, ◌<◌, ◌≤◌};
ghost use Rattle.network.specs.Word.{pairs};
ghost use Rattle.planes.specs.Rounds.{is_half, kept_halves, by_turns, crossed_of};

// Fields that fill a word, each of a low and a high half of so many bits.
#[derive(Clone, Copy)]
pub(crate) struct Fields {
    pub(crate) half_width: u64,
    ghost fill_word: { is_half half_width ≡ true },
}

impl Fields {
    // internal: fields of less than a word. Fields twice as wide.
    pub(crate) fn wider(self) -> Fields
        requires { self.half_width < 32 }
        ensures { result.half_width ≡ 2 * self.half_width }
    {
        Fields {
            half_width: 2 * self.half_width,
        }
    }

    // The low halves of all fields of a word.
    pub(crate) fn low_halves(self) -> u64
        ensures { result ≡ pairs self.half_width }
    {
        u64::MAX / ((1 << self.half_width) + 1)
    }

    // The low halves of all fields of two words, by turns: in each field the first's below the second's.
    pub(crate) fn by_turns(self, first: u64, second: u64) -> u64
        ensures { let h = self.half_width in result ≡ by_turns h (kept_halves (2 * h) 0 first) (kept_halves (2 * h) 0 second) }
    {
        let low = self.low_halves();
        (first & low) | ((second & low) << self.half_width)
    }

    // internal: fields of less than a word. In every two of them, the high half of the lower one and the low half of the upper one change
    // places.
    pub(crate) fn crossed(self, word: u64) -> u64
        requires { self.half_width < 32 }
        ensures { result ≡ crossed_of self.half_width word }
    {
        let h = self.half_width;
        let inner = self.wider().low_halves() & !self.low_halves();
        let outer = word & !(inner | (inner << h));
        outer | ((word >> h) & inner) | ((word & inner) << h)
    }
}

// What a step keeps: of each field, which is 2, 4 or 8 bits wide, the low half (0) or the high one (1). (With an enum for the half the rounds
// are not unrolled: loops that call each step in place of 530 instructions in a row.)
#[derive(Clone, Copy)]
pub(crate) struct Kept {
    pub(crate) fields: Fields,
    pub(crate) half: u64,
    ghost is_narrow: { fields.half_width ≤ 4 },
    ghost is_low_or_high: { half < 2 },
}

impl Kept {
    // The same half of fields of 8, 4 or 2 bits in place of 2, 4 and 8.
    pub(crate) fn mirrored(self) -> Kept
        ensures { (result.fields.half_width ≡ 4 / self.fields.half_width) × (result.half ≡ self.half) }
    {
        let half_width = 4 / self.fields.half_width;
        Kept {
            fields: Fields { half_width },
            half: self.half,
        }
    }
}
