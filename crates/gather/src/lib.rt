// Gather, scatter and group: the bits of a word by a mask (paper 01, 'Lines, masks, orders'; demand 2).
#![tactic(auto)]

ghost use Rattle.std.specs.Prelude.{◌≡◌, ◌≢◌, ◌+◌, ◌-◌, ◌*◌, ◌/◌, ◌^◌, ◌≤◌, ◌<◌};
ghost use Rattle.std.specs.Int.Bits.{bit_and};
ghost use Rattle.bits.specs.Bit.{rank};
ghost use Rattle.bits.specs.Refusal.{number_of, number_in};
ghost use Rattle.gather.specs.Parts.{counts_of, gaps_of, gather_parts, scatter_parts, dealt, down, up};
ghost use Rattle.gather.specs.Gather.{gather_of, scatter_of, group_of, refusal_of, answer_of};

use bits::Refusal;

// What a call answers: 0, the count of the mask's ones and the word, or the number of the refusal and zeros.
#[repr(C)]
#[derive(Clone, Copy)]
pub struct Gathered {
    pub refusal: u8,
    pub count: u32,
    pub word: u64,
}

// The answer of a call that is refused.
impl From<Refusal> for Gathered {
    ghost from_gives = { λ refusal answer. answer ≡ record { refusal = number_of refusal; count = 0; word = 0 } };

    fn from(refusal: Refusal) -> Gathered {
        Gathered {
            refusal: u8::from(refusal),
            count: 0,
            word: 0,
        }
    }
}

// Whether a call on a width, a mask and a word is carried out, or its lowest refusal. (Beside network's of one word: here 64 is let through
// first, and both words are tested at once.)
fn check(width: u32, mask: u64, word: u64) -> Result<(), Refusal>
    ensures { number_in result ≡ refusal_of width mask word }
{
    if width == 64 {
        return Ok(());
    }
    bits::accept(bits::log_of(width))?;
    if !bits::is_within(width, word) || !bits::is_within(width, mask) {
        return Err(Refusal::Above);
    }
    Ok(())
}

// A move of bits within the parts of a word: `chosen` has one and the same bit of each part, and in the parts whose gaps have it, the places that
// `factor` makes of it take part.
#[derive(Clone, Copy)]
struct Move {
    chosen: u64,
    factor: u64,
    distance: u64,
    ghost bounded: { (chosen * factor < 2 ^ 64) × (distance < 64) },
}

// The moves in parts of 2, 4 and 8 bits, by each power of two up to half a part.
// No table: its loop would be no plainer, since it would have to look up the gaps of each move.
const TWOS_BY_1: Move = Move {
    chosen: 0x5555555555555555,
    factor: 2,
    distance: 1,
};

const FOURS_BY_1: Move = Move {
    chosen: 0x1111111111111111,
    factor: 12,
    distance: 1,
};

const FOURS_BY_2: Move = Move {
    chosen: 0x2222222222222222,
    factor: 6,
    distance: 2,
};

const EIGHTS_BY_1: Move = Move {
    chosen: 0x0101010101010101,
    factor: 240,
    distance: 1,
};

const EIGHTS_BY_2: Move = Move {
    chosen: 0x0202020202020202,
    factor: 124,
    distance: 2,
};

const EIGHTS_BY_4: Move = Move {
    chosen: 0x0404040404040404,
    factor: 60,
    distance: 4,
};

impl Move {
    // The places that take part.
    fn places(self, gaps: u64) -> u64
        ensures { result ≡ bit_and gaps self.chosen * self.factor }
    {
        (gaps & self.chosen) * self.factor
    }

    // Their bits move down.
    fn down(self, gaps: u64, word: u64) -> u64
        ensures { result ≡ down self.distance (bit_and gaps self.chosen * self.factor) word }
    {
        let moved = word & self.places(gaps);
        (word ^ moved) | (moved >> self.distance)
    }

    // They take the bits below them.
    fn up(self, gaps: u64, word: u64) -> u64
        ensures { result ≡ up self.distance (bit_and gaps self.chosen * self.factor) word }
    {
        word ^ ((word ^ (word << self.distance)) & self.places(gaps))
    }
}

// A mask with what it says of its parts: of each part of 2, 4 and 8 bits, the unmarked places of its lower half, and of each byte, its marked places.
#[derive(Clone, Copy)]
struct Marked {
    mask: u64,
    gaps1: u64,
    gaps2: u64,
    gaps4: u64,
    counts: u64,
    ghost gaps: { (gaps1 ≡ gaps_of 1 32 mask) × (gaps2 ≡ gaps_of 2 16 mask) × (gaps4 ≡ gaps_of 4 8 mask) },
    ghost counted: { counts ≡ counts_of 8 8 mask },
}

// internal: counts of parts of `size` bits, and those of every second part alone. The counts of parts twice as wide.
fn summed(counts: u64, lower: u64, size: u64) -> u64
    requires { (lower ≤ counts) × (size < 64) }
    ensures { result ≡ lower + (counts - lower) / 2 ^ size }
{
    lower + ((counts - lower) >> size)
}

impl Marked {
    // What a mask says, by adding up neighbours.
    fn new(mask: u64) -> Self
        ensures { result.mask ≡ mask }
    {
        let lower1 = mask & 0x5555555555555555;
        let counts2 = summed(mask, lower1, 1);
        let lower2 = counts2 & 0x3333333333333333;
        let counts4 = summed(counts2, lower2, 2);
        let lower4 = counts4 & 0x0F0F0F0F0F0F0F0F;
        Marked {
            mask,
            gaps1: 0x5555555555555555 - lower1,
            gaps2: 0x2222222222222222 - lower2,
            gaps4: 0x0404040404040404 - lower4,
            counts: summed(counts4, lower4, 4),
        }
    }

    // The marked places: the counts of the upper four bytes are added to those of the lower four, and byte 3 of the product adds these up.
    fn count(self) -> u32
        ensures { result ≡ rank self.mask 64 }
    {
        let sums = (self.counts + (self.counts >> 32)) % 0x100000000;
        (((sums * 0x01010101) >> 24) % 256) as u32
    }

    // The marked bits of each byte brought to its right: in parts of 2 bits, then of 4, then of 8, the upper half moves down by the gaps of the
    // lower one, a power of two at a time.
    fn gather_bytes(self, word: u64) -> u64
        ensures { result ≡ gather_parts 8 8 self.mask word }
    {
        let twos = TWOS_BY_1.down(self.gaps1, word & self.mask);
        let odd2 = FOURS_BY_1.down(self.gaps2, twos);
        let fours = FOURS_BY_2.down(self.gaps2, odd2);
        let odd4 = EIGHTS_BY_1.down(self.gaps4, fours);
        let even4 = EIGHTS_BY_2.down(self.gaps4, odd4);
        EIGHTS_BY_4.down(self.gaps4, even4)
    }

    // The bits of each byte taken to its marked places: the same moves upward, from the last.
    fn scatter_bytes(self, word: u64) -> u64
        ensures { result ≡ scatter_parts 8 8 self.mask word }
    {
        let even4 = EIGHTS_BY_4.up(self.gaps4, word);
        let odd4 = EIGHTS_BY_2.up(self.gaps4, even4);
        let fours = EIGHTS_BY_1.up(self.gaps4, odd4);
        let odd2 = FOURS_BY_2.up(self.gaps2, fours);
        let twos = FOURS_BY_1.up(self.gaps2, odd2);
        TWOS_BY_1.up(self.gaps1, twos) & self.mask
    }

    // internal: room above the marked bits. They are gathered below `start`: the gathered bytes end to end, from the last.
    fn gather_below(self, start: u64, word: u64) -> u64
        requires { start * 2 ^ rank self.mask 64 < 2 ^ 64 }
        ensures { result ≡ start * 2 ^ rank self.mask 64 + gather_of 64 self.mask word }
    {
        let bytes = self.gather_bytes(word);
        let mut out = start;
        for byte in (0u64..8).rev() {
            let at = 8 * byte;
            out = (out << ((self.counts >> at) % 64)) | ((bytes >> at) % 256);
        }
        out
    }

    // To each byte the bits that it is to take, from the right.
    fn deal(self, word: u64) -> u64
        ensures { result ≡ dealt 8 self.mask word }
    {
        let mut out: u64 = 0;
        let mut rest = word;
        for byte in 0u64..8 {
            let at = 8 * byte;
            out |= (rest % 256) << at;
            rest >>= (self.counts >> at) % 64;
        }
        out
    }

    // Gather at width 64.
    fn gather(self, word: u64) -> u64
        ensures { result ≡ gather_of 64 self.mask word }
    {
        self.gather_below(0, word)
    }

    // Scatter at width 64.
    fn scatter(self, word: u64) -> u64
        ensures { result ≡ scatter_of 64 self.mask word }
    {
        self.scatter_bytes(self.deal(word))
    }

    // Group at width 64: the unmarked bits, and below them the marked ones.
    // Compiled into its callers: else the struct goes through memory, 294 instructions a call in place of 275.
    #[inline]
    fn group(self, word: u64) -> u64
        ensures { result ≡ group_of 64 self.mask word }
    {
        self.gather_below(gather_64(!self.mask, word), word)
    }
}

// internal: gather at width 64
pub fn gather_64(mask: u64, word: u64) -> u64
    ensures { result ≡ gather_of 64 mask word }
{
    Marked::new(mask).gather(word)
}

// internal: scatter at width 64
pub fn scatter_64(mask: u64, word: u64) -> u64
    ensures { result ≡ scatter_of 64 mask word }
{
    Marked::new(mask).scatter(word)
}

// internal: group at width 64
pub fn group_64(mask: u64, word: u64) -> u64
    ensures { result ≡ group_of 64 mask word }
{
    Marked::new(mask).group(word)
}

// The answer of a call: refused, or the mask's count with the word that `word_of` makes of the mask.
fn answer<F: FnOnce(Marked, u64) -> u64>(width: u32, mask: u64, word: u64, word_of: F) -> Gathered
    requires { F.IsAlwaysCallable word_of }
    ensures refused { refusal_of width mask word ≢ 0 → result ≡ record { refusal = refusal_of width mask word; count = 0; word = 0 } }
    ensures carried_out { refusal_of width mask word ≡ 0
        → (result.refusal ≡ 0) × (result.count ≡ rank mask 64) × ((marked : _) × (marked.mask ≡ mask) × F.post word_of marked word result.word) }
{
    match check(width, mask, word) {
        Ok(()) => {
            let marked = Marked::new(mask);
            let word = word_of(marked, word);
            Gathered {
                refusal: bits::CARRIED_OUT,
                count: marked.count(),
                word,
            }
        }
        Err(refusal) => Gathered::from(refusal),
    }
}

// The marked bits of the word, brought to the right in order, zeros above.
pub fn gather(width: u32, mask: u64, word: u64) -> Gathered
    ensures { result ≡ answer_of gather_of width mask word }
{
    answer(width, mask, word, Marked::gather)
}

// The bits of the word from the right, taken in order to the marked places, zeros elsewhere.
pub fn scatter(width: u32, mask: u64, word: u64) -> Gathered
    ensures { result ≡ answer_of scatter_of width mask word }
{
    answer(width, mask, word, Marked::scatter)
}

// The marked bits of the word in order, and above them the unmarked ones in order.
pub fn group(width: u32, mask: u64, word: u64) -> Gathered
    ensures { result ≡ answer_of group_of width mask word }
{
    answer(width, mask, word, Marked::group)
}
