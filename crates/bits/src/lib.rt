// What every call of the unit shares: accepted widths, the refusal numbers, the count of ones (paper 01, 'What the unit covers' and
// 'Calls turned back'), and the counts below each bit (paper 02, Req 04).
#![tactic(auto)]

ghost use Rattle.std.specs.Prelude.{◌≡◌, ℕ, ◌^◌, ◌<◌, ◌≤◌, MatchResult};
ghost use Rattle.std.proofs.lemmas.List.Edits.{sets};
ghost use Rattle.bits.specs.Bit.{byte_at, up_to, rank, counts_below};
ghost use Rattle.bits.specs.Refusal.{log_of, log_to_64, fits, number_of, number_in};

// The refusal number of a call that is carried out.
pub const CARRIED_OUT: u8 = 0;

// Why a call is turned back (paper 01, 'Calls turned back'), the lowest first. The numbers are part of the interface; more may follow, none changes.
#[derive(Clone, Copy, Debug, PartialEq, Eq, PartialOrd, Ord)]
pub enum Refusal {
    Width = 1, // the width is not 8, 16, 32 or 64
    Above = 2, // word or mask has a one at bit w or above
    Unused = 3, // a one in an unused control bit or stage
    Length = 4, // the permutation is not w long; a run's list is not a multiple of 4 bytes, or above 4,096
    Entry = 5, // an entry is w or above, or repeated
    NotRealised = 6, // the permutation is not realised by the one network named
    Kind = 7, // kind not 1 to 10, or in kind 5 r1 not 1 to 4
    Register = 8, // a register number in use above 15
    Range = 9, // a is above b, b is above the length of the words that a and b cut, or either list of words is above 2,048
    Short = 10, // the other list of words is shorter than its bits need
    Spare = 11, // a spare bit of the last packed word read is one (paper 02, Req 02)
    Subword = 12, // the subword size is not 1, 2, 4, 8, 16 or 32 (paper 02, Req 05)
    Plane = 13, // a plane's rows or words a row are zero, or their product is not the length of its words (paper 02, Req 06)
    Waiting = 14, // another run waits, or none does, or the list is not the remainder (paper 02, Req 10)
    Frame = 15, // the guarantees of a frame sum above its cycles (paper 02, Req 11)
}

// The number of a refusal.
impl From<Refusal> for u8 {
    ghost from_gives = { λ refusal number. number ≡ number_of refusal };

    fn from(refusal: Refusal) -> u8 {
        refusal as u8
    }
}

// The refusal number of a call: 0 if it is carried out.
pub fn number(outcome: Result<(), Refusal>) -> u8
    ensures { result ≡ number_in outcome }
{
    match outcome {
        Ok(()) => CARRIED_OUT,
        Err(refusal) => u8::from(refusal),
    }
}

// The base-two logarithm of an accepted width, 0 for any other number. (A number, not an Option: its promise stands. `accept` makes a Result of it.)
pub fn log_of(width: u32) -> u32
    ensures { result ≡ log_of width }
{
    log_to_64(width)
}

// The same of the widths up to 64. (Likewise.)
pub fn log_to_64(width: u32) -> u32
    ensures { result ≡ log_to_64 width }
{
    match width {
        8 => 3,
        16 => 4,
        32 => 5,
        64 => 6,
        _ => 0,
    }
}

// The logarithm, or refusal 1 if it is 0, which stands for a width that is not accepted.
pub fn accept(log: u32) -> Result<u32, Refusal>
    ensures { MatchResult result (λ accepted. (accepted ≡ log) × (0 < log)) (λ refusal. (refusal ≡ Refusal.Width) × (log ≡ 0)) }
{
    if log == 0 {
        return Err(Refusal::Width);
    }
    Ok(log)
}

// Whether x has no one at bit `width` or above.
pub fn is_within(width: u32, x: u64) -> bool
    ensures { result ≡ fits width x }
{
    if 64 <= width {
        return true;
    }
    x >> width == 0
}

// The number of ones of x.
pub fn count(x: u64) -> u64
    ensures { result ≡ rank x 64 }
{
    u64::count_ones(x) as u64
}

// internal: a byte. Byte k of the answer is the number of its ones below bit k: its lower seven bits, each in the byte above its own, are
// added up from the right.
fn counts_in(byte: u64) -> u64
    requires { byte < 2 ^ 8 }
    ensures { (result < 2 ^ 59) × ((k : ℕ) → k < 8 → byte_at result k ≡ rank byte k) }
{
    let ones = (((byte % 128) * 0x0002040810204081) & 0x0001010101010101) << 8;
    let twos = ones + (ones << 8);
    let fours = twos + (twos << 16);
    fours + (fours << 32)
}

// internal: room for eight bytes from `first` on. There the bytes of the word, the lowest first. (By a loop, which becomes one store: with
// `copy_from_slice` a call of the decoder took 637 instructions, not 595.)
fn store_bytes(bytes: [u8; 64], first: usize, word: u64) -> [u8; 64]
    requires { first ≤ 56 }
    ensures { result ≡ sets bytes first (up_to 8 (byte_at word)) }
{
    let mut out = bytes;
    for at in 0..8 {
        out[first + at] = ((word >> (8 * at)) % 256) as u8;
    }
    out
}

// internal: a start with which no count is above 255. One pass over the mask from bit 0 up: for each bit, `start` and the number of ones
// below it.
pub fn counts_below(mask: u64, start: u8) -> [u8; 64]
    requires { start < 192 }
    ensures { result ≡ counts_below mask start }
{
    let mut counts = [0u8; 64];
    let mut below = start as u64;
    for part in 0..8usize {
        let first = 8 * part;
        let byte = (mask >> first) % 256;
        let inside = counts_in(byte);
        let eight = below * 0x0101010101010101 + inside;
        below += (inside >> 56) + (byte >> 7);
        let noted = store_bytes(counts, first, eight);
        counts = noted;
    }
    counts
}
