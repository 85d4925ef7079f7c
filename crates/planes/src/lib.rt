// Bit planes: sixty-four bytes to eight planes and back, each by a list of 24 steps (paper 02, Req 03; source document 000).
#![tactic(auto)]

ghost use Rattle.std.specs.Prelude.{◌≡◌, true, ℕ, ◌++◌, ◌+◌, ◌-◌, ◌*◌, ◌/◌, ◌%◌, ◌^◌, ◌<◌, ◌≤◌, replicate};
ghost use Rattle.bits.specs.Bit.{byte_at};
ghost use Rattle.network.specs.Word.{pairs, spread_of};
ghost use Rattle.planes.specs.Planes.{planes_of, words_of_planes};
ghost use Rattle.planes.specs.Steps.{keep_halves, merge_halves, result_of, packing_steps, merging_steps, after_steps, last_eight};
ghost use Rattle.planes.specs.Kinds.{Makes};
ghost use Rattle.planes.specs.Rounds.{fill_steps, step_at, round_steps, round_at, is_step, mirrored_merge};

mod fields;

use fields::{Fields, Kept};

// Eight planes, or the eight words of sixty-four bytes.
#[repr(C)]
#[derive(Clone, Copy)]
pub struct Planes {
    pub words: [u64; 8],
}

// One packing step: the kept halves by turns, then of fields twice as wide, until a field is the word. (By a `for`
// over exponents the rounds are not unrolled: over 5,600 instructions a call in place of 549.)
fn keep_halves(kept: Kept, first: u64, second: u64) -> u64
    ensures { result ≡ keep_halves (2 * kept.fields.half_width) kept.half first second }
{
    let shift = kept.half * kept.fields.half_width;
    let mut fields = kept.fields;
    let mut word = fields.by_turns(first >> shift, second >> shift);
    while fields.half_width < 32 {
        word = fields.crossed(word);
        fields = fields.wider();
    }
    word
}

// The low or the high half of a word, taken apart into the low halves of all fields.
fn apart(kept: Kept, word: u64) -> u64
    ensures { result ≡ spread_of kept.fields.half_width (word / 2 ^ (kept.half * 32) % 2 ^ 32) }
{
    let halves = Fields { half_width: 32 };
    let mut bits = (word >> (kept.half * 32)) & halves.low_halves();
    for exponent in (kept.fields.half_width.trailing_zeros()..5).rev() {
        let fields = Fields {
            half_width: 1 << exponent,
        };
        bits = (bits | (bits << fields.half_width)) & fields.low_halves();
    }
    bits
}

// One merging step, by the packing step that it mirrors.
fn merge_halves(kept: Kept, first: u64, second: u64) -> u64
    ensures { result ≡ mirrored_merge (2 * kept.fields.half_width) kept.half first second }
{
    let kept = kept.mirrored();
    apart(kept, first) | (apart(kept, second) << kept.fields.half_width)
}

// Eight steps, a byte each, the first of them in the low byte. Sources: the first, the second. Fields: their width, the half of each that is
// kept, 0 the low one, 1 the high one. (As arrays of steps the rounds are not unrolled: over 4,500 instructions a call in place of 549.)
#[derive(Clone, Copy)]
struct Round {
    sources: [u64; 2],
    fields: [u64; 2],
}

// The list of 24 packing steps. Words 0 to 7 are the given ones, word 8 + k is the result of step k. The list of merging steps has the same
// sources and halves, and fields of 2, 4 and 8 bits in place of 8, 4 and 2.
const ROUNDS: [Round; 3] = [
    Round {
        sources: [0x0606040402020000, 0x0707050503030101],
        fields: [0x0808080808080808, 0x0100010001000100],
    },
    Round {
        sources: [0x0D0D0C0C09090808, 0x0F0F0E0E0B0B0A0A],
        fields: [0x0404040404040404, 0x0100010001000100],
    },
    Round {
        sources: [0x1313121211111010, 0x1717161615151414],
        fields: [0x0202020202020202, 0x0100010001000100],
    },
];

// internal: the byte of a step in a number of the table.
fn byte_at(bytes: u64, turn: usize) -> u64
    requires { turn < 8 }
    ensures { result ≡ byte_at bytes turn }
{
    (bytes >> (8 * turn)) % 256
}

// internal: a step of a round, of the kind named. What it makes of the words so far. (They are handed on by value: read in
// place, 880 instructions a call in place of 549.)
fn carry_step<F: Fn(Kept, u64, u64) -> u64>(
    step: &F,
    steps: Round,
    turn: usize,
    words: [u64; 32],
) -> u64
    ghost kind: { ℕ → ℕ → ℕ → ℕ → ℕ }
    requires turn { turn < 8 }
    requires listed { is_step (step_at steps turn) ≡ true }
    requires step { Makes kind (F.pre step.now) (F.post step.now) }
    ensures { result ≡ result_of kind (step_at steps turn) words }
{
    let first = words[byte_at(steps.sources[0], turn) as usize];
    let second = words[byte_at(steps.sources[1], turn) as usize];
    let half_width = byte_at(steps.fields[0], turn) / 2;
    let half = byte_at(steps.fields[1], turn);
    step(
        Kept {
            fields: Fields { half_width },
            half,
        },
        first,
        second,
    )
}

// internal: a round by its number, and a step of the kind named. The words with the results of its eight steps.
fn carry_round<F: Fn(Kept, u64, u64) -> u64>(
    step: &F,
    round: usize,
    steps: Round,
    words: [u64; 32],
) -> [u64; 32]
    ghost kind: { ℕ → ℕ → ℕ → ℕ → ℕ }
    requires table { (round < 3) × (steps ≡ round_at round) }
    requires step { Makes kind (F.pre step.now) (F.post step.now) }
    ensures { result ≡ fill_steps kind (8 + 8 * round) (round_steps steps) words }
{
    let mut filled = words;
    for turn in 0..8 {
        filled[8 + 8 * round + turn] = carry_step(step, steps, turn, filled);
    }
    filled
}

// The given words, and room for 24 results. (copy_from_slice would test at run time that both do not overlap, here and below: 35
// instructions a call.)
fn with_room(words: [u64; 8]) -> [u64; 32]
    ensures { result ≡ words ++ replicate 24 0 }
{
    let mut filled = [0u64; 32];
    for at in 0..8 {
        filled[at] = words[at];
    }
    filled
}

// The last eight results.
fn last_eight(words: [u64; 32]) -> [u64; 8]
    ensures { result ≡ last_eight words }
{
    let mut last = [0u64; 8];
    for at in 0..8 {
        last[at] = words[24 + at];
    }
    last
}

// internal: the list of 24 steps carried out, each of the kind named.
fn carry_list<F: Fn(Kept, u64, u64) -> u64>(step: F, words: [u64; 8]) -> [u64; 8]
    ghost kind: { ℕ → ℕ → ℕ → ℕ → ℕ }
    requires step { Makes kind (F.pre step) (F.post step) }
    ensures { result ≡ last_eight (after_steps kind packing_steps words) }
{
    let mut filled = with_room(words);
    for (round, steps) in ROUNDS.iter().enumerate() {
        // (Assigned at once it is not proved: the borrow checker does not cover an array laid in `filled` while `filled` is handed on.)
        let further = carry_round(&step, round, *steps, filled);
        filled = further;
    }
    last_eight(filled)
}

// The planes of sixty-four bytes: bit n of plane p is bit p of byte n.
pub fn to_planes(words: [u64; 8]) -> Planes
    ensures { result ≡ record { words = planes_of words } }
{
    Planes {
        words: carry_list(keep_halves, words),
    }
}

// The way back: the words of the sixty-four bytes whose planes are given.
pub fn from_planes(planes: [u64; 8]) -> Planes
    ensures { result ≡ record { words = words_of_planes planes } }
{
    Planes {
        words: carry_list(merge_halves, planes),
    }
}
