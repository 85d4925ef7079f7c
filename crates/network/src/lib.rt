// Stages, both networks and the decoder from a mask to their controls (paper 01, 'Columns' and 'Decoder'; demand 3, its first half).
#![tactic(auto)]

ghost use Rattle.std.specs.Prelude.{◌≡◌, ◌+◌, ◌-◌, ◌*◌, ◌^◌, ◌≤◌, ◌<◌, Bool, cond, true, false, reverse, take, MatchResult};
ghost use Rattle.bits.specs.Bit.{of_bits};
ghost use Rattle.bits.specs.Refusal.{log_of, number_of, number_in};
ghost use Rattle.network.specs.Stage.{falling, rising, butterfly_of, inverse_of};
ghost use Rattle.network.specs.Word.{spread_of, swaps_of, swaps_at, exchange_of, exchanges_of, exchanges, by_index, travel_of};
ghost use Rattle.network.specs.Decoder.{turned, control_by, decode_of, decode_inverse_of, in_use};
ghost use Rattle.network.specs.Calls.{used_bits, controls_fit, network_refusal, network_answer, carried_by, prepare_answer, six, decode_refusal, decode_answer, no_controls, decoded_with};

use bits::Refusal;

// The control bits of one network: six stages in the direction of travel (paper 01: settings). One passes, zero swaps.
#[repr(C)]
#[derive(Clone, Copy)]
pub struct Controls {
    pub stages: [u32; 6],
}

// What a network answers: 0 and the word, or the number of the refusal and a zero. (No Result: it is what C gets, as the next two.)
#[repr(C)]
#[derive(Clone, Copy)]
pub struct Carried {
    pub refusal: u8,
    pub word: u64,
}

// A prepared network, for many words: 0 and for each stage, from the widest, ones at the lower places of the pairs that swap; or the number
// of the refusal and zeros.
#[repr(C)]
#[derive(Clone, Copy)]
pub struct Prepared {
    pub refusal: u8,
    pub swaps: [u64; 6],
}

// What the decoder answers: 0 and the controls of both networks, or the number of the refusal and zeros.
#[repr(C)]
#[derive(Clone, Copy)]
pub struct Decoded {
    pub refusal: u8,
    pub butterfly: Controls,
    pub inverse: Controls,
}

// The distances of the stages at width 64, and for each the word that marks the lower place of every pair. (Two arrays: both are public.
// That an index of theirs is below 6 stands in five contracts: a type of index would be taken apart in each.)
pub const DISTANCES: [u64; 6] = [32, 16, 8, 4, 2, 1];

pub const PAIRS: [u64; 6] = [
    0x00000000FFFFFFFF,
    0x0000FFFF0000FFFF,
    0x00FF00FF00FF00FF,
    0x0F0F0F0F0F0F0F0F,
    0x3333333333333333,
    0x5555555555555555,
];

// internal: a stage of the table, from `first` down, and no more control bits than that one's distance. The control bits, each brought to
// the lower place of its switch: at each stage down the table the two halves of every block move apart.
fn spread(first: usize, index: usize, stage: u32) -> u64
    requires { (first ≤ index) × (index < 6) × (stage < 2 ^ 2 ^ (5 - first)) }
    ensures { result ≡ spread_of (2 ^ (5 - index)) stage }
{
    let mut bits = stage as u64;
    for at in first + 1..index + 1 {
        bits = (bits | (bits << DISTANCES[at])) & PAIRS[at];
    }
    bits
}

// internal: the same stage. The lower places of the pairs that swap.
fn swaps(first: usize, index: usize, stage: u32) -> u64
    requires { (first ≤ index) × (index < 6) × (stage < 2 ^ 2 ^ (5 - first)) }
    ensures { result ≡ swaps_of (2 ^ (5 - index)) stage }
{
    PAIRS[index] & !spread(first, index, stage)
}

// internal: a distance within a word. The bits at the places that `swaps` marks and those at the distance above them are exchanged, all at
// once. (No bit should take part twice, and none beyond the word.)
pub fn exchange_marked(distance: u64, swaps: u64, word: u64) -> u64
    requires { distance < 64 }
    ensures { result ≡ exchange_of distance swaps word }
{
    let differ = (word ^ (word >> distance)) & swaps;
    word ^ differ ^ (differ << distance)
}

// internal: a stage of the table. The pairs whose lower places `swaps` marks are exchanged. (No other place should be marked.)
fn exchange(index: usize, swaps: u64, word: u64) -> u64
    requires { index < 6 }
    ensures { result ≡ exchange_of (2 ^ (5 - index)) swaps word }
{
    let distance = DISTANCES[index];
    exchange_marked(distance, swaps, word)
}

// An accepted width and its base-two logarithm, the number of its stages: they are the last ones of the table.
#[derive(Clone, Copy)]
struct Width {
    bits: u32,
    log: usize,
    ghost positive: { 0 < log },
    ghost in_table: { log ≤ 6 },
    ghost is_log: { log ≡ log_of bits },
}

// The direction of a network: which of its stages a word passes first.
trait Direction {
    ghost is_rising: { Bool };

    // internal: a stage in use, by its index in the table. Its number in the direction of travel.
    fn stage_at(width: Width, index: usize) -> usize
        requires { (6 - width.log ≤ index) × (index < 6) }
        ensures { (result < 6) × (result ≡ cond is_rising (5 - index) (index - (6 - width.log))) };

    // internal: a stage in use, by its number in the direction of travel. Its index in the table.
    fn index_of(width: Width, at: usize) -> usize
        requires { at < width.log }
        ensures { (6 - width.log ≤ result) × (result < 6) × (result ≡ cond is_rising (5 - at) (6 - width.log + at)) };
}

// The butterfly: the widest stage first.
struct Falling;

impl Direction for Falling {
    ghost is_rising = { false };

    fn stage_at(width: Width, index: usize) -> usize {
        index - (6 - width.log)
    }

    fn index_of(width: Width, at: usize) -> usize {
        6 - width.log + at
    }
}

// The inverse: the narrowest stage first.
struct Rising;

impl Direction for Rising {
    ghost is_rising = { true };

    fn stage_at(_: Width, index: usize) -> usize {
        5 - index
    }

    fn index_of(_: Width, at: usize) -> usize {
        5 - at
    }
}

impl Width {
    ghost use Rattle.network.specs.declared.Width.{Width};

    const EIGHT: Width = Width { bits: 8, log: 3 };

    const SIXTEEN: Width = Width { bits: 16, log: 4 };

    const THIRTY_TWO: Width = Width { bits: 32, log: 5 };

    const SIXTY_FOUR: Width = Width { bits: 64, log: 6 };

    // internal: a call at an accepted width; any other is refused. Each width has its own branch, so that the compiler knows the stages in
    // use. (64 apart: four tests of equality become a jump through a table, which costs more at every width, docs/DECISIONS.md.)
    fn call<T, F: FnOnce(Width) -> Result<T, Refusal>>(bits: u32, at: F) -> Result<T, Refusal>
        requires { F.IsAlwaysCallable at }
        ensures accepted { 0 < log_of bits → ((width : Width) × (width.bits ≡ bits) × F.post at width result) }
        ensures refused { log_of bits ≡ 0 → result ≡ Err Refusal.Width }
    {
        if bits < 64 {
            return match bits {
                8 => at(Width::EIGHT),
                16 => at(Width::SIXTEEN),
                32 => at(Width::THIRTY_TWO),
                _ => Err(Refusal::Width),
            };
        }
        if bits == 64 {
            return at(Width::SIXTY_FOUR);
        }
        Err(Refusal::Width)
    }

    // All six stages of a network by their index in the table; one that is not in use passes every bit.
    fn by_index<D: Direction>(self, stages: [u32; 6]) -> [u32; 6]
        ensures { result ≡ by_index D.is_rising self.log stages }
    {
        let mut placed = [0xFFFFFFFFu32; 6];
        for index in 6 - self.log..6 {
            placed[index] = stages[D::stage_at(self, index)];
        }
        placed
    }

    // internal: controls that fit the width and a word of it. Through the network, by the stages in use alone.
    fn send<D: Direction>(self, stages: [u32; 6], word: u64) -> u64
        requires { (word < 2 ^ 2 ^ self.log) × (controls_fit self.log 0 stages ≡ true) }
        ensures { result ≡ travel_of D.is_rising self.log stages word }
    {
        let mut carried = word;
        for at in 0..self.log {
            let index = D::index_of(self, at);
            carried = exchange(index, swaps(6 - self.log, index, stages[at]), carried);
        }
        carried
    }

    // How many control bits stage `at` uses.
    fn used_bits(self, at: usize) -> u32
        ensures { result ≡ used_bits self.log at }
    {
        if at < self.log {
            return 1 << (self.log - 1);
        }
        0
    }

    // Whether no unused control bit is one. (All are joined, so that no branch hangs on one.)
    fn is_used_only(self, stages: [u32; 6]) -> bool
        ensures { result ≡ controls_fit self.log 0 stages }
    {
        let mut unused: u64 = 0;
        for (at, stage) in stages.iter().enumerate() {
            unused |= (*stage as u64) >> self.used_bits(at);
        }
        unused == 0
    }

    // The lowest refusal of a call on a network, if there is one.
    fn check(self, stages: [u32; 6], word: u64) -> Result<(), Refusal>
        ensures { number_in result ≡ network_refusal self.bits stages word }
    {
        if !bits::is_within(self.bits, word) {
            return Err(Refusal::Above);
        }
        if !self.is_used_only(stages) {
            return Err(Refusal::Unused);
        }
        Ok(())
    }

    // A call on a network.
    fn carry<D: Direction>(self, controls: Controls, word: u64) -> Result<u64, Refusal>
        ensures { carried_by result ≡ network_answer (travel_of D.is_rising) self.bits controls word }
    {
        let stages = controls.stages;
        self.check(stages, word)?;
        Ok(self.send::<D>(stages, word))
    }

    // The stages that a call which prepares a network makes the swaps of, by their index in the table.
    fn place<D: Direction>(self, stages: [u32; 6]) -> Result<[u32; 6], Refusal>
        ensures { MatchResult result (λ placed. (network_refusal self.bits stages 0 ≡ 0) × (placed ≡ by_index D.is_rising (log_of self.bits) stages))
            (λ refusal. network_refusal self.bits stages 0 ≡ number_of refusal) }
    {
        self.check(stages, 0)?;
        Ok(self.by_index::<D>(stages))
    }

    // Of the butterfly's controls at width 64: the last stages, and of each the bits in use.
    fn narrowed(self, stages: [u32; 6]) -> [u32; 6]
        ensures { result ≡ six (in_use self.log stages) }
    {
        let used = 1 << (1u64 << (self.log - 1));
        let mut out = [0u32; 6];
        for (at, stage) in stages[6 - self.log..].iter().enumerate() {
            out[at] = ((*stage as u64) % used) as u32;
        }
        out
    }

    // The stages in use in reversed order, zeros after them. (By the index: std's `reverse` is of a whole array.)
    fn reversed(self, stages: [u32; 6]) -> [u32; 6]
        ensures { result ≡ six (reverse (take self.log stages)) }
    {
        let mut out = [0u32; 6];
        for at in 0..self.log {
            out[at] = stages[self.log - 1 - at];
        }
        out
    }

    // The decoder's answer, from the butterfly's controls at width 64.
    fn both_networks(self, wide: [u32; 6]) -> Decoded
        ensures { result ≡ decoded_with (in_use self.log wide) }
    {
        let stages = self.narrowed(wide);
        Decoded {
            refusal: bits::CARRIED_OUT,
            butterfly: Controls { stages },
            inverse: Controls {
                stages: self.reversed(stages),
            },
        }
    }
}

// internal: the swaps of six stages by their index in the table. They serve any number of words.
pub fn prepare(stages: [u32; 6]) -> [u64; 6]
    ensures { result ≡ swaps_at (falling 6) stages }
{
    let mut words = [0u64; 6];
    for (index, stage) in stages.iter().enumerate() {
        words[index] = swaps(0, index, *stage);
    }
    words
}

// The word through six stages in the direction of a network: the pairs whose lower places each word marks are exchanged.
fn exchange_all<D: Direction>(words: [u64; 6], word: u64) -> u64
    ensures { result ≡ exchanges D.is_rising words word }
{
    let mut carried = word;
    for at in 0..6 {
        let index = D::index_of(Width::SIXTY_FOUR, at);
        carried = exchange(index, words[index], carried);
    }
    carried
}

// The word through six stages, the widest first: the pairs whose lower places each word marks are exchanged.
pub fn butterfly_prepared(words: [u64; 6], word: u64) -> u64
    ensures { result ≡ exchanges_of (falling 6) words word }
{
    exchange_all::<Falling>(words, word)
}

// The word through the same six stages, the narrowest first.
pub fn inverse_prepared(words: [u64; 6], word: u64) -> u64
    ensures { result ≡ exchanges_of (rising 6) (reverse words) word }
{
    exchange_all::<Rising>(words, word)
}

// The answer of a call on a network. (By the number: it is public, and its promise stands.)
pub fn answer(refusal: u8, word: u64) -> Carried
    ensures { result ≡ record { refusal = refusal; word = word } }
{
    Carried { refusal, word }
}

impl From<Result<u64, Refusal>> for Carried {
    ghost from_gives = { λ outcome carried. carried ≡ carried_by outcome };

    fn from(outcome: Result<u64, Refusal>) -> Carried {
        match outcome {
            Ok(word) => answer(bits::CARRIED_OUT, word),
            Err(refusal) => answer(u8::from(refusal), 0),
        }
    }
}

// The answer of a call that prepares a network. (In one place, which the edit prepare_refuses_everything turns.)
fn prepare_answer(refusal: u8, swaps: [u64; 6]) -> Prepared
    ensures { result ≡ record { refusal = refusal; swaps = swaps } }
{
    Prepared { refusal, swaps }
}

// A call on a network, at any width.
fn carry<D: Direction>(width: u32, controls: Controls, word: u64) -> Result<u64, Refusal>
    ensures { carried_by result ≡ network_answer (travel_of D.is_rising) width controls word }
{
    Width::call(width, |at| at.carry::<D>(controls, word))
}

// The word through the butterfly: distances w/2, .., 2, 1.
pub fn butterfly(width: u32, controls: Controls, word: u64) -> Carried
    ensures { result ≡ network_answer butterfly_of width controls word }
{
    Carried::from(carry::<Falling>(width, controls, word))
}

// The word through the inverse butterfly: distances 1, 2, .., w/2.
pub fn inverse(width: u32, controls: Controls, word: u64) -> Carried
    ensures { result ≡ network_answer inverse_of width controls word }
{
    Carried::from(carry::<Rising>(width, controls, word))
}

// The same, at any width.
fn in_table<D: Direction>(width: u32, stages: [u32; 6]) -> Result<[u32; 6], Refusal>
    ensures { MatchResult result (λ placed. (network_refusal width stages 0 ≡ 0) × (placed ≡ by_index D.is_rising (log_of width) stages))
        (λ refusal. network_refusal width stages 0 ≡ number_of refusal) }
{
    Width::call(width, |at| at.place::<D>(stages))
}

// A call that prepares a network.
fn prepare_network<D: Direction>(width: u32, controls: Controls) -> Prepared
    ensures { result ≡ prepare_answer D.is_rising width controls }
{
    let placed = match in_table::<D>(width, controls.stages) {
        Ok(placed) => placed,
        Err(refusal) => return prepare_answer(u8::from(refusal), [0u64; 6]),
    };
    prepare_answer(bits::CARRIED_OUT, prepare(placed))
}

// The butterfly, prepared: `butterfly_prepared` then sends any number of words through it.
pub fn prepare_butterfly(width: u32, controls: Controls) -> Prepared
    ensures { result ≡ prepare_answer false width controls }
{
    prepare_network::<Falling>(width, controls)
}

// The inverse, prepared: `inverse_prepared` then sends any number of words through it.
pub fn prepare_inverse(width: u32, controls: Controls) -> Prepared
    ensures { result ≡ prepare_answer true width controls }
{
    prepare_network::<Rising>(width, controls)
}

// internal: a distance of 1 to 32. As many zeros turned left `count` steps: as many ones come in at the right and go out at the left.
fn turned_bits(distance: u64, count: u8) -> u64
    requires { (0 < distance) × (distance ≤ 32) }
    ensures { result ≡ turned distance count }
{
    let ones = (1 << distance) - 1;
    let steps = (count as u64) % (2 * distance);
    ((ones << steps) >> distance) & ones
}

// internal: the counts below 64 bits, and at most 32 control bits, `distance` for each block. The control bits of one stage: those of a
// block are turned by the count below the middle of its pairs.
fn stage_bits(distance: u64, blocks: u64, counts: [u8; 64]) -> u64
    requires { (0 < distance) × (distance * blocks ≤ 32) }
    ensures { result ≡ of_bits (distance * blocks) (control_by distance counts) }
{
    let mut out: u64 = 0;
    for block in 0..blocks {
        let count = counts[(2 * block * distance + distance) as usize];
        out += turned_bits(distance, count) << (distance * block);
    }
    out
}

// internal: the butterfly's controls for a mask at width 64, all of them from the counts of one pass
pub fn decode_64(mask: u64) -> [u32; 6]
    ensures { result ≡ decode_of 6 mask }
{
    let counts = bits::counts_below(mask, 0);
    let mut stages = [0u32; 6];
    for at in 0..6 {
        stages[at] = stage_bits(1 << (5 - at), 1 << at, counts) as u32;
    }
    stages
}

// internal: the inverse's controls for a mask at width 64
pub fn decode_inverse_64(mask: u64) -> [u32; 6]
    ensures { result ≡ decode_inverse_of 6 mask }
{
    let mut stages = decode_64(mask);
    stages.reverse();
    stages
}

// The lowest refusal of a call of the decoder, if there is one.
fn check_mask(width: u32, mask: u64) -> Result<(), Refusal>
    ensures { number_in result ≡ decode_refusal width mask }
{
    bits::accept(bits::log_of(width))?;
    if !bits::is_within(width, mask) {
        return Err(Refusal::Above);
    }
    Ok(())
}

// A refused answer of the decoder.
impl From<Refusal> for Decoded {
    ghost from_gives = { λ refusal decoded. decoded ≡ no_controls refusal };

    fn from(refusal: Refusal) -> Decoded {
        let none = Controls { stages: [0u32; 6] };
        Decoded {
            refusal: u8::from(refusal),
            butterfly: none,
            inverse: none,
        }
    }
}

// The controls of both networks that route by the mask: the butterfly scatters, the inverse gathers. By each width, so that the compiler
// knows the stages in use; not by `Width::call`, whose closure would have the whole decoder in each branch.
pub fn decode(width: u32, mask: u64) -> Decoded
    ensures { result ≡ decode_answer width mask }
{
    if let Err(refusal) = check_mask(width, mask) {
        return Decoded::from(refusal);
    }
    let wide = decode_64(mask);
    match width {
        8 => Width::EIGHT.both_networks(wide),
        16 => Width::SIXTEEN.both_networks(wide),
        32 => Width::THIRTY_TWO.both_networks(wide),
        _ => Width::SIXTY_FOUR.both_networks(wide),
    }
}
