// The first controls of a butterfly followed by an inverse, for any permutation (paper 01, 'Finder').
#![tactic(auto)]

ghost use Rattle.std.specs.Prelude.{◌≡◌, not, suc, ◌+◌, ◌*◌, ◌%◌, ◌^◌, ◌≤◌, ◌<◌, leb, length};
ghost use Rattle.network.specs.Calls.{six};
ghost use Rattle.routing.specs.Marks.{set};
ghost use Rattle.routing.specs.Stages.{Butterfly, Inverse};
ghost use Rattle.routing.specs.Level.{other};
ghost use Rattle.routing.specs.Lists.{ListPermutes, word_of, words_of, first_words};
ghost use Rattle.first.specs.Marks.{mark_of, mark_swaps, swaps_from, controls_in, BlockFits, MarksSet};
ghost use Rattle.first.specs.Blocks.{place_in, Settled, AtLast, Stepped, Halved, Peeled, Routable, BlockRouted, Placed};

// The stages of both networks in the direction of travel.
#[derive(Clone, Copy)]
pub struct Stages {
    pub butterfly: [u32; 6],
    pub inverse: [u32; 6],
}

// What is known of a switch. One that is not settled yet passes. (`Swaps` stands first: specs read it beyond the end of a list, and the control
// bit is then whether the tag is not 0.)
#[derive(Clone, Copy, PartialEq, Eq)]
enum Mark {
    Swaps,
    Passes,
    Unset,
}

impl Mark {
    // The mark of a settled switch.
    fn settled(swap: bool) -> Mark
        ensures { mark_of result ≡ set swap }
    {
        if swap { Mark::Swaps } else { Mark::Passes }
    }

    fn swaps(self) -> bool
        ensures { result ≡ mark_swaps self }
    {
        self == Mark::Swaps
    }
}

// internal: an exponent below 6. Two to its power.
fn power(e: usize) -> usize
    requires { e < 6 }
    ensures { (result ≡ 2 ^ e) × (0 < result) × (result ≤ 32) }
{
    1 << e
}

// A block of the network. Its outer stages have distance 2^exponent: its switches there are number `first` to first + 2^exponent - 1, its
// places begin at 2 * first.
#[derive(Clone, Copy)]
struct Block {
    exponent: usize,
    first: usize,
    ghost fits: { BlockFits exponent first },
}

impl Block {
    // The number of its switches in a stage.
    fn half(self) -> usize
        ensures { (result ≡ 2 ^ self.exponent) × (0 < result) × (result ≤ 32) }
    {
        power(self.exponent)
    }

    // The switch of a bit or place.
    fn switch_of(self, x: usize) -> usize
        ensures { (result ≡ x % 2 ^ self.exponent) × (result < 2 ^ self.exponent) }
    {
        x % self.half()
    }

    // internal: a bit or place of the block. The other one of its switch.
    fn other_of(self, x: usize) -> usize
        requires { x < 2 ^ suc self.exponent }
        ensures { result ≡ other self.exponent x }
    {
        (x + self.half()) % (2 * self.half())
    }

    // internal: a bit or place of the block. Its entry.
    fn entry_of(self, entries: &[u8; 64], x: usize) -> usize
        requires { x < 2 ^ suc self.exponent }
        ensures { result ≡ place_in entries.now self.first x }
    {
        usize::from(entries[2 * self.first + x])
    }
}

// The marks of all switches: that of switch s stands at 32e + s for the butterfly's stage of distance 2^e, and at 192 + 32e + s for the
// inverse's. (One array, as specs/Marks has it: `row`.)
#[derive(Drop)]
struct Marks {
    switches: [Mark; 384],
}

// A permutation and its inverse, or those of the blocks that are left.
#[derive(Drop)]
struct Permutation {
    to: [u8; 64],
    from: [u8; 64],
}

impl Marks {
    // internal: a place that is fed from the upper half. That settles its last switch. (One function for this and the next would be given
    // the row and which half swaps, which is all that either says.)
    fn mark_last(&mut self, block: Block, place: usize)
        ensures { MarksSet block.exponent block.first (Inverse block.exponent) (place % 2 ^ block.exponent) (not (leb (2 ^ block.exponent) place)) self.old.switches self.new.switches }
    {
        let mark = Mark::settled(place < block.half());
        self.switches[192 + 32 * block.exponent + block.first + block.switch_of(place)] = mark;
    }

    // internal: a bit that goes to the lower half. That settles its first switch.
    fn mark_first(&mut self, block: Block, bit: usize)
        ensures { MarksSet block.exponent block.first (Butterfly block.exponent) (bit % 2 ^ block.exponent) (leb (2 ^ block.exponent) bit) self.old.switches self.new.switches }
    {
        let mark = Mark::settled(block.half() <= bit);
        self.switches[32 * block.exponent + block.first + block.switch_of(bit)] = mark;
    }

    // internal: round the loop of switch `start`, from a bit that goes to the upper half. Each turn settles the last switch of the bit's
    // place; the bit that takes the other place there goes to the lower half, which settles its first switch, unless the loop is closed; the
    // other bit there goes to the upper half.
    fn walk(&mut self, permutation: &Permutation, block: Block, start: usize, mut bit: usize)
        requires { AtLast block.exponent block.first permutation.now.to permutation.now.from start bit self.old.switches }
        ensures { Stepped block.exponent block.first permutation.now.to permutation.now.from (suc start) self.old.switches self.new.switches }
    {
        loop {
            let place = block.entry_of(&permutation.from, bit);
            self.mark_last(block, place);
            let next = block.entry_of(&permutation.to, block.other_of(place));
            if block.switch_of(next) == start {
                return;
            }
            self.mark_first(block, next);
            bit = block.other_of(next);
        }
    }

    // internal: a switch of the outer stages with those below it settled. It passes if it is not settled yet.
    fn visit(&mut self, permutation: &Permutation, block: Block, s: usize)
        requires { (s < 2 ^ block.exponent) × (Settled block.exponent block.first permutation.now.to permutation.now.from s self.old.switches) }
        ensures { Stepped block.exponent block.first permutation.now.to permutation.now.from (suc s) self.old.switches self.new.switches }
    {
        if self.switches[32 * block.exponent + block.first + s] == Mark::Unset {
            self.mark_first(block, s);
            self.walk(permutation, block, s, block.half() + s);
        }
    }

    // internal: a block with no switch settled. Its outer stages.
    fn settle(&mut self, permutation: &Permutation, block: Block)
        requires { Routable block.exponent block.first permutation.now.to permutation.now.from self.old.switches }
        ensures { Stepped block.exponent block.first permutation.now.to permutation.now.from (2 ^ block.exponent) self.old.switches self.new.switches }
    {
        let half = block.half();
        for s in 0..half {
            self.visit(permutation, block, s);
        }
    }

    // internal: the marks of one of the block's outer stages. The permutation between the outer stages: each half by itself. Both entries of a
    // switch are read first, so that no branch hangs on the mark.
    fn halve(&self, entries: &mut [u8; 64], at: usize, block: Block)
        requires { at + 2 ^ block.exponent ≤ 384 }
        ensures { Halved block.exponent block.first (swaps_from self.now.switches at) entries.old entries.new }
    {
        let half = block.half();
        for q in 0..half {
            let swap = self.switches[at + q].swaps();
            let low = entries[2 * block.first + q];
            let high = entries[2 * block.first + q + half];
            let (lower, upper) = if swap { (high, low) } else { (low, high) };
            entries[2 * block.first + q] = lower % (half as u8);
            entries[2 * block.first + q + half] = upper % (half as u8);
        }
    }

    // internal: a block with no switch settled. Its outer stages, and the permutation between them. It has a frame of its own, so that a
    // level of `route` keeps little on the stack.
    #[inline(never)]
    fn peel(&mut self, permutation: &mut Permutation, block: Block)
        requires { Routable block.exponent block.first permutation.old.to permutation.old.from self.old.switches }
        ensures { Peeled block.exponent block.first permutation.old.to permutation.old.from self.old.switches permutation.new.to permutation.new.from self.new.switches }
    {
        self.settle(permutation, block);
        self.halve(
            &mut permutation.to,
            192 + 32 * block.exponent + block.first,
            block,
        );
        self.halve(
            &mut permutation.from,
            32 * block.exponent + block.first,
            block,
        );
    }

    // internal: a block with no switch settled. Its outer stages, then each half, which has one stage less on either side.
    fn route(&mut self, permutation: &mut Permutation, block: Block)
        requires { Routable block.exponent block.first permutation.old.to permutation.old.from self.old.switches }
        ensures { BlockRouted block.exponent block.first permutation.old.to permutation.old.from self.old.switches permutation.new.to permutation.new.from self.new.switches }
    {
        self.peel(permutation, block);
        if block.exponent == 0 {
            return;
        }
        let exponent = block.exponent - 1;
        let first = block.first;
        self.route(permutation, Block { exponent, first });
        let first = block.first + power(exponent);
        self.route(permutation, Block { exponent, first })
    }

    // internal: at most 32 marks. The control bits of a stage as a word.
    fn word(&self, at: usize, count: usize) -> u32
        requires { (count ≤ 32) × (at + count ≤ 384) }
        ensures { result ≡ word_of count (swaps_from self.now.switches at) }
    {
        let mut word = 0;
        for s in (0..count).rev() {
            word = 2 * word + u32::from(!self.switches[at + s].swaps());
        }
        word
    }

    // internal: a logarithm of 1 to 6. The words of all stages.
    fn words(&self, log: usize) -> Stages
        requires { (0 < log) × (log ≤ 6) }
        ensures { (result.butterfly ≡ six (words_of log (controls_in 0 self.now.switches)).butterfly) × (result.inverse ≡ six (words_of log (controls_in 0 self.now.switches)).inverse) }
    {
        let count = power(log - 1);
        let mut butterfly = [0u32; 6];
        let mut inverse = [0u32; 6];
        for i in 0..log {
            butterfly[i] = self.word(32 * (log - 1 - i), count);
            inverse[i] = self.word(192 + 32 * i, count);
        }
        Stages { butterfly, inverse }
    }
}

impl Permutation {
    // internal: a permutation of at most 64 places. It and its inverse.
    fn of(entries: &[u8]) -> Permutation
        requires { (length entries.now ≤ 64) × (ListPermutes (length entries.now) entries.now) }
        ensures { Placed (length entries.now) entries.now result.to result.from }
    {
        let mut permutation = Permutation {
            to: [0; 64],
            from: [0; 64],
        };
        for (place, entry) in entries.iter().enumerate() {
            permutation.to[place] = *entry;
            permutation.from[usize::from(*entry)] = place as u8;
        }
        permutation
    }
}

// internal: a logarithm of at most 6, and a permutation of that width. Its first controls. (Two parameters: its signature stands.)
pub fn controls(log: usize, entries: &[u8]) -> Stages
    requires { (log ≤ 6) × ListPermutes (2 ^ log) entries.now }
    ensures { (result.butterfly ≡ six (first_words log entries.now).butterfly) × (result.inverse ≡ six (first_words log entries.now).inverse) }
{
    if log == 0 {
        return Stages {
            butterfly: [0u32; 6],
            inverse: [0u32; 6],
        };
    }
    let mut marks = Marks {
        switches: [Mark::Unset; 384],
    };
    let mut permutation = Permutation::of(entries);
    marks.route(
        &mut permutation,
        Block {
            exponent: log - 1,
            first: 0,
        },
    );
    marks.words(log)
}
