// Packed fields: the bits that a mask marks in each of many words, end to end (paper 01, 'Strips'; paper 02, Reqs 01 and 02; demand 2).
#![tactic(auto)]

ghost use Rattle.std.specs.Prelude.{◌≡◌, ◌+◌, ◌-◌, ◌*◌, ◌%◌, ◌≤◌, ◌<◌, not, eqb, length, MatchResult, ◌++◌, drop};
ghost use Rattle.gather.specs.Gather.{gather_of, scatter_of};
ghost use Rattle.bits.specs.Bit.{up_to, overwritten};
ghost use Rattle.bits.specs.Refusal.{number_of};
ghost use Rattle.pack.specs.Fields.{size_of, needed, stream_of, pack_into, spare_bits, scattered_at};
ghost use Rattle.pack.specs.Moves.{Parities, Moves};
ghost use Rattle.pack.specs.Calls.{fields_refusal, unpack_refusal, fields_answer, pack_answer, packed_out, unpack_answer, unpacked_out};

use bits::Refusal;

// What a call answers: 0, the count of the mask's ones and the number of bits, or the number of the refusal and zeros.
#[repr(C)]
#[derive(Clone, Copy)]
pub struct Packed {
    pub refusal: u8,
    pub count: u32,
    pub bits: u64,
}

impl From<Refusal> for Packed {
    ghost from_gives = { λ refusal answer. answer ≡ record { refusal = number_of refusal; count = 0; bits = 0 } };

    fn from(refusal: Refusal) -> Packed {
        Packed {
            refusal: u8::from(refusal),
            count: 0,
            bits: 0,
        }
    }
}

// The longest slice of words that is accepted.
const LONGEST: usize = 2048;

// A place in packed words: the next word to be written or read. `pending` has `held` bits, put and not yet written, or read and not yet taken.
#[derive(Clone, Copy)]
struct Cursor {
    word: usize,
    held: u64,
    pending: u64,
    ghost within: { held < 64 },
}

// The fields of two words.
#[derive(Clone, Copy)]
struct Pair {
    low: u64,
    high: u64,
}

impl Cursor {
    ghost use Rattle.pack.specs.Cursor.{IsStart, finished};

    // before the first field
    fn start() -> Cursor
        ensures { IsStart result }
    {
        Cursor {
            word: 0,
            held: 0,
            pending: 0,
        }
    }

    // internal: room for the word begun, if there is one. It is written.
    fn finish(self, out: &mut [u64])
        requires { (self.held ≡ 0 → ⊥) → self.word < length out.old }
        ensures { out.new ≡ finished self out.old }
    {
        if self.held == 0 {
            return;
        }
        let word = self.word;
        out[word] = self.pending;
    }
}

// Bit q is the parity of bits 0 to q of x. A turn doubles how many bits are summed.
fn parities(x: u64) -> u64
    ensures { Parities x result }
{
    let mut sums = x;
    for i in 0..6u64 {
        sums ^= sums << (1u64 << i);
    }
    sums
}

// Bit q of word i is bit i of the number of unmarked places below q. `ones` has that many ones up to q; a turn clears those of odd
// number, which halves every count.
fn moves(mask: u64) -> [u64; 6]
    ensures { Moves mask 6 result }
{
    let mut words = [0u64; 6];
    let mut ones = !mask << 1;
    for i in 0..6 {
        let word = parities(ones);
        words[i] = word;
        ones &= !word;
    }
    words
}

// Fields of fewer than 64 bits: the mask that marks them, how many bits one has, and the moves that gather it.
#[derive(Clone, Copy)]
struct Fields {
    mask: u64,
    size: u64,
    moves: [u64; 6],
    ghost sized: { size ≡ size_of mask },
    ghost short: { size < 64 },
    ghost gathers: { Moves mask 6 moves },
}

impl Fields {
    ghost use Rattle.pack.specs.Cursor.{Holds, Begins, Puts, PutsPair, Gathers, Awaits, Takes};

    // Gather: a marked bit goes down by the number of unmarked places below it, one power of two a turn.
    fn gathered(&self, word: u64) -> u64
        ensures { result ≡ gather_of 64 self.now.mask word }
    {
        let mut out = word & self.mask;
        for i in 0..6 {
            let moved = out & self.moves[i];
            out = (out ^ moved) | (moved >> (1u64 << i));
        }
        out
    }

    // Scatter: the same moves upward, from the last.
    fn scattered(&self, word: u64) -> u64
        ensures { result ≡ scatter_of 64 self.now.mask word }
    {
        let mut out = word;
        for i in (0..6).rev() {
            out ^= (out ^ (out << (1u64 << i))) & self.moves[i];
        }
        out & self.mask
    }

    // internal: words i and i + 1. Their fields.
    fn gathered_pair(&self, words: &[u64], i: usize) -> Pair
        requires { i + 1 < length words.now }
        ensures { Gathers self.now.mask words.now i result }
    {
        Pair {
            low: self.gathered(words[i]),
            high: self.gathered(words[i + 1]),
        }
    }

    // The cursor before the words that go in pairs: the first of an odd number is put.
    fn write_first(&self, words: &[u64]) -> Cursor
        ensures { Begins self.now.mask words.now result }
    {
        if words.len() % 2 == 0 {
            return Cursor::start();
        }
        Cursor {
            word: 0,
            held: self.size,
            pending: self.gathered(words[0]),
        }
    }

    // internal: room for the word that the field completes, if it does. The field is appended.
    fn put(&self, cursor: &mut Cursor, field: u64, out: &mut [u64])
        requires { 64 ≤ cursor.old.held + self.now.size → cursor.old.word < length out.old }
        ensures { Puts cursor.old self.now.size field out.old cursor.new out.new }
    {
        let size = self.size;
        let Cursor {
            word,
            held,
            pending,
        } = *cursor;
        let pending = pending | (field << held);
        if held + size < 64 {
            *cursor = Cursor {
                word,
                held: held + size,
                pending,
            };
            return;
        }
        out[word] = pending;
        *cursor = Cursor {
            word: word + 1,
            held: held + size - 64,
            pending: (field >> 1) >> (63 - held),
        };
    }

    // internal: room for the words that the fields complete. One after the other.
    fn put_pair(&self, cursor: &mut Cursor, pair: Pair, out: &mut [u64])
        requires { 64 * cursor.old.word + cursor.old.held + (self.now.size + self.now.size) ≤ 64 * length out.old }
        ensures { PutsPair cursor.old self.now.size pair out.old cursor.new out.new }
    {
        self.put(cursor, pair.low, out);
        self.put(cursor, pair.high, out);
    }

    // internal: room for the fields. All are put, and the last word begun is not written. A turn gathers the pair that the next one puts: as the
    // loop carries both fields on, the compiler makes them at once, in one vector. By numbers: a pass over `chunks_exact(2)` is no plainer, as its
    // first chunk, taken before the loop, is an `Option` to open.
    fn write_pairs(&self, words: &[u64], out: &mut [u64]) -> Cursor
        requires { needed (size_of self.now.mask * length words.now) ≤ length out.old }
        ensures { Holds (stream_of self.now.mask words.now) (size_of self.now.mask * length words.now) result out.old out.new }
    {
        let mut cursor = self.write_first(words);
        if words.len() < 2 {
            return cursor;
        }
        let first = words.len() % 2;
        let mut pair = self.gathered_pair(words, first);
        for at in 1..words.len() / 2 {
            self.put_pair(&mut cursor, pair, out);
            pair = self.gathered_pair(words, first + 2 * at);
        }
        self.put_pair(&mut cursor, pair, out);
        cursor
    }

    // internal: a further word, if the field needs it. The next field is read: bits of the answer above `size` are not looked at.
    fn take(&self, cursor: &mut Cursor, packed: &[u64]) -> u64
        requires { cursor.old.held < self.now.size → cursor.old.word < length packed.now }
        ensures { Takes packed.now cursor.old self.now.size result cursor.new }
    {
        let size = self.size;
        let Cursor {
            word,
            held,
            pending,
        } = *cursor;
        if size <= held {
            *cursor = Cursor {
                word,
                held: held - size,
                pending: pending >> size,
            };
            return pending;
        }
        let read = packed[word];
        *cursor = Cursor {
            word: word + 1,
            held: held + 64 - size,
            pending: (read >> 1) >> (size - held - 1),
        };
        pending | (read << held)
    }

    // internal: words enough for the fields, and two words or more to write. The cursor before the fields that go in pairs: the first of an odd
    // number is scattered, and the second with it, which comes again.
    fn read_first(&self, packed: &[u64], out: &mut [u64]) -> Cursor
        requires { (needed (size_of self.now.mask * length out.old) ≤ length packed.now) × (1 < length out.old) }
        ensures { Awaits packed.now (size_of self.now.mask * (length out.old % 2)) result
            × (out.new ≡ overwritten (length out.old % 2) (scattered_at self.now.mask packed.now) out.new) }
    {
        let mut cursor = Cursor::start();
        if out.len() % 2 == 0 {
            return cursor;
        }
        let low = self.take(&mut cursor, packed);
        let mut ahead = cursor;
        let high = self.take(&mut ahead, packed);
        out[0] = self.scattered(low);
        out[1] = self.scattered(high);
        cursor
    }

    // internal: as read_first. Each field is scattered into a word of `out`. As a turn writes two words side by side, the compiler makes them at
    // once, in one vector. By numbers: of words written through `chunks_exact_mut` only their number is known afterwards.
    fn read_pairs(&self, packed: &[u64], out: &mut [u64])
        requires { (needed (size_of self.now.mask * length out.old) ≤ length packed.now) × (1 < length out.old) }
        ensures { out.new ≡ up_to (length out.old) (scattered_at self.now.mask packed.now) }
    {
        let len = out.len();
        let mut cursor = self.read_first(packed, out);
        for at in 0..len / 2 {
            let i = len % 2 + 2 * at;
            let low = self.take(&mut cursor, packed);
            let high = self.take(&mut cursor, packed);
            out[i] = self.scattered(low);
            out[i + 1] = self.scattered(high);
        }
    }
}

// What an accepted call cuts: the words from number `from` up to `to`, and of each a field of `size` bits, those that the mask marks.
#[derive(Clone, Copy)]
struct Cut {
    mask: u64,
    size: u64,
    from: usize,
    to: usize,
    ghost sized: { size ≡ size_of mask },
    ghost ordered: { from ≤ to },
    ghost limited: { to ≤ 2048 },
}

impl Cut {
    // What a and b cut of the one of two slices that is `own` long; or the lower of refusals 9 and 10 that applies.
    fn accept(mask: u64, a: usize, b: usize, own: usize, other: usize) -> Result<Cut, Refusal>
        ensures { MatchResult result
            (λ cut. (cut.mask ≡ mask) × (cut.from ≡ a) × (cut.to ≡ b) × (fields_refusal (size_of mask) a b own other ≡ 0))
            (λ refusal. number_of refusal ≡ fields_refusal (size_of mask) a b own other) }
    {
        if b < a || own < b || LONGEST < own || LONGEST < other {
            return Err(Refusal::Range);
        }
        let accepted = Cut {
            mask,
            size: bits::count(mask),
            from: a,
            to: b,
        };
        if (other as u64) < accepted.words() {
            return Err(Refusal::Short);
        }
        Ok(accepted)
    }

    // As `accept`, where the other slice is packed words: 11 too.
    fn accept_packed(
        mask: u64,
        a: usize,
        b: usize,
        own: usize,
        packed: &[u64],
    ) -> Result<Cut, Refusal>
        ensures { MatchResult result
            (λ cut. (cut.mask ≡ mask) × (cut.from ≡ a) × (cut.to ≡ b) × (unpack_refusal (size_of mask) a b own packed.now ≡ 0))
            (λ refusal. number_of refusal ≡ unpack_refusal (size_of mask) a b own packed.now) }
    {
        let cut = Cut::accept(mask, a, b, own, packed.len())?;
        if cut.has_spare_one(packed) {
            return Err(Refusal::Spare);
        }
        Ok(cut)
    }

    // How many bits the fields have.
    fn bits(self) -> u64
        ensures { (result ≡ size_of self.mask * (self.to - self.from)) × (result ≤ 131072) }
    {
        self.size * ((self.to - self.from) as u64)
    }

    // How many words they need.
    fn words(self) -> u64
        ensures { result ≡ needed (size_of self.mask * (self.to - self.from)) }
    {
        (self.bits() + 63) / 64
    }

    // internal: packed words that hold the bits. Whether a spare bit of the last of them is one.
    fn has_spare_one(self, packed: &[u64]) -> bool
        requires { needed (size_of self.mask * (self.to - self.from)) ≤ length packed.now }
        ensures { result ≡ not (eqb (spare_bits (size_of self.mask * (self.to - self.from)) packed.now) 0) }
    {
        let used = self.bits() % 64;
        if used == 0 {
            return false;
        }
        let last = packed[(self.words() - 1) as usize];
        last >> used != 0
    }

    // The answer of a call that is carried out.
    fn answer(self) -> Packed
        ensures { result ≡ fields_answer 0 (size_of self.mask) self.from self.to }
    {
        Packed {
            refusal: bits::CARRIED_OUT,
            count: self.size as u32,
            bits: self.bits(),
        }
    }
}

// internal: room for the words. They are copied. (By a loop: `copy_from_slice` calls memmove, and of the C library the archive may need memcpy and
// memset alone: the conformance test without_a_c_library.)
fn copy_words(from: &[u64], to: &mut [u64])
    requires { length from.now ≤ length to.old }
    ensures { to.new ≡ from.now ++ drop (length from.now) to.old }
{
    for (at, word) in from.iter().enumerate() {
        to[at] = *word;
    }
}

// internal: room for the fields. The field of each word, one after the other, and zeros up to the end of the last word begun.
fn write_fields(cut: Cut, words: &[u64], out: &mut [u64])
    requires { needed (size_of cut.mask * length words.now) ≤ length out.old }
    ensures { out.new ≡ pack_into cut.mask words.now out.old }
{
    let Cut { mask, size, .. } = cut;
    if size == 64 {
        copy_words(words, out);
        return;
    }
    let packing = Fields {
        mask,
        size,
        moves: moves(mask),
    };
    let cursor = packing.write_pairs(words, out);
    cursor.finish(out);
}

// internal: words enough for the fields. Each field scattered into a word of `out`.
fn read_fields(cut: Cut, packed: &[u64], out: &mut [u64])
    requires { needed (size_of cut.mask * length out.old) ≤ length packed.now }
    ensures { out.new ≡ up_to (length out.old) (scattered_at cut.mask packed.now) }
{
    let Cut { mask, size, .. } = cut;
    let len = out.len();
    if size == 64 {
        copy_words(&packed[..len], out);
        return;
    }
    if len == 0 {
        return;
    }
    let fields = Fields {
        mask,
        size,
        moves: moves(mask),
    };
    if len == 1 {
        let mut cursor = Cursor::start();
        let field = fields.take(&mut cursor, packed);
        out[0] = fields.scattered(field);
        return;
    }
    fields.read_pairs(packed, out);
}

// The marked bits of each word from number a up to b, packed end to end into `out`.
pub fn pack(mask: u64, words: &[u64], a: usize, b: usize, out: &mut [u64]) -> Packed
    ensures { (result ≡ pack_answer mask words.now a b out.old)
        × (out.new ≡ packed_out mask words.now a b out.old) }
{
    match Cut::accept(mask, a, b, words.len(), out.len()) {
        Ok(cut) => {
            write_fields(cut, &words[a..b], out);
            cut.answer()
        }
        Err(refusal) => Packed::from(refusal),
    }
}

// Packed fields, each brought to the marked places of a word of `out`, from number a up to b. Spare bits of the last word read must be zero.
pub fn unpack(mask: u64, packed: &[u64], a: usize, b: usize, out: &mut [u64]) -> Packed
    ensures { (result ≡ unpack_answer mask packed.now a b out.old)
        × (out.new ≡ unpacked_out mask packed.now a b out.old) }
{
    match Cut::accept_packed(mask, a, b, out.len(), packed) {
        Ok(cut) => {
            read_fields(cut, packed, &mut out[a..b]);
            cut.answer()
        }
        Err(refusal) => Packed::from(refusal),
    }
}
