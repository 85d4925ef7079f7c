// Subwords: check, exchange, excheck and mix of source document 002 (paper 02, Req 05). A pair is two subwords side by side; its right one is
// the lower half of its bits.
#![tactic(auto)]

ghost use Rattle.std.specs.Prelude.{◌≡◌, true, false, ℕ, ◌+◌, ◌-◌, ◌*◌, ◌/◌, ◌%◌, ◌^◌, ◌<◌, MatchResult};
ghost use Rattle.bits.specs.Refusal.{number_of};
ghost use Rattle.network.specs.Calls.{carried_by};
ghost use Rattle.network.specs.Word.{pairs};
ghost use Rattle.subwords.specs.Subword.{subword, woven, check_of, exchange_pairs_of, excheck_of, mix_left_of, mix_right_of, is_size, subword_answer};
ghost use Rattle.subwords.specs.Halves.{place_of, halves_of};

use bits::Refusal;

// Ones in the right subword of every pair, from the networks' table, for a number that is a size. (By the index: a zip reads the words through a
// table of pointers, 48 bytes that are relocated.)
fn rights_of(size: u32) -> Result<u64, Refusal>
    ensures { MatchResult result (λ rights. (is_size size ≡ true) × (rights ≡ pairs size)) (λ refusal. (is_size size ≡ false) × (number_of refusal ≡ 12)) }
{
    for (index, distance) in network::DISTANCES.iter().enumerate() {
        if *distance == size as u64 {
            return Ok(network::PAIRS[index]);
        }
    }
    Err(Refusal::Subword)
}

// The left subwords of every pair of one word, and the right ones of another, which `rights` marks.
fn weave(rights: u64, left: u64, right: u64) -> u64
    ensures { (z : ℕ) → is_size z ≡ true → rights ≡ pairs z → result ≡ woven z (subword z left) (subword z right) }
{
    (left & !rights) | (right & rights)
}

// The halves of a pair.
#[derive(Clone, Copy, Debug, PartialEq, Eq)]
enum Half {
    Left,
    Right,
}

// One subword of every pair of a word.
#[derive(Clone, Copy)]
struct Subwords {
    half: Half,
    word: u64,
}

impl Half {
    fn of(self, word: u64) -> Subwords
        ensures { result ≡ record { half = self; word = word } }
    {
        Subwords { half: self, word }
    }
}

impl Subwords {
    // internal: a size. A word that has them at the left of its pairs.
    fn at_left(self, size: u32) -> u64
        requires { size < 64 }
        ensures { result ≡ self.word * 2 ^ (size * place_of self.half) % 2 ^ 64 }
    {
        match self.half {
            Half::Left => self.word,
            Half::Right => self.word << size,
        }
    }

    // internal: a size. A word that has them at the right of its pairs.
    fn at_right(self, size: u32) -> u64
        requires { size < 64 }
        ensures { result ≡ self.word / 2 ^ (size * (1 - place_of self.half)) }
    {
        match self.half {
            Half::Left => self.word >> size,
            Half::Right => self.word,
        }
    }
}

// In every pair, at the left a subword of that pair of one word, at the right one of that pair of another.
fn halves(size: u32, left: Subwords, right: Subwords) -> Result<u64, Refusal>
    ensures { carried_by result ≡ subword_answer size (halves_of size left.word (place_of left.half) right.word (place_of right.half)) }
{
    let rights = rights_of(size)?;
    Ok(weave(rights, left.at_left(size), right.at_right(size)))
}

// The answer of a call with such a word.
fn answer_halves(size: u32, left: Subwords, right: Subwords) -> network::Carried
    ensures { result ≡ subword_answer size (halves_of size left.word (place_of left.half) right.word (place_of right.half)) }
{
    let outcome = halves(size, left, right);
    network::Carried::from(outcome)
}

// Subwords of the first and of the second by turns, each at its place.
pub fn check(size: u32, first: u64, second: u64) -> network::Carried
    ensures { result ≡ subword_answer size (check_of size first second) }
{
    answer_halves(size, Half::Left.of(first), Half::Right.of(second))
}

// The two subwords of every pair exchanged.
pub fn exchange_pairs(size: u32, word: u64) -> network::Carried
    ensures { result ≡ subword_answer size (exchange_pairs_of size word) }
{
    answer_halves(size, Half::Right.of(word), Half::Left.of(word))
}

// Check, and then the two subwords of every pair exchanged.
pub fn excheck(size: u32, first: u64, second: u64) -> network::Carried
    ensures { result ≡ subword_answer size (excheck_of size first second) }
{
    answer_halves(size, Half::Right.of(second), Half::Left.of(first))
}

// The left subwords of both words by turns.
pub fn mix_left(size: u32, first: u64, second: u64) -> network::Carried
    ensures { result ≡ subword_answer size (mix_left_of size first second) }
{
    answer_halves(size, Half::Left.of(first), Half::Left.of(second))
}

// The right subwords of both words by turns.
pub fn mix_right(size: u32, first: u64, second: u64) -> network::Carried
    ensures { result ≡ subword_answer size (mix_right_of size first second) }
{
    answer_halves(size, Half::Right.of(first), Half::Right.of(second))
}

// internal: an index of the networks' table. The two subwords of every pair exchanged, of the size that is the distance there.
pub fn exchange_at(index: usize, word: u64) -> u64
    requires { index < 6 }
    ensures { result ≡ exchange_pairs_of (2 ^ (5 - index)) word }
{
    let size = network::DISTANCES[index];
    weave(network::PAIRS[index], word << size, word >> size)
}
