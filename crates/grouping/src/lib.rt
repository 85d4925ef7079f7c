// Permutations by groups: masks by which group, in turn, brings every bit to its place (paper 02, Req 08).
#![tactic(auto)]

ghost use Rattle.std.specs.Prelude.{◌≡◌, cond, [], ℕ, ◌-◌, ◌^◌, ◌≤◌, ◌<◌, length, take, MatchResult};
ghost use Rattle.bits.specs.Bit.{bit};
ghost use Rattle.bits.specs.Refusal.{log_to_64, number_of};
ghost use Rattle.network.specs.Calls.{six};
ghost use Rattle.routing.specs.Lists.{find, entry, ListPermutes};
ghost use Rattle.grouping.specs.Groups.{regrouped, group_masks};
ghost use Rattle.grouping.specs.Calls.{groups_refusal, groups_answer, AnswersGroups};
ghost use Rattle.grouping.specs.Destinations.{pass_mask, Half};

use bits::Refusal;
use std::mem;

// What `route_groups` answers: 0 and the masks of its steps, zeros after them, or the number of the refusal and zeros.
#[repr(C)]
#[derive(Clone, Copy)]
pub struct Masks {
    pub refusal: u8,
    pub masks: [u64; 6],
}

impl From<Refusal> for Masks {
    ghost from_gives = { λ refusal masks. masks ≡ record { refusal = number_of refusal; masks = six [] } };

    fn from(refusal: Refusal) -> Masks {
        Masks {
            refusal: u8::from(refusal),
            masks: [0u64; 6],
        }
    }
}

// The logarithm of a width up to 64 of which the entries are a permutation, or the lowest refusal.
fn accept(width: u32, entries: &[u8]) -> Result<u32, Refusal>
    ensures { MatchResult result (λ log. (groups_refusal width entries.now ≡ 0) × (log ≡ log_to_64 width))
        (λ refusal. number_of refusal ≡ groups_refusal width entries.now) }
{
    let log = bits::accept(bits::log_to_64(width))?;
    permute::check_entries(width, entries)?;
    Ok(log)
}

// internal: the index of a bit of a byte. 1 if the bit is zero, else 0.
fn zero_at(destination: u8, index: usize) -> u64
    requires { index < 8 }
    ensures { result ≡ 1 - bit destination index }
{
    1 - ((destination as u64) >> index) % 2
}

// internal: a permutation of at most 64 places. For each bit its destination, the place whose entry names it. The mask of step 0. (They
// are lent, since it makes two things.)
fn take_destinations(to: &mut [u8; 64], entries: &[u8]) -> u64
    requires { (length entries.now ≤ 64) × (ListPermutes (length entries.now) entries.now) × (length to.old ≡ 64) }
    ensures { (length to.new ≡ 64)
        × ((x : ℕ) → x < length entries.now → entry to.new x ≡ find x entries.now)
        × (result ≡ pass_mask (length entries.now) 0 (take (length entries.now) to.new)) }
{
    let mut mask: u64 = 0;
    for (place, entry) in entries.iter().enumerate() {
        let content = *entry as usize;
        to[content] = place as u8;
        mask |= zero_at(place as u8, 0) << content;
    }
    mask
}

// Where a content goes: a marked one to `low`, any other to `above`. (A function of its own: the choice is then one fact in the loop.)
fn place_of(marked: bool, low: usize, above: usize) -> usize
    ensures { result ≡ cond marked low above }
{
    if marked { low } else { above }
}

// internal: the destinations of the contents of at most 64 places, and a mask that marks half of these. In one pass the marked ones go to the
// lower half of the places, the others to the upper half, each in their order. The mask of what this leaves, by bit `index`.
fn group_pass(from: &[u8], into: &mut [u8; 64], mask: u64, index: usize) -> u64
    requires { (length from.now ≤ 64) × (index < 8) × (length into.old ≡ 64) × (Half (length from.now) mask) }
    ensures { (length into.new ≡ 64)
        × (take (length from.now) into.new ≡ regrouped (length from.now) mask from.now)
        × (result ≡ pass_mask (length from.now) index (regrouped (length from.now) mask from.now)) }
{
    let half = from.len() / 2;
    let mut next: u64 = 0;
    let mut low: usize = 0;
    for (place, destination) in from.iter().enumerate() {
        let marked = (mask >> place) % 2 == 1;
        let above = half + (place - low);
        let at = place_of(marked, low, above);
        into[at] = *destination;
        next |= zero_at(*destination, index) << at;
        low += marked as usize;
    }
    next
}

// internal: a logarithm of 1 to 6, and a permutation of that width. The masks of its steps, and zeros after them: each step but the last is a
// pass from one array into the other, and the next step reads what this one wrote.
fn step_masks(log: usize, entries: &[u8]) -> [u64; 6]
    requires { (0 < log) × (log ≤ 6) × ListPermutes (2 ^ log) entries.now }
    ensures { result ≡ six (group_masks log entries.now) }
{
    let mut masks = [0u64; 6];
    let mut from = [0u8; 64];
    let mut into = [0u8; 64];
    masks[0] = take_destinations(&mut from, entries);
    for step in 1..log {
        masks[step] = group_pass(&from[..entries.len()], &mut into, masks[step - 1], step);
        mem::swap(&mut from, &mut into);
    }
    masks
}

// The masks of as many steps as the logarithm of the width: a word grouped by them in turn is permuted. Entry p names the bit that place p
// takes.
pub fn route_groups(width: u32, entries: &[u8]) -> Masks
    ensures value { result ≡ groups_answer width entries.now }
    ensures permutes { AnswersGroups width entries.now result }
{
    match accept(width, entries) {
        Ok(log) => {
            let masks = step_masks(log as usize, entries);
            Masks {
                refusal: bits::CARRIED_OUT,
                masks,
            }
        }
        Err(refusal) => Masks::from(refusal),
    }
}
