// Four channels in one frame of cycles (paper 02, Req 11). The turns of all four are counted before any channel runs: so each runs once, with one budget for both
// of its turns, and ends as a run does.
#![tactic(auto)]

ghost use Rattle.std.specs.Prelude.{◌≡◌, [], ◌∷◌, ℕ, ◌+◌, ◌*◌, ◌<◌, ◌≤◌, All, length, get_or, map, sum, MatchResult};
ghost use Rattle.bits.specs.Bit.{up_to};
ghost use Rattle.bits.specs.Refusal.{lowest, number_of, number_in};
ghost use Rattle.runs.specs.Run.{operations_of, run_refusal, noted};
ghost use Rattle.frame.specs.Frame.{brought_by, other_waits, lists_conditions, frame_refusal, channel_of, refused_answer, leaving_all, frame_of};
ghost use Rattle.frame.specs.Offers.{Whole, counted_of, turn_at, first_of, unused_of, budget_of, budgets_by, lower_of, sum_conditions};

use bits::Refusal;

// How one channel was run: its end (1 done, 2 spent), the operations run and the cycles used, of both turns together; zeros in a refused frame.
#[repr(C)]
#[derive(Clone, Copy)]
pub struct Channel {
    pub end: u8,
    pub ran: u32,
    pub cycles: u32,
}

// What a frame answers, channel by channel.
#[repr(C)]
#[derive(Clone, Copy)]
pub struct Frame {
    pub refusal: u8,
    pub channels: [Channel; 4],
}

impl From<runs::Outcome> for Channel {
    ghost from_gives = { λ run channel. channel ≡ channel_of run };

    fn from(run: runs::Outcome) -> Channel {
        Channel {
            end: run.end,
            ran: run.ran,
            cycles: run.cycles,
        }
    }
}

// What a refused frame answers: its number, and zeros beside it.
impl From<Refusal> for Frame {
    ghost from_gives = { λ refusal frame. frame ≡ refused_answer (number_of refusal) };

    fn from(refusal: Refusal) -> Frame {
        let zeros = Channel {
            end: 0,
            ran: 0,
            cycles: 0,
        };
        Frame {
            refusal: u8::from(refusal),
            channels: [zeros; 4],
        }
    }
}

// internal: at most 1,024 operations. How far a budget carries them; none is run. (The loop of runs::go_on but for its step: as a closure, with a clause on all states
// that it goes through, that would be no plainer.)
fn count(ops: &[u8], budget: u32) -> runs::Turn
    requires { length ops.now ≤ 4096 }
    ensures counted { result ≡ counted_of (operations_of ops.now) budget }
    ensures within_list { 4 * result.ran ≤ length ops.now }
    ensures within_budget { result.cycles ≤ budget }
{
    let mut left = budget;
    let mut ran = 0;
    for operation in ops.chunks_exact(4) {
        let cycles = unit::cycles_of(operation[0]);
        if left < cycles {
            break;
        }
        left -= cycles;
        ran += 1;
    }
    runs::Turn {
        ran,
        cycles: budget - left,
    }
}

// The lists and guarantees of a frame that is not refused: whole operations, at most 1,024 each, and a sum that fits in 32 bits.
#[derive(Clone, Copy)]
struct Accepted<'a> {
    lists: [&'a [u8]; 4],
    guarantees: [u32; 4],
    ghost four: { length lists ≡ 4 },
    ghost whole: { All (λ list. Whole list.now) lists },
    ghost fits: { sum guarantees ≤ 4294967295 },
}

impl<'a> Accepted<'a> {
    // internal: one of the four channels. Its list, to be run.
    fn operations(&self, n: usize) -> runs::Operations<'a>
        requires { n < 4 }
        ensures { result.bytes.now ≡ get_or (map (λ list. list.now) self.now.lists) n [] }
    {
        runs::Operations {
            bytes: self.lists[n],
        }
    }

    // Each channel's turn within its guarantee, counted.
    fn first_turns(&self) -> [runs::Turn; 4]
        ensures counted { (n : ℕ) → n < 4 → turn_at result n ≡ first_of (map (λ list. list.now) self.now.lists) self.now.guarantees n }
        ensures within_lists { (n : ℕ) → n < 4 → 4 * (turn_at result n).ran ≤ length (get_or (map (λ list. list.now) self.now.lists) n []) }
        ensures within_guarantees { (n : ℕ) → n < 4 → (turn_at result n).cycles ≤ get_or self.now.guarantees n 0 }
    {
        std::array::from_fn(|n| count(self.lists[n], self.guarantees[n]))
    }

    // internal: turns within the guarantees. What the four left of these, in one sum.
    fn rest(&self, first: &[runs::Turn; 4]) -> u32
        requires { (n : ℕ) → n < 4 → (turn_at first.now n).cycles ≤ get_or self.now.guarantees n 0 }
        ensures { result ≡ unused_of first.now self.now.guarantees }
    {
        let mut rest = 0;
        for (turn, guarantee) in first.iter().zip(&self.guarantees) {
            rest += *guarantee - turn.cycles;
        }
        rest
    }

    // internal: turns within the lists, and the rest. It is offered in number order: the budgets of both turns of each channel.
    fn offer(&self, first: &[runs::Turn; 4], rest: u32) -> [u32; 4]
        requires within_lists { (n : ℕ) → n < 4 → 4 * (turn_at first.now n).ran ≤ length (get_or (map (λ list. list.now) self.now.lists) n []) }
        requires fits { (n : ℕ) → n < 4 → (turn_at first.now n).cycles + rest ≤ 4294967295 }
        ensures { result ≡ up_to 4 (budget_of (map (λ list. list.now) self.now.lists) first.now rest) }
    {
        let mut budgets = [0u32; 4];
        let mut left = rest;
        // (By number: `budgets` is written beside the two that are read, and a zip of three nests its tuples, which is no plainer.)
        for channel in 0..4 {
            let turn = first[channel];
            budgets[channel] = turn.cycles + left;
            let second = count(&self.lists[channel][unit::bytes_of(turn.ran)..], left);
            left -= second.cycles;
        }
        budgets
    }

    // The budgets of both turns of each channel.
    fn budgets(&self) -> [u32; 4]
        ensures { result ≡ budgets_by (map (λ list. list.now) self.now.lists) self.now.guarantees }
    {
        let first = self.first_turns();
        let rest = self.rest(&first);
        self.offer(&first, rest)
    }
}

// Whether a run waits on the bank of which the operations are not the remainder.
fn other_waits(bank: &unit::Bank, ops: &[u8]) -> bool
    ensures { result ≡ other_waits (record { bank = bank.now; bytes = ops.now; guarantee = 0 }) }
{
    bank.registers.waiting != 0 && !runs::is_remainder(bank, ops)
}

// The lowest refusal of a channel's list.
fn check_list(bank: &unit::Bank, ops: &[u8]) -> Result<(), Refusal>
    ensures { number_in result ≡ run_refusal (other_waits (record { bank = bank.now; bytes = ops.now; guarantee = 0 })) ops.now }
{
    runs::run_refusal(other_waits(bank, ops), ops)?;
    Ok(())
}

// The lower of two refusals, or the one that there is.
fn lower(first: Result<(), Refusal>, second: Result<(), Refusal>) -> Result<(), Refusal>
    ensures { number_in result ≡ lower_of (number_in first) (number_in second) }
{
    match (first, second) {
        (Err(one), Err(other)) if other < one => second,
        (Ok(()), _) => second,
        _ => first,
    }
}

// The lowest refusal over all four lists of operations.
fn check_lists(banks: &[&unit::Bank; 4], lists: &[&[u8]; 4]) -> Result<(), Refusal>
    ensures { number_in result ≡ lowest (lists_conditions (brought_by (map (λ bank. bank.now) banks.now) (map (λ list. list.now) lists.now) [])) }
{
    let mut lowest = Ok(());
    for (bank, list) in banks.iter().zip(lists) {
        lowest = lower(lowest, check_list(bank, list));
    }
    lowest
}

// The true sum of the guarantees.
fn sum_of(guarantees: &[u32; 4]) -> u64
    ensures { result ≡ sum guarantees.now }
{
    guarantees.iter().map(|guarantee| *guarantee as u64).sum()
}

// Refused if the guarantees sum above the frame's cycles.
fn check_sum(guarantees: &[u32; 4], cycles: u32) -> Result<(), Refusal>
    ensures { number_in result ≡ lowest (sum_conditions guarantees.now cycles) }
{
    let sum = sum_of(guarantees);
    if (cycles as u64) < sum {
        return Err(Refusal::Frame);
    }
    Ok(())
}

// A frame's lowest refusal, or what it brings.
fn check<'a>(
    banks: &[&unit::Bank; 4],
    lists: [&'a [u8]; 4],
    guarantees: [u32; 4],
    cycles: u32,
) -> Result<Accepted<'a>, Refusal>
    ensures { MatchResult result
        (λ accepted. (accepted.lists ≡ lists.entry) × (accepted.guarantees ≡ guarantees)
        × (frame_refusal (brought_by (map (λ bank. bank.now) banks.now) (map (λ list. list.now) lists.entry) guarantees) cycles ≡ 0))
        (λ refusal. number_of refusal ≡ frame_refusal (brought_by (map (λ bank. bank.now) banks.now) (map (λ list. list.now) lists.entry) guarantees) cycles) }
{
    check_lists(banks, &lists)?;
    check_sum(&guarantees, cycles)?;
    Ok(Accepted { lists, guarantees })
}

// Status bit 2 set in a bank.
fn refuse(bank: &mut unit::Bank)
    ensures { bank.new ≡ noted bank.old 0 }
{
    runs::note(&mut bank.registers, runs::End::Refused);
}

// Four channels in one frame: the answer of each, and what is left in the banks; or the lowest refusal, and status bit 2 in all four.
// (An array of the banks was tried: its caller's proof doesn't learn what each is left as.)
pub fn run_frame(
    bank0: &mut unit::Bank,
    bank1: &mut unit::Bank,
    bank2: &mut unit::Bank,
    bank3: &mut unit::Bank,
    lists: [&[u8]; 4],
    guarantees: &[u32; 4],
    cycles: u32,
) -> Frame
    ensures { leaving_all result (bank0.new ∷ bank1.new ∷ bank2.new ∷ bank3.new ∷ [])
        ≡ frame_of (brought_by (bank0.old ∷ bank1.old ∷ bank2.old ∷ bank3.old ∷ []) (map (λ list. list.now) lists.entry) guarantees.now) cycles }
{
    let banks = [&*bank0, &*bank1, &*bank2, &*bank3];
    let accepted = match check(&banks, lists, *guarantees, cycles) {
        Ok(accepted) => accepted,
        Err(refusal) => {
            refuse(bank0);
            refuse(bank1);
            refuse(bank2);
            refuse(bank3);
            return Frame::from(refusal);
        }
    };
    let budgets = accepted.budgets();
    let run0 = runs::perform(bank0, Ok(accepted.operations(0)), budgets[0]);
    let run1 = runs::perform(bank1, Ok(accepted.operations(1)), budgets[1]);
    let run2 = runs::perform(bank2, Ok(accepted.operations(2)), budgets[2]);
    let run3 = runs::perform(bank3, Ok(accepted.operations(3)), budgets[3]);
    Frame {
        refusal: bits::CARRIED_OUT,
        channels: [
            Channel::from(run0),
            Channel::from(run1),
            Channel::from(run2),
            Channel::from(run3),
        ],
    }
}
