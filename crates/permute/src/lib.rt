// Permutations of the bits of a word: the first controls for butterfly then inverse, and one network alone
// (paper 01, 'Finder' and 'One network'; demand 3 in one theorem).
#![tactic(auto)]

ghost use Rattle.std.specs.Prelude.{◌≡◌, cond, [], ◌≤◌, MatchResult};
ghost use Rattle.bits.specs.Refusal.{log_of, lowest, number_of, number_in};
ghost use Rattle.network.specs.Stage.{butterfly_of, inverse_of};
ghost use Rattle.network.specs.Calls.{controls};
ghost use Rattle.routing.specs.Lists.{butterfly_fits, butterfly_alone, inverse_fits, inverse_alone};
ghost use Rattle.alone.specs.Calls.{fits_alone, alone};
ghost use Rattle.permute.specs.Permutation.{names_once};
ghost use Rattle.permute.specs.Calls.{entries_conditions, route_refusal, route_answer, AnswersFirst, one_refusal, one_answer, AnswersAlone};

use bits::Refusal;

// What `route` answers: 0 and the controls of both networks, or the number of the refusal and zeros.
#[repr(C)]
#[derive(Clone, Copy)]
pub struct Routed {
    pub refusal: u8,
    pub butterfly: network::Controls,
    pub inverse: network::Controls,
}

impl From<Refusal> for Routed {
    ghost from_gives = { λ refusal routed. routed ≡ record { refusal = number_of refusal; butterfly = controls []; inverse = controls [] } };

    fn from(refusal: Refusal) -> Routed {
        Routed {
            refusal: u8::from(refusal),
            butterfly: network::Controls { stages: [0u32; 6] },
            inverse: network::Controls { stages: [0u32; 6] },
        }
    }
}

// What one network alone answers: 0 and its controls, or the number of the refusal and zeros.
#[repr(C)]
#[derive(Clone, Copy)]
pub struct RoutedOne {
    pub refusal: u8,
    pub controls: network::Controls,
}

impl From<Refusal> for RoutedOne {
    ghost from_gives = { λ refusal routed. routed ≡ record { refusal = number_of refusal; controls = controls [] } };

    fn from(refusal: Refusal) -> RoutedOne {
        RoutedOne {
            refusal: u8::from(refusal),
            controls: network::Controls { stages: [0u32; 6] },
        }
    }
}

// internal: a width of at most 64. Whether every entry is below it and none is repeated; `seen` marks the entries passed.
fn names_once(width: usize, entries: &[u8]) -> bool
    requires { width ≤ 64 }
    ensures { result ≡ names_once width entries.now }
{
    let mut seen: u64 = 0;
    for entry in entries.iter().rev() {
        let entry = *entry as usize;
        if width <= entry {
            return false;
        }
        if (seen >> entry) % 2 != 0 {
            return false;
        }
        seen |= 1 << entry;
    }
    true
}

// internal: a width of at most 64. The lowest refusal of a list of entries that are no permutation of the width.
pub fn check_entries(width: u32, entries: &[u8]) -> Result<(), Refusal>
    requires { width ≤ 64 }
    ensures { number_in result ≡ lowest (entries_conditions width entries.now) }
{
    if entries.len() != width as usize {
        return Err(Refusal::Length);
    }
    if !names_once(width as usize, entries) {
        return Err(Refusal::Entry);
    }
    Ok(())
}

// The lowest refusal of a call on a permutation. (Callers make the logarithm anew: with it handed on as the Ok value, `route` took 17,512
// instructions in place of 16,569.)
fn check(width: u32, entries: &[u8]) -> Result<(), Refusal>
    ensures { number_in result ≡ route_refusal width entries.now }
{
    bits::accept(bits::log_of(width))?;
    check_entries(width, entries)
}

// The first controls for butterfly then inverse that bring every bit to its place: entry p names the bit that place p takes.
pub fn route(width: u32, entries: &[u8]) -> Routed
    ensures value { result ≡ route_answer width entries.now }
    ensures first { AnswersFirst width entries.now result }
{
    match check(width, entries) {
        Ok(_) => {
            let first::Stages { butterfly, inverse } = first::controls(
                bits::log_of(width) as usize,
                entries,
            );
            Routed {
                refusal: bits::CARRIED_OUT,
                butterfly: network::Controls { stages: butterfly },
                inverse: network::Controls { stages: inverse },
            }
        }
        Err(refusal) => Routed::from(refusal),
    }
}

// The controls of the butterfly alone that realise the permutation, or refusal 6 exactly if there are none.
pub fn route_butterfly(width: u32, entries: &[u8]) -> RoutedOne
    ensures value { result ≡ one_answer butterfly_fits butterfly_alone width entries.now }
    ensures alone { AnswersAlone butterfly_of width entries.now result }
{
    route_one(false, width, entries)
}

// The same of the inverse alone.
pub fn route_inverse(width: u32, entries: &[u8]) -> RoutedOne
    ensures value { result ≡ one_answer inverse_fits inverse_alone width entries.now }
    ensures alone { AnswersAlone inverse_of width entries.now result }
{
    route_one(true, width, entries)
}

// The controls of the inverse alone or of the butterfly alone. (`rising` as `alone::controls` has it, whose signature stands.)
fn route_one(rising: bool, width: u32, entries: &[u8]) -> RoutedOne
    ensures value { result ≡ one_answer (fits_alone rising) (alone rising) width entries.now }
    ensures alone { AnswersAlone (cond rising inverse_of butterfly_of) width entries.now result }
{
    let controls = match controls_alone(rising, width, entries) {
        Ok(controls) => controls,
        Err(refusal) => return RoutedOne::from(refusal),
    };
    RoutedOne {
        refusal: bits::CARRIED_OUT,
        controls,
    }
}

// The controls of one network that realise the permutation, or the lowest refusal.
fn controls_alone(rising: bool, width: u32, entries: &[u8]) -> Result<network::Controls, Refusal>
    ensures { MatchResult result
        (λ found. (one_refusal (fits_alone rising) width entries.now ≡ 0) × (found ≡ controls (alone rising (log_of width) entries.now)))
        (λ refusal. number_of refusal ≡ one_refusal (fits_alone rising) width entries.now) }
{
    check(width, entries)?;
    let log = bits::log_of(width) as usize;
    let stages = alone::controls(rising, log, entries).ok_or(Refusal::NotRealised)?;
    Ok(network::Controls { stages })
}
