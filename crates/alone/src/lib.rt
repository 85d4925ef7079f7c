// The control bits of one network alone (paper 01, 'One network').
#![tactic(auto)]

ghost use Rattle.std.specs.Prelude.{◌≡◌, true, false, ◌^◌, ◌≤◌, ◌<◌, length};
ghost use Rattle.std.specs.Int.Bits.{bit_or};
ghost use Rattle.routing.specs.Lists.{ListPermutes};
ghost use Rattle.alone.specs.Asked.{crossed, asked, unasked, asked_word, Within, Every, stage_at, agree, stage_words};
ghost use Rattle.alone.specs.Calls.{Answers, fits_alone, alone};

// What routes ask of a stage: a one at each switch that they pass, and at each that they swap.
#[derive(Clone, Copy)]
struct Asked {
    pass: u32,
    swap: u32,
}

impl Asked {
    // internal: a stage of at most 64 places. What is asked of it with one route more, that of bit `source` to `place`.
    fn with_route(self, exponent: u32, place: u32, source: u32) -> Asked
        requires { (exponent < 6) × (place < 64) }
        ensures { (result.pass ≡ bit_or self.pass (asked true exponent place source))
            × (result.swap ≡ bit_or self.swap (asked false exponent place source)) }
    {
        let switch = 1 << switch_of(exponent, place, source);
        if ((place ^ source) >> exponent) % 2 == 0 {
            Asked {
                pass: self.pass | switch,
                ..self
            }
        } else {
            Asked {
                swap: self.swap | switch,
                ..self
            }
        }
    }
}

// As many routes through a network as it has places: for each the place where it ends, and beside it the bit that takes it.
#[derive(Clone, Copy)]
struct Routes<'a> {
    rising: bool,
    log: usize,
    places: &'a [u8],
    sources: &'a [u8],
    ghost up_to_64: { log ≤ 6 },
    ghost routes: { length places.now ≡ 2 ^ log },
    ghost each_place: { Within (2 ^ log) places.now },
    ghost each_source: { Within (2 ^ log) sources.now },
}

impl<'a> Routes<'a> {
    // internal: a stage of the network. Where it stands in the direction of travel, and so too the exponent of the stage that stands there.
    fn stage_at(&self, exponent: usize) -> usize
        requires { exponent < self.now.log }
        ensures { (result < self.now.log) × (result ≡ stage_at self.now.rising self.now.log exponent) }
    {
        if self.rising {
            exponent
        } else {
            self.log - 1 - exponent
        }
    }

    // internal: a stage of the network. What the routes ask of it.
    fn asked_of(&self, exponent: u32) -> Asked
        requires { exponent < self.now.log }
        ensures { (result.pass ≡ asked_word true self.now.log self.now.places.now self.now.sources.now exponent)
            × (result.swap ≡ asked_word false self.now.log self.now.places.now self.now.sources.now exponent) }
    {
        let mut asked = Asked { pass: 0, swap: 0 };
        for (place, source) in self.places.iter().zip(self.sources) {
            asked = asked.with_route(exponent, *place as u32, *source as u32);
        }
        asked
    }

    // The stages that the routes ask for, unless a switch is asked both to pass and to swap.
    fn stages(&self) -> Option<[u32; 6]>
        ensures { Answers (agree self.now.rising self.now.log self.now.places.now self.now.sources.now)
            (stage_words self.now.rising self.now.log (unasked true self.now.places.now self.now.sources.now (2 ^ self.now.log))) result }
    {
        let mut stages = [0u32; 6];
        for at in 0..self.log {
            let asked = self.asked_of(self.stage_at(at) as u32);
            if asked.pass & asked.swap != 0 {
                return None;
            }
            stages[at] = asked.pass;
        }
        Some(stages)
    }
}

// Every place of the greatest width.
fn every_place() -> [u8; 64]
    ensures { Every result }
{
    std::array::from_fn(|at| at as u8)
}

// internal: a stage of at most 64 places. The switch that the route of bit `source` to `place` crosses.
fn switch_of(exponent: u32, place: u32, source: u32) -> u32
    requires { (exponent < 6) × (place < 64) }
    ensures { (result < 32) × (result ≡ crossed exponent place source) }
{
    let distance = 1 << exponent;
    let half = place >> 1;
    half - half % distance + source % distance
}

// internal: a logarithm of at most 6, and a permutation of that width. The stages of the inverse (`rising`: its signature stands) or of the butterfly, in the
// direction of travel, if it realises the permutation. The inverse undoes the butterfly of the same controls: there bit p comes to the
// place that entry p names.
pub fn controls(rising: bool, log: usize, entries: &[u8]) -> Option<[u32; 6]>
    requires { (log ≤ 6) × ListPermutes (2 ^ log) entries.now }
    ensures { Answers (fits_alone rising log entries.now) (alone rising log entries.now) result }
{
    let every = every_place();
    let named = &every[..entries.len()];
    // where each route ends, and the bit that takes it
    let ends = if rising {
        (entries, named)
    } else {
        (named, entries)
    };
    let routes = Routes {
        rising,
        log,
        places: ends.0,
        sources: ends.1,
    };
    routes.stages()
}
