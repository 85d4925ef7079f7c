// The mathematics of routing permutations, over every exponent (paper 01, 'Finder' and 'One network'; demand 3, its second half).
// The crate is its specs and proofs; a crate needs one function.
#![tactic(auto)]

ghost use Rattle.std.specs.Prelude.{◌≡◌};

// Number of switches of butterfly and inverse together at width 64.
pub fn switches() -> usize
    ensures { result ≡ 384 }
{
    384
}
