// What lists of calls on the register unit come to: runs by themselves, the interrupt line, runs that wait and are continued, frames of channels (papers 01, 'The
// register unit', and 02, Reqs 09 to 11). The crate is its specs and proofs, above those of runs and frame, so that their edits need not be checked against it; a
// crate needs one function.
#![tactic(auto)]

ghost use Rattle.std.specs.Prelude.{◌≡◌};

// Number of channels of a frame.
pub fn channels() -> usize
    ensures { result ≡ 4 }
{
    4
}
