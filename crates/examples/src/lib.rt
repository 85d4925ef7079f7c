// The marked rows of paper 01, 'Reel of examples', 1 to 10b, and row 10b continued, proved from the definitions together: specs/Rows.antt is the list,
// proofs/Check.antt the check.
#![tactic(auto)]

ghost use Rattle.std.specs.Prelude.{◌≡◌, length};
ghost use Rattle.examples.specs.Rows.{rows};

// How many rows the list has. (A crate has at least one function.)
pub fn row_count() -> u32
    ensures { result ≡ length rows }
{
    13
}
