// Tiles of 8 by 8 bits, turned and mirrored (paper 02, Req 05). Row r is byte r of the word, row 0 on top; column c is bit c of that byte,
// column 7 at the left.
#![tactic(auto)]

ghost use Rattle.std.specs.Prelude.{◌≡◌, ◌≤◌};
ghost use Rattle.tiles.specs.Tile.{moved, transpose_rule, left_rule, right_rule, columns_rule, rows_rule};
ghost use Rattle.tiles.specs.Steps.{mirror_of};

// Rows and columns exchanged: in every square of 2 by 2 bits, then of 2 by 2 such squares, then of these, the two off the diagonal change
// places.
pub fn transpose(tile: u64) -> u64
    ensures { result ≡ moved transpose_rule tile }
{
    let pairs = network::exchange_marked(7, 0x00AA00AA00AA00AA, tile);
    let fours = network::exchange_marked(14, 0x0000CCCC0000CCCC, pairs);
    network::exchange_marked(28, 0x00000000F0F0F0F0, fours)
}

// internal: three sizes of the networks' table, from the last: neighbours are exchanged, then pairs of them, then fours. (The first of the sizes
// is a number, which the edit columns_mirror_is_rows turns.)
fn mirrored(first: usize, tile: u64) -> u64
    requires { first ≤ 3 }
    ensures { result ≡ mirror_of first tile }
{
    let mut turned = tile;
    for index in (first..first + 3).rev() {
        turned = subwords::exchange_at(index, turned);
    }
    turned
}

// Row 0 becomes row 7: the bytes of the word in reversed order.
pub fn mirror_rows(tile: u64) -> u64
    ensures { result ≡ moved rows_rule tile }
{
    mirrored(0, tile)
}

// Column 0 becomes column 7: the bits of every byte in reversed order.
pub fn mirror_columns(tile: u64) -> u64
    ensures { result ≡ moved columns_rule tile }
{
    mirrored(3, tile)
}

// A quarter turn to the left: the mirror of rows first, which is one instruction; that of columns, after transpose, would be twenty.
pub fn turn_left(tile: u64) -> u64
    ensures { result ≡ moved left_rule tile }
{
    transpose(mirrored(0, tile))
}

// A quarter turn to the right.
pub fn turn_right(tile: u64) -> u64
    ensures { result ≡ moved right_rule tile }
{
    mirrored(0, transpose(tile))
}
