// Squares of moves and tests, the value from each instant to each, and of a test before a path.
#![tactic(auto)]

ghost use Rattle.std.specs.Prelude.{◌≡◌, ◌+◌, ◌≤◌, length};
ghost use Rattle.meaning.specs.Value.{move_square, test_square};
ghost use Rattle.records.specs.Kinds.{way_meant};
ghost use Rattle.rows.specs.Cells.{width, at, row_at, Holds};
ghost use Rattle.squares.specs.Places.{capped, next_cell};

use records::kind::Way;
use rows::{DIAGONAL, Instants, SIZE, Square, WIDTH};

// ---- moves and tests: a diagonal each
// How far after k * DIAGONAL the value of a move is: a step leads from k to k + 1, a back step from k + 1 to k.
#[tactic(auto, unfolding(crate::specs::Places::next_cell))]
fn next_cell(way: Way) -> usize
    ensures next { result ≡ next_cell (way_meant way) }
    ensures near { result ≤ width }
{
    match way {
        Way::Ahead => 1,
        Way::Back => WIDTH,
    }
}

// A step or a back step: 2 from each instant to the one beside it. Not inlined: on the frame of the recursion that calls it, a square would
// count at each level.
#[inline(never)]
pub fn move_square(way: Way, l: Instants) -> Square
    ensures { Holds l result (move_square (way_meant way)) }
{
    let d = next_cell(way);
    let mut s = [0u8; SIZE];
    for k in 0..l.number().saturating_sub(1) {
        s[k * DIAGONAL + d] = 2;
    }
    s
}

// The test of the formula whose row starts at `start`. Not inlined, for the same reason.
#[inline(never)]
pub fn test_square(table: &[u8], start: usize, l: Instants) -> Square
    requires { start + l ≤ length table.now }
    ensures { Holds l result (test_square (row_at table.now start)) }
{
    let mut s = [0u8; SIZE];
    for k in 0..l.number() {
        s[k * DIAGONAL] = table[start + k];
    }
    s
}

// ---- a test before a path
// The loop is as those of `joining`, with a row of its own; the table is C's, so its row is told by its place.
// The square of a path becomes that of a sequence: the test of the formula whose row starts at `start`, then the path. A row of zeros raised by
// row k is row k, but no more than the tested value.
pub fn cap(s: &mut Square, table: &[u8], start: usize, l: Instants)
    requires { start + l ≤ length table.now }
    ensures { Holds l s.new (capped (row_at table.now start) (at s.old)) }
{
    for k in 0..l.number() {
        let own = rows::row_of(s, k);
        let mut row = [0u8; WIDTH];
        rows::raise(&mut row, &own, table[start + k]);
        rows::put_row(s, k, &row);
    }
}
