// Choice and sequence: the square of two paths from their squares. A move in a sequence shifts rows or columns.
#![tactic(auto)]

ghost use Rattle.std.specs.Prelude.{◌≡◌, ◌<◌, ◌≤◌};
ghost use Rattle.meaning.specs.Value.{move_square, choice_square, sequence_square};
ghost use Rattle.records.specs.Kinds.{way_meant, kind_meant};
ghost use Rattle.rows.specs.Cells.{width, at, Holds, Raised, Values};
ghost use Rattle.joining.specs.Joining.{Low, PathPart, beside_of, value_at, join_of, shift_of};

use records::kind::{Kind, Way};
use rows::{Instants, Row, SIZE, Square, WIDTH};

// The first path's square becomes the choice's or the sequence's; `first` and `next` are the two paths' kinds.
pub fn join(kind: Kind, first: Kind, next: Kind, s: &mut Square, q: &Square, l: Instants)
    requires { PathPart l (kind_meant first) s.old × PathPart l (kind_meant next) q.now }
    ensures { Holds l s.new (join_of (kind_meant kind) l (at s.old) (at q.now)) }
{
    match (kind, first, next) {
        (Kind::Choice, _, _) => choose(s, q),
        (_, Kind::Move(way), _) => lead_move(way, s, q, l),
        (_, _, Kind::Move(way)) => follow_move(way, s, l),
        _ => follow(s, q, l),
    }
}

// A choice: the greater of the two paths' values, over all bytes of the squares. A loop by index: over `iter_mut` with `zip` no invariant can
// speak of the square, and the proof does not close.
fn choose(s: &mut Square, q: &Square)
    ensures { Holds width s.new (choice_square (at s.old) (at q.now)) }
{
    for i in 0..SIZE {
        s[i] = three::greater(s[i], q[i]);
    }
}

// A sequence, row by row. This loop and those for moves differ in the row that they make; as a closure it would borrow the square that the
// loop writes.
fn follow(s: &mut Square, q: &Square, l: Instants)
    ensures { Holds l s.new (sequence_square l (at s.old) (at q.now)) }
{
    for k in 0..l.number() {
        let row = led_row(s, q, l, k);
        rows::put_row(s, k, &row);
    }
}

// Row k of a sequence: by way of each instant i below l.
fn led_row(s: &Square, q: &Square, l: Instants, k: usize) -> Row
    requires { k < width }
    ensures { Values (sequence_square l (at s.now) (at q.now) k) result }
{
    let mut row = [0u8; WIDTH];
    for i in 0..l.number() {
        raise_row(&mut row, q, i, s[k * WIDTH + i]);
    }
    row
}

// Each value of the row, or by way of instant i, to which the value is u. Nothing leads on from a 0.
fn raise_row(row: &mut Row, q: &Square, i: usize, u: u8)
    requires { i < width }
    ensures { Raised (at q.now i) u row.old row.new }
{
    if u != 0 {
        let by = rows::row_of(q, i);
        rows::raise(row, &by, u);
    }
}

// ---- a move after a path
// Each row moves on by one place, or back: all its values but one are copied into a row of zeros.
fn follow_move(way: Way, s: &mut Square, l: Instants)
    requires { Low l s.old }
    ensures { Holds l s.new (sequence_square l (at s.old) (move_square (way_meant way))) }
{
    let d = shift_of(way);
    for k in 0..l.number() {
        let row = rows::part(s, k * WIDTH + 1 - d, d, l.number() - 1);
        rows::put_row(s, k, &row);
    }
}

// Where the first value of a row goes by a step, and where its second one goes by a back step.
#[tactic(auto, unfolding(crate::specs::Joining::shift_of))]
fn shift_of(way: Way) -> usize
    ensures shift { result ≡ shift_of (way_meant way) }
    ensures one { result ≤ 1 }
{
    match way {
        Way::Ahead => 1,
        Way::Back => 0,
    }
}

// ---- a move before a path
// Row k is the path's row of the instant beside.
fn lead_move(way: Way, s: &mut Square, q: &Square, l: Instants)
    requires { Low l q.now }
    ensures { Holds l s.new (sequence_square l (move_square (way_meant way)) (at q.now)) }
{
    for k in 0..l.number() {
        let row = row_below(q, beside(way, k), l);
        rows::put_row(s, k, &row);
    }
}

// The instant to which the move leads from k, if there is one.
#[tactic(auto, unfolding(crate::specs::Joining::beside_of))]
fn beside(way: Way, k: usize) -> Option<usize>
    requires { k < width }
    ensures { result ≡ beside_of (way_meant way) k }
{
    match way {
        Way::Ahead => Some(k + 1),
        Way::Back => k.checked_sub(1),
    }
}

// The row of an instant below l, or zeros.
fn row_below(q: &Square, instant: Option<usize>, l: Instants) -> Row
    ensures { Values (λ j. value_at l (λ i. at q.now i j) instant) result }
{
    match instant {
        Some(i) if i < l.number() => rows::row_of(q, i),
        _ => [0u8; WIDTH],
    }
}
