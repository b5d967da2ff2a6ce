// Rows of a path's square. A square is one array, WIDTH bytes to a row: the value from k to j is at k * WIDTH + j. A row is copied into a
// local, changed there and put back, so the compiler sees that it is no part of the square and makes a vector instruction or two of each loop.
// Rows are copied by loops, since the library's copy of a slice is called for each and takes two to five times as long.
#![tactic(auto)]

ghost use Rattle.std.specs.Prelude.{◌≡◌, ◌+◌, ◌<◌, ◌≤◌, get_or, replicate};
ghost use Rattle.meaning.specs.Refusal.{most_instants};
ghost use Rattle.rows.specs.Cells.{width, area, at, row_at, Put, Rowed, Values, Raised};

use std::marker::Model;

// The most instants that a trace has.
pub const WIDTH: usize = 32;

pub const SIZE: usize = WIDTH * WIDTH;

// From one place of the diagonal to the next.
pub const DIAGONAL: usize = WIDTH + 1;

pub type Row = [u8; WIDTH];

pub type Square = [u8; SIZE];

// How many instants a trace has: at most WIDTH.
#[derive(Clone, Copy, Debug, PartialEq, Eq)]
pub struct Instants {
    number: usize,
}

impl Model for Instants {
    ghost use Rattle.std.specs.Prelude.{ℕ, ◌≤◌};
    ghost use Rattle.meaning.specs.Refusal.{most_instants};

    ghost Value = { ℕ };

    ghost view = { λ l. l.number };

    ghost invariant = { λ l. l.number ≤ most_instants };

    ghost inverse = { λ n. record { number = n } };
}

impl Instants {
    pub fn new(number: usize) -> Instants
        requires { number ≤ most_instants }
        ensures { result ≡ number }
    {
        Instants { number }
    }

    pub fn number(self) -> usize
        ensures same { result ≡ self }
        ensures few { result ≤ most_instants }
    {
        self.number
    }
}

// A row of zeros but for n values of the square: those from place `from` on stand from place `to` on.
pub fn part(s: &Square, from: usize, to: usize, n: usize) -> Row
    requires { (from + n ≤ area) × (to + n ≤ width) }
    ensures { Put n to (row_at s.now from) (replicate width 0) result }
{
    let mut row = [0u8; WIDTH];
    for i in 0..n {
        row[to + i] = s[from + i];
    }
    row
}

// Row k. That k is an instant is a fact of each call, here and where a row is put.
pub fn row_of(s: &Square, k: usize) -> Row
    requires { k < width }
    ensures { Values (at s.now k) result }
{
    part(s, k * WIDTH, 0, WIDTH)
}

// Row k becomes the row. Inlined, so that the compiler sees that the row is no part of the square.
#[inline(always)]
pub fn put_row(s: &mut Square, k: usize, row: &Row)
    requires { k < width }
    ensures { Rowed k (λ j. get_or row.now j 0) s.old s.new }
{
    for j in 0..WIDTH {
        s[k * WIDTH + j] = row[j];
    }
}

// Each value of the row, or by way of an instant: u is the value to that instant, and `by` its row.
pub fn raise(row: &mut Row, by: &Row, u: u8)
    ensures { Raised (λ j. get_or by.now j 0) u row.old row.new }
{
    for j in 0..WIDTH {
        row[j] = three::greater(row[j], three::lesser(by[j], u));
    }
}
