// Rows of the table: the values of one formula at each instant, a row each. The table is C's, so a row is no type: it is told by its place.
#![tactic(auto)]

ghost use Rattle.std.specs.Prelude.{ℕ, ◌≡◌, ◌+◌, ◌*◌, ◌<◌, ◌≤◌, length, get_or};
ghost use Rattle.meaning.specs.Run.{cell_of};
ghost use Rattle.meaning.specs.Record.{most_records};
ghost use Rattle.meaning.specs.Value.{modal_row};
ghost use Rattle.records.specs.Kinds.{mode_meant};
ghost use Rattle.rows.specs.Cells.{at, row_at, Put};

use records::kind::Mode;
use rows::{Instants, Square, WIDTH};

// Where row r starts.
pub fn row_start(r: usize, l: Instants) -> usize
    requires { r ≤ most_records }
    ensures { result ≡ r * l }
{
    r * l.number()
}

// The same value in each of l cells.
pub fn put_constant(table: &mut [u8], start: usize, l: usize, v: u8)
    requires { start + l ≤ length table.old }
    ensures { Put l start (λ k. v) table.old table.new }
{
    table[start..start + l].fill(v);
}

// Atom i of rows of `atoms` cells.
pub fn put_atom(table: &mut [u8], start: usize, l: usize, cells: &[u8], atoms: usize, i: usize)
    requires { (start + l ≤ length table.old) × (length cells.now ≡ atoms * l) × (i < atoms) }
    ensures { Put l start (λ k. cell_of atoms cells.now k i) table.old table.new }
{
    for k in 0..l {
        table[start + k] = cells[atoms * k + i];
    }
}

// The diamond or the box over a path's square of the formula whose row starts at `from`, which ends at or before `start`.
pub fn put_modal(mode: Mode, s: &Square, table: &mut [u8], from: usize, start: usize, l: Instants)
    requires { (start + l ≤ length table.old) × (from + l ≤ start) }
    ensures { Put l start (modal_row (mode_meant mode) l (at s.now) (row_at table.old from)) table.old table.new }
{
    for k in 0..l.number() {
        table[start + k] = modal_cell(mode, s, &table[..], from, l, k);
    }
}

// The diamond or the box at instant k: over all instants j the greatest of the smaller of two values, the path's from k to j and the formula's
// at j, or the least of the formula's value at j where the path leads there.
fn modal_cell(mode: Mode, s: &Square, table: &[u8], from: usize, l: Instants, k: usize) -> u8
    requires { (from + l ≤ length table.now) × (k < l) }
    ensures { result ≡ modal_row (mode_meant mode) l (at s.now) (row_at table.now from) k }
{
    let path = &s[k * WIDTH..k * WIDTH + l.number()];
    let values = &table[from..from + l.number()];
    match mode {
        Mode::Diamond => over_instants(path, values, 0, |most, u, v| {
            three::greater(most, three::lesser(u, v))
        }),
        Mode::Box => over_instants(path, values, 2, |least, u, v| {
            three::lesser(least, three::imp(u, v))
        }),
    }
}

// From `first` on, each instant in turn is taken in: the path's value to it and the formula's there. If the values after each turn can only be
// those of f, the last one is the result. A loop by index: over a `zip` or a range with `fold` the proof does not close.
fn over_instants<F: Fn(u8, u8, u8) -> u8>(path: &[u8], values: &[u8], first: u8, take: F) -> u8
    requires at_each { F.IsAlwaysCallable take }
    requires as_many { length path.now ≡ length values.now }
    ensures { (n : ℕ) (f : ℕ → ℕ) → n ≡ length path.now → first ≡ f 0
        → ((j v : ℕ) → j < n → F.post take (f j) (get_or path.now j 0) (get_or values.now j 0) v → v ≡ f (j + 1)) → result ≡ f n }
{
    let mut value = first;
    for j in 0..path.len() {
        value = take(value, path[j], values[j]);
    }
    value
}
