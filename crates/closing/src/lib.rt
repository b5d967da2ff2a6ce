// The star of a path, in its square: 2 on the diagonal for no pass, then each instant in turn as a stop on the way.
#![tactic(auto)]

ghost use Rattle.std.specs.Prelude.{ℕ, ◌<◌, ◌≤◌, get_or};
ghost use Rattle.meaning.specs.Record.{ahead, back};
ghost use Rattle.meaning.specs.Value.{star_square};
ghost use Rattle.records.specs.Kinds.{way_meant};
ghost use Rattle.rows.specs.Cells.{width, at, Holds};
ghost use Rattle.closing.specs.Closing.{no_pass, Passed, PassedRows, Moving};

use records::kind::Way;
use rows::{DIAGONAL, Instants, Row, Square, WIDTH};

// The star of any path.
pub fn close(s: &mut Square, l: Instants)
    requires { (k j : ℕ) → k < l → j < l → at s.old k j ≤ 2 }
    ensures { Holds l s.new (star_square l (at s.old)) }
{
    stand(s, l);
    for mid in 0..l.number() {
        pass(s, mid, 0, l.number());
    }
}

// The star of a path that leads to the next instant alone.
pub fn run_on(s: &mut Square, l: Instants)
    requires { Moving ahead l (at s.old) }
    ensures { Holds l s.new (star_square l (at s.old)) }
{
    run(Way::Ahead, s, l);
}

// The same for a path that leads to the instant before alone.
pub fn run_back(s: &mut Square, l: Instants)
    requires { Moving back l (at s.old) }
    ensures { Holds l s.new (star_square l (at s.old)) }
{
    run(Way::Back, s, l);
}

// The star of a path that leads to the instant beside alone, in the way: each row needs that instant's row and no other, so the rows are done
// one after the other from the edge to which the way leads.
fn run(way: Way, s: &mut Square, l: Instants)
    requires { Moving (way_meant way) l (at s.old) }
    ensures { Holds l s.new (star_square l (at s.old)) }
{
    stand(s, l);
    let n = l.number();
    for i in 1..n {
        let (k, beside) = match way {
            Way::Ahead => (n - i - 1, n - i),
            Way::Back => (i, i - 1),
        };
        pass(s, beside, k, k + 1);
    }
}

// No pass: 2 from each instant to itself.
fn stand(s: &mut Square, l: Instants)
    ensures { Holds l s.new (no_pass (at s.old)) }
{
    for k in 0..l.number() {
        s[k * DIAGONAL] = 2;
    }
}

// Each value of the rows from `from` up to `to`, or by way of mid. The copy of mid's row is made here, in the one place that calls
// pass_row, so that the compiler sees that it is no part of the square.
fn pass(s: &mut Square, mid: usize, from: usize, to: usize)
    requires { (mid < width) × (from ≤ to) × (to ≤ width) }
    ensures { PassedRows mid from to s.old s.new }
{
    let row = rows::row_of(s, mid);
    for k in from..to {
        pass_row(s, k, mid, &row);
    }
}

// Row k, whose value to mid is u, raised by mid's row. Nothing leads on from a 0.
fn pass_row(s: &mut Square, k: usize, mid: usize, row: &Row)
    requires { (k < width) × (mid < width) }
    ensures { Passed k (at s.old k mid) (λ j. get_or row.now j 0) s.old s.new }
{
    let u = s[k * WIDTH + mid];
    if u != 0 {
        let mut own = rows::row_of(s, k);
        rows::raise(&mut own, row, u);
        rows::put_row(s, k, &own);
    }
}
