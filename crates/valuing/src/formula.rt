// Valuing a record: a formula's row calls for its path's square, and a test in the path for its formula's row. The record number falls.
ghost use Rattle.std.specs.Prelude.{ℕ, ◌≡◌, ◌<◌, ◌↔◌, IsTrue, IfSome};
ghost use Rattle.meaning.specs.Record.{core, count, test, sequence, kind_at};
ghost use Rattle.meaning.specs.WellFormed.{WellFormed};
ghost use Rattle.records.specs.Kinds.{kind_meant, way_meant};
ghost use Rattle.valuing.specs.Valuing.{Moves};

use records::kind::{Kind, Way};
use records::layout;
use rows::{Instants, Square};

// What is valued: the records of a formula, over a trace of so many atoms and instants.
#[derive(Clone, Copy)]
pub struct Plan<'a> {
    pub records: &'a [u8],
    pub atoms: usize,
    pub instants: Instants,
    pub cells: &'a [u8],
}

impl Plan<'_> {
    ghost use Rattle.std.specs.Prelude.{◌≡◌, ◌<◌};
    ghost use Rattle.meaning.specs.Record.{count, formula, path, test, sequence, kind_at, field_a};
    ghost use Rattle.meaning.specs.Value.{star_square};
    ghost use Rattle.records.specs.Kinds.{kind_meant};
    ghost use Rattle.rows.specs.Cells.{at, Holds};
    ghost use Rattle.joining.specs.Joining.{PathPart, join_of};
    ghost use Rattle.valuing.specs.Valuing.{PathSquare};
    ghost use Rattle.valuing.specs.Planned.{AskedBy, RowsBy, SquareBy};

    // Writes the rows of formula r and of the formulas in it.
    #[cycle(path_square_value_formula)]
    pub fn value_formula(&self, r: usize, table: &mut [u8])
        requires { AskedBy self.now r table.old formula }
        ensures { RowsBy self.now r table.old table.new }
    {
        let start = tables::row_start(r, self.instants);
        let n = self.instants.number();
        match layout::kind_of(self.records, r) {
            Kind::Constant(value) => tables::put_constant(table, start, n, 2 * u8::from(value)),
            Kind::Atom => {
                let i = layout::field_a(self.records, r);
                tables::put_atom(table, start, n, self.cells, self.atoms, i);
            }
            Kind::Modal(mode) => {
                let b = layout::field_b(self.records, r);
                self.value_formula(b, table);
                let s = self.path_square(layout::field_a(self.records, r), table);
                let from = tables::row_start(b, self.instants);
                tables::put_modal(mode, &s, table, from, start, self.instants);
            }
            _ => unreachable!(),
        }
    }

    // The square of path p; writes the rows of the formulas in it. No one `match` over the kinds: the square of each arm would lie on the stack by
    // itself, at each level.
    #[cycle(path_square_value_formula)]
    fn path_square(&self, p: usize, table: &mut [u8]) -> Square
        requires { AskedBy self.now p table.old path }
        ensures { RowsBy self.now p table.old table.new × SquareBy self.now p result }
    {
        let kind = layout::kind_of(self.records, p);
        if let Kind::Move(way) = kind {
            return squares::move_square(way, self.instants);
        }
        let a = layout::field_a(self.records, p);
        if let Kind::Test = kind {
            self.value_formula(a, table);
            return squares::test_square(
                &table[..],
                tables::row_start(a, self.instants),
                self.instants,
            );
        }
        if begins_with_test(self.records, kind, a) {
            return self.tested_square(p, a, table);
        }
        let mut s = self.path_square(a, table);
        if let Kind::Star = kind {
            self.close(a, &mut s);
            return s;
        }
        let b = layout::field_b(self.records, p);
        let q = self.path_square(b, table);
        self.join(kind, a, b, &mut s, &q);
        s
    }

    // The square of path p, a sequence whose first part a is a test. A function of its own, and not inlined, so that other paths take less of
    // the stack at each level.
    #[cycle(path_square_value_formula)]
    #[inline(never)]
    fn tested_square(&self, p: usize, a: usize, table: &mut [u8]) -> Square
        requires asked { AskedBy self.now p table.old path }
        requires tested { (kind_at self.now.records.now p ≡ sequence) × (a ≡ field_a self.now.records.now p)
            × (kind_at self.now.records.now a ≡ test) }
        ensures { RowsBy self.now p table.old table.new × SquareBy self.now p result }
    {
        let f = layout::field_a(self.records, a);
        self.value_formula(f, table);
        let mut t = self.path_square(layout::field_b(self.records, p), table);
        squares::cap(
            &mut t,
            &table[..],
            tables::row_start(f, self.instants),
            self.instants,
        );
        t
    }

    // The square of path a becomes that of a choice or a sequence of the paths a and b; q is that of b. Not inlined, for the same reason as
    // `tested_square`.
    #[inline(never)]
    fn join(&self, kind: Kind, a: usize, b: usize, s: &mut Square, q: &Square)
        requires index { (a < count self.now.records.now) × (b < count self.now.records.now) }
        requires parts { PathPart self.now.instants (kind_at self.now.records.now a) s.old
            × PathPart self.now.instants (kind_at self.now.records.now b) q.now }
        ensures { Holds self.now.instants s.new (join_of (kind_meant kind) self.now.instants (at s.old) (at q.now)) }
    {
        let first = layout::kind_of(self.records, a);
        let next = layout::kind_of(self.records, b);
        joining::join(kind, first, next, s, q, self.instants);
    }

    // The square of path p becomes its star's. A star is one already, and one move with tests about it leads to one instant from each.
    // Not inlined, for the same reason.
    #[inline(never)]
    fn close(&self, p: usize, s: &mut Square)
        requires { PathSquare self.now.records.now self.now.instants p s.old }
        ensures { Holds self.now.instants s.new (star_square self.now.instants (at s.old)) }
    {
        if let Kind::Star = layout::kind_of(self.records, p) {
            return;
        }
        match one_way(self.records, p) {
            Some(Way::Ahead) => closing::run_on(s, self.instants),
            Some(Way::Back) => closing::run_back(s, self.instants),
            None => closing::close(s, self.instants),
        }
    }
}

// The way of the one move of path p, if tests before it and after it are all else that p has.
fn one_way(records: &[u8], p: usize) -> Option<Way>
    requires { ((A : ℕ) × WellFormed core records.now A) × (p < count records.now) }
    ensures { IfSome result (λ way. Moves records.now (way_meant way) p) }
{
    let mut q = p;
    loop {
        match layout::kind_of(records, q) {
            Kind::Move(way) => return Some(way),
            Kind::Sequence => {
                let a = layout::field_a(records, q);
                let b = layout::field_b(records, q);
                if is_test(records, a) {
                    q = b;
                } else if is_test(records, b) {
                    q = a;
                } else {
                    return None;
                }
            }
            _ => return None,
        }
    }
}

// Whether a path of the kind with the first part a is a sequence that begins with a test: it needs no square for the test.
fn begins_with_test(records: &[u8], kind: Kind, a: usize) -> bool
    requires { a < count records.now }
    ensures { IsTrue result ↔ ((kind_meant kind ≡ sequence) × (kind_at records.now a ≡ test)) }
{
    match kind {
        Kind::Sequence => is_test(records, a),
        _ => false,
    }
}

// Whether record r is a test.
fn is_test(records: &[u8], r: usize) -> bool
    requires { r < count records.now }
    ensures { IsTrue result ↔ (kind_at records.now r ≡ test) }
{
    matches!(layout::kind_of(records, r), Kind::Test)
}
