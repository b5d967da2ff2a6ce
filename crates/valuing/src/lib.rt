// The values of an accepted formula's records.
#![tactic(auto)]

mod formula;

ghost use Rattle.std.specs.Prelude.{◌≡◌, pred, length};
ghost use Rattle.meaning.specs.Run.{written, cell_of};
ghost use Rattle.meaning.specs.Record.{count};
ghost use Rattle.meaning.specs.Tree.{form_at};
ghost use Rattle.meaning.specs.Value.{value_of};
ghost use Rattle.meaning.specs.Service.{table};
ghost use Rattle.valuing.specs.Valuing.{Legal};

use formula::Plan;
use records::layout;
use rows::Instants;

// The table, a row for each record, and the whole formula's value at the first instant.
pub fn fill(records: &[u8], atoms: usize, l: Instants, cells: &[u8], out: &mut [u8]) -> u8
    requires { Legal records.now atoms l cells.now (length out.old) }
    ensures { (result ≡ value_of l (cell_of atoms cells.now) (form_at records.now (pred (count records.now))) 0) × (out.new ≡ written (table records.now atoms l cells.now) out.old) }
{
    let n = layout::record_count(records);
    tables::put_constant(out, 0, tables::row_start(n, l), 0);
    let plan = Plan {
        records,
        atoms,
        instants: l,
        cells,
    };
    plan.value_formula(n - 1, out);
    out[tables::row_start(n - 1, l)]
}
