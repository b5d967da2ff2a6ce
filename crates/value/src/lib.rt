// Valuing a formula over a trace.
#![tactic(auto)]

ghost use Rattle.std.specs.Prelude.{◌≡◌, length};
ghost use Rattle.meaning.specs.Refusal.{first_of, value_grounds};
ghost use Rattle.meaning.specs.Service.{value_answer, value_after};
ghost use Rattle.refusals.specs.Refused.{refused, counted};

use checks::refusal;
use records::layout;
use refusals::Refusal;
use rows::Instants;
use shapes::Language;

// For C: a refusal's number, or 0 and the whole formula's value at the first instant. Not one struct with `Counted`: C has fields of other
// types.
#[repr(C)]
#[derive(Drop)]
pub struct Valued {
    pub refusal: u8,
    pub value: u8,
}

impl From<Result<u8, Refusal>> for Valued {
    ghost use Rattle.std.specs.Prelude.{◌≡◌};
    ghost use Rattle.refusals.specs.Refused.{refused, counted};

    ghost from_gives = { λ answer v. (v.refusal ≡ refused answer) × (v.value ≡ counted answer) };

    fn from(answer: Result<u8, Refusal>) -> Valued {
        match answer {
            Ok(value) => Valued { refusal: 0, value },
            Err(refusal) => Valued {
                refusal: refusal.into(),
                value: 0,
            },
        }
    }
}

// The first refusal that applies; or the whole formula's value at the first instant, and the values of all records in the table, a row each.
pub fn value(
    records: &[u8],
    atoms: u64,
    instants: u64,
    cells: &[u8],
    out: &mut [u8],
) -> Result<u8, Refusal>
    ensures refusal { refused result ≡ (value_answer records.now atoms instants cells.now (length out.old)).refusal }
    ensures value { counted result ≡ (value_answer records.now atoms instants cells.now (length out.old)).value }
    ensures table { out.new ≡ value_after records.now atoms instants cells.now out.old }
{
    first_refusal(records, atoms, instants, cells, out.len())?;
    // Small numbers by now; `usize` has no `From<u64>`.
    let l = Instants::new(instants as usize);
    Ok(valuing::fill(records, atoms as usize, l, cells, out))
}

// Conditions in the specification's order: 1, 8, those of the records, 9, 10.
fn first_refusal(
    records: &[u8],
    atoms: u64,
    instants: u64,
    cells: &[u8],
    room: usize,
) -> Result<(), Refusal>
    ensures { refused result ≡ first_of (value_grounds records.now atoms instants cells.now room) }
{
    // 32; `u16` has no `From<u64>`.
    let wrong_size = trace::wrong_size(layout::MOST_ATOMS as u16, atoms, instants, cells);
    refusal::formula_refusal(records, Language::Core, atoms, wrong_size)?;
    trace::cells_refusal(cells)?;
    // A small number by now; `usize` has no `From<u64>`.
    let l = Instants::new(instants as usize);
    if room < tables::row_start(layout::record_count(records), l) {
        return Err(Refusal::NoRoom);
    }
    Ok(())
}
