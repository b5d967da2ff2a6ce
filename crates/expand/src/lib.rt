// Writing a formula's shorthands out.
#![tactic(auto)]

mod steps;
mod write;

ghost use Rattle.std.specs.Prelude.{◌≡◌, pred, length};
ghost use Rattle.meaning.specs.Record.{count};
ghost use Rattle.meaning.specs.Service.{expand_answer, expand_after};
ghost use Rattle.refusals.specs.Refused.{refused, counted};
ghost use Rattle.expand.specs.Expanding.{Expandable, Expanded};

use checks::refusal;
use records::layout;
use refusals::Refusal;
use shapes::Language;

// The first refusal that applies; or the number of records of the formula in core kinds, these in postorder.
pub fn expand(records: &[u8], atoms: u64, out: &mut [u8]) -> Result<usize, Refusal>
    ensures refusal { refused result ≡ (expand_answer records.now atoms (length out.old)).refusal }
    ensures count { counted result ≡ (expand_answer records.now atoms (length out.old)).count }
    ensures bytes { out.new ≡ expand_after records.now atoms out.old }
{
    refusal::formula_refusal(records, Language::Full, atoms, layout::MOST_ATOMS < atoms)?;
    expand_formula(records, out)
}

// The same for records that are a formula: what is left to refuse is its size. That is known only after the last record, and a refusal
// leaves the output as it was, so the records are written into a buffer.
fn expand_formula(records: &[u8], out: &mut [u8]) -> Result<usize, Refusal>
    requires { Expandable records.now (pred (count records.now)) }
    ensures { Expanded records.now out.old (refused result) (counted result) out.new }
{
    let last = layout::record_count(records) - 1;
    let mut buffer = [0u8; layout::MOST_BYTES];
    let Some(n) = write::write_tree(records, last, &mut buffer, 0) else {
        return Err(Refusal::TooLong);
    };
    if out.len() < layout::RECORD_SIZE * n {
        return Err(Refusal::NoRoom);
    }
    copying::copy(&buffer[..], layout::RECORD_SIZE * n, out);
    Ok(n)
}
