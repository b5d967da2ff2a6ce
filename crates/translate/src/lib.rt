// Translating a formula into rules: the first refusal, and the work that is done where there is none.
#![tactic(auto)]

ghost use Rattle.std.specs.Prelude.{◌≡◌, IfOk, length};
ghost use Rattle.meaning.specs.Refusal.{first_of, starred_grounds, translate_grounds};
ghost use Rattle.meaning.specs.Service.{translate_answer, translate_after};
ghost use Rattle.refusals.specs.Refused.{refused, counted};
ghost use Rattle.contexts.specs.Contexts.{contexts_of};

use contexts::{Context, Contexts};
use records::kind::Mode;
use records::layout;
use refusals::Refusal;
use rules::RULE_SIZE;

// The first refusal that applies; or the rules of the formula, six words each.
#[tactic(auto, using(crate::proofs::RoomGrounds::accepted), unfolding(meaning::specs::Service::translate_answer, meaning::specs::Service::translate_after))]
pub fn translate(records: &[u8], atoms: u64, out: &mut [u16]) -> Result<usize, Refusal>
    ensures refusal { refused result ≡ (translate_answer records.now atoms (length out.old)).refusal }
    ensures count { counted result ≡ (translate_answer records.now atoms (length out.old)).count }
    ensures words { out.new ≡ translate_after records.now atoms out.old }
{
    // Zero bytes are cleared in less code than `Context::NONE` takes; each entry is written anew where the formula is accepted.
    let mut contexts = [Context {
        mode: Mode::Diamond,
        continuation: 0,
    }; layout::MOST_RECORDS];
    found_contexts(records, atoms, out.len(), &mut contexts)?;
    // A small number by now; `usize` has no `From<u64>`.
    Ok(writing::write_rules(records, atoms as usize, &contexts, out))
}

// Conditions in the specification's order: those of the formula, and then the room, in words. Where none applies, the contexts of its paths
// are stored: as a part of the result they would be copied.
fn found_contexts(
    records: &[u8],
    atoms: u64,
    room: usize,
    contexts: &mut Contexts,
) -> Result<(), Refusal>
    ensures refusal { refused result ≡ first_of (translate_grounds records.now atoms room) }
    ensures contexts { IfOk result (λ _. contexts.new ≡ contexts_of records.now) }
{
    formula_refusal(records, atoms)?;
    contexts::find_contexts(records, contexts);
    if room < RULE_SIZE * writing::rule_count(records, contexts) {
        return Err(Refusal::NoRoom);
    }
    Ok(())
}

// Those of check, then 12 and 11 of each star.
fn formula_refusal(records: &[u8], atoms: u64) -> Result<(), Refusal>
    ensures { refused result ≡ first_of (starred_grounds records.now atoms) }
{
    checks::check(records, atoms)?;
    paths::stars::stars_refusal(records)
}
