// Checking formula records.
#![tactic(auto)]

pub mod refusal;

ghost use Rattle.std.specs.Prelude.{◌≡◌};
ghost use Rattle.meaning.specs.Service.{check_answer};
ghost use Rattle.refusals.specs.Refused.{refused};

use records::layout;
use refusals::Refusal;
use shapes::Language;

// The first refusal that applies to the records, over `atoms` atoms.
#[tactic(auto, unfolding(meaning::specs::Service::check_answer, meaning::specs::Refusal::check_grounds, meaning::specs::Refusal::ground8))]
pub fn check(records: &[u8], atoms: u64) -> Result<(), Refusal>
    ensures { refused result ≡ check_answer records.now atoms }
{
    refusal::formula_refusal(records, Language::Core, atoms, layout::MOST_ATOMS < atoms)
}
