// Writing a formula's records as text.
ghost use Rattle.std.specs.Prelude.{◌≡◌, ◌++◌, length};
ghost use Rattle.meaning.specs.Text.{whole_text};
ghost use Rattle.meaning.specs.Refusal.{first_of, check_grounds, back_grounds, is_back};
ghost use Rattle.meaning.specs.Service.{write_answer, write_after};
ghost use Rattle.records.specs.Kinds.{kind_meant};
ghost use Rattle.refusals.specs.Refused.{refused, counted};
ghost use Rattle.spelling.specs.Spelling.{Spellable};
ghost use Rattle.text.specs.Texting.{Sized};

use records::kind::{Kind, Way};
use records::layout;
use refusals::Refusal;

// The first refusal that applies; or the formula's text.
pub fn write_text(records: &[u8], atoms: u64, text: &mut [u8]) -> Result<usize, Refusal>
    ensures refusal { refused result ≡ (write_answer records.now atoms (length text.old)).refusal }
    ensures count { counted result ≡ (write_answer records.now atoms (length text.old)).count }
    ensures bytes { text.new ≡ write_after records.now atoms text.old }
{
    formula_refusal(records, atoms)?;
    write_formula(records, text)
}

// Those of check, and then 18.
fn formula_refusal(records: &[u8], atoms: u64) -> Result<(), Refusal>
    ensures { refused result ≡ first_of (check_grounds records.now atoms ++ back_grounds records.now) }
{
    checks::check(records, atoms)?;
    back_refusal(records)
}

// 18: a back step, which has no sign.
#[tactic(auto, using(crate::proofs::Backless::backless_none, crate::proofs::Backless::backless_more, crate::proofs::Backless::backless_found, crate::proofs::Backless::backless_done,),)]
fn back_refusal(records: &[u8]) -> Result<(), Refusal>
    ensures { refused result ≡ first_of (back_grounds records.now) }
{
    for r in 0..layout::record_count(records) {
        if is_back(layout::kind_of(records, r)) {
            return Err(Refusal::NoSign);
        }
    }
    Ok(())
}

#[tactic(auto, unfolding(meaning::specs::Refusal::is_back, meaning::specs::Text::is_ahead))]
fn is_back(kind: Kind) -> bool
    ensures { result ≡ is_back (kind_meant kind) }
{
    matches!(kind, Kind::Move(Way::Back))
}

// The text of records that are a formula. Its length is known only at its end, so it is written into a buffer first.
fn write_formula(records: &[u8], text: &mut [u8]) -> Result<usize, Refusal>
    requires { Spellable records.now }
    ensures { Sized (whole_text records.now) (length (whole_text records.now)) text.old (refused result) (counted result) text.new }
{
    let mut buffer = [0u8; spelling::MOST_TEXT];
    let n = spelling::spell_formula(records, &mut buffer);
    if text.len() < n {
        return Err(Refusal::NoRoom);
    }
    copying::copy(&buffer[..], n, text);
    Ok(n)
}
