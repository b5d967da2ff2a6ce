// The form of rules: refusal 13.
ghost use Rattle.std.specs.Prelude.{◌≡◌, [], ◌∷◌};
ghost use Rattle.meaning.specs.Run.{each};
ghost use Rattle.meaning.specs.Judge.{rule_count};
ghost use Rattle.meaning.specs.Refusal.{first_of, ground13_length, ground13, bad_literal, bad_rule};
ghost use Rattle.refusals.specs.Refused.{refused};
ghost use Rattle.judge.specs.Read.{place_meant, rule_meant};

use crate::literal::Literal;
use crate::place::Place;
use crate::rule;
use crate::rule::Rule;
use refusals::Refusal;
use rules::{FIRST_COLUMN, MOST_RULES, RULE_SIZE};

// The first of the words' length and the rules' forms.
#[tactic(auto, unfolding(meaning::specs::Refusal::of_first, meaning::specs::Refusal::ground13_length))]
pub fn rules_refusal(rules: &[u16], width: usize) -> Result<(), Refusal>
    ensures { refused result ≡ first_of (ground13_length rules.now ∷ each (rule_count rules.now) (λ i. ground13 rules.now width i ∷ [])) }
{
    if rules.len() % RULE_SIZE != 0 || RULE_SIZE * MOST_RULES < rules.len() {
        return Err(Refusal::WrongRules);
    }
    each_refusal(rules, width)
}

#[tactic(auto, using(meaning::proofs::First::scan_none, meaning::proofs::First::scan_more, meaning::proofs::First::scan_found, meaning::proofs::First::scan_done, crate::proofs::Answered::passed_on, crate::proofs::Words::bad_place), unfolding(meaning::specs::Refusal::of_first, meaning::specs::Refusal::ground13))]
fn each_refusal(rules: &[u16], width: usize) -> Result<(), Refusal>
    ensures { refused result ≡ first_of (each (rule_count rules.now) (λ i. ground13 rules.now width i ∷ [])) }
{
    for i in 0..rules.len() / RULE_SIZE {
        let rule = rule::rule_at(rules, i)?;
        if is_bad(rule, width) {
            return Err(Refusal::WrongRules);
        }
    }
    Ok(())
}

// Whether some literal is bad.
#[tactic(auto, unfolding(meaning::specs::Refusal::bad_rule))]
fn is_bad(rule: Rule, width: usize) -> bool
    ensures { result ≡ bad_rule width (rule_meant rule) }
{
    rule.body
        .iter()
        .any(|&literal| is_bad_literal(width, rule.place, literal))
        || rule
            .head
            .iter()
            .any(|&literal| is_bad_literal(width, rule.place, literal))
}

// A symbol that is no column, or the previous instant where there may be none.
#[tactic(auto, unfolding(meaning::specs::Refusal::bad_literal))]
fn is_bad_literal(width: usize, place: Place, literal: Literal) -> bool
    ensures { result ≡ bad_literal width (place_meant place) literal.0 }
{
    usize::from(FIRST_COLUMN).saturating_add(width) <= usize::from(literal.symbol())
        || literal.is_previous() && !matches!(place, Place::Later)
}
