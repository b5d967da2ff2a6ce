// A rule as read from the words.
ghost use Rattle.std.specs.Prelude.{◌≡◌, ◌<◌, MatchResult};
ghost use Rattle.meaning.specs.Rule.{rule_at, rule_word, rule_size};
ghost use Rattle.meaning.specs.Judge.{rule_count};
ghost use Rattle.judge.specs.Read.{rule_meant};

use crate::literal::Literal;
use crate::place::Place;
use refusals::Refusal;
use rules::RULE_SIZE;

// Where it is judged, the literals of its body, and those of its head.
#[derive(Clone, Copy)]
pub struct Rule {
    pub place: Place,
    pub body: [Literal; 2],
    pub head: [Literal; 3],
}

// Word j of rule i.
fn word(rules: &[u16], i: usize, j: usize) -> u16
    requires { (i < rule_count rules.now) × (j < rule_size) }
    ensures { result ≡ rule_word rules.now i j }
{
    rules[RULE_SIZE * i + j]
}

// Rule i, unless its first word names no place.
#[tactic(auto, unfolding(meaning::specs::Rule::rule_at))]
pub fn rule_at(rules: &[u16], i: usize) -> Result<Rule, Refusal>
    requires { i < rule_count rules.now }
    ensures { MatchResult result (λ rule. rule_meant rule ≡ rule_at rules.now i) (λ refusal. (refusal ≡ Refusal.WrongRules) × (3 < (rule_at rules.now i).place)) }
{
    Ok(Rule {
        place: Place::try_from(word(rules, i, 0))?,
        body: [Literal(word(rules, i, 1)), Literal(word(rules, i, 2))],
        head: [
            Literal(word(rules, i, 3)),
            Literal(word(rules, i, 4)),
            Literal(word(rules, i, 5)),
        ],
    })
}
