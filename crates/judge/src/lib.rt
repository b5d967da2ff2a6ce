// Judging rules over a filled trace.
#![tactic(auto)]

mod filled;
mod form;
mod literal;
mod place;
mod rule;

ghost use Rattle.std.specs.Prelude.{◌≡◌, ◌<◌, false, not};
ghost use Rattle.meaning.specs.Run.{cell_of};
ghost use Rattle.meaning.specs.Rule.{holds};
ghost use Rattle.meaning.specs.Judge.{verdict};
ghost use Rattle.meaning.specs.Refusal.{first_of, bad_rule, judge_grounds};
ghost use Rattle.meaning.specs.Service.{judge_answer};
ghost use Rattle.refusals.specs.Refused.{refused};
ghost use Rattle.judge.specs.Form.{Formed};
ghost use Rattle.judge.specs.Found.{verdict_of, holds_of, rule_of, instant_of};
ghost use Rattle.judge.specs.Read.{rule_meant};

use crate::filled::Filled;
use crate::rule::Rule;
use refusals::Refusal;
use rules::RULE_SIZE;

// The first rule that fails, and its first failing instant.
#[derive(Clone, Copy, Debug, PartialEq, Eq)]
pub struct Failure {
    pub rule: usize,
    pub instant: usize,
}

// For C: a refusal's number, or 0 and whether all rules hold, and else the first failure.
#[repr(C)]
#[derive(Drop)]
pub struct Judged {
    pub refusal: u8,
    pub holds: u8,
    pub rule: u64,
    pub instant: u64,
}

impl From<Result<Option<Failure>, Refusal>> for Judged {
    ghost use Rattle.std.specs.Prelude.{◌≡◌};
    ghost use Rattle.refusals.specs.Refused.{refused};
    ghost use Rattle.judge.specs.Found.{holds_of, rule_of, instant_of};

    ghost from_gives = { λ answer j. (j.refusal ≡ refused answer) × (j.holds ≡ holds_of answer) × (j.rule ≡ rule_of answer) × (j.instant ≡ instant_of answer) };

    fn from(answer: Result<Option<Failure>, Refusal>) -> Judged {
        match answer {
            Ok(None) => Judged {
                refusal: 0,
                holds: 1,
                rule: 0,
                instant: 0,
            },
            // `u64` has no `From<usize>`.
            Ok(Some(failure)) => Judged {
                refusal: 0,
                holds: 0,
                rule: failure.rule as u64,
                instant: failure.instant as u64,
            },
            Err(refusal) => Judged {
                refusal: refusal.into(),
                holds: 0,
                rule: 0,
                instant: 0,
            },
        }
    }
}

// The first refusal that applies; or the first failure, and none where all rules hold.
#[tactic(auto, using(crate::proofs::JudgeGrounds::accepted))]
pub fn judge(
    rules: &[u16],
    width: u64,
    instants: u64,
    cells: &[u8],
) -> Result<Option<Failure>, Refusal>
    ensures refusal { refused result ≡ (judge_answer rules.now width instants cells.now).refusal }
    ensures holds { holds_of result ≡ (judge_answer rules.now width instants cells.now).holds }
    ensures rule { rule_of result ≡ (judge_answer rules.now width instants cells.now).rule }
    ensures instant { instant_of result ≡ (judge_answer rules.now width instants cells.now).instant }
{
    first_refusal(rules, width, instants, cells)?;
    // Small numbers by now; `usize` has no `From<u64>`.
    let trace = Filled {
        width: width as usize,
        instants: instants as usize,
        cells,
    };
    Ok(first_failure(rules, &trace))
}

// Conditions in the specification's order: 8, 13, 9.
#[tactic(auto, using(trace::proofs::Fitting::size_fits, refusals::proofs::Answered::positive, crate::proofs::Answered::passed_on, crate::proofs::JudgeGrounds::refused_8, crate::proofs::JudgeGrounds::refused_13, crate::proofs::JudgeGrounds::cells_decide))]
fn first_refusal(rules: &[u16], width: u64, instants: u64, cells: &[u8]) -> Result<(), Refusal>
    ensures { refused result ≡ first_of (judge_grounds rules.now width instants cells.now) }
{
    if trace::wrong_size(trace::MOST_COLUMNS, width, instants, cells) {
        return Err(Refusal::WrongSize);
    }
    // `usize` has no `From<u64>`.
    form::rules_refusal(rules, width as usize)?;
    trace::cells_refusal(cells)
}

// Rules in order, instants in order, up to the first that fails.
#[tactic(auto, using(meaning::proofs::Judging::yes_means, crate::proofs::Words::was_read, crate::proofs::PlaceStretch::place_stretch, meaning::proofs::Judging::no_means))]
fn first_failure(rules: &[u16], trace: &Filled) -> Option<Failure>
    requires { Formed rules.now trace.now.width }
    ensures { verdict_of result ≡ verdict rules.now trace.now.instants (cell_of trace.now.width trace.now.cells.now) }
{
    for i in 0..rules.len() / RULE_SIZE {
        let rule = rule::rule_at(rules, i).unwrap();
        for instant in rule.place.start(trace.instants)..rule.place.end(trace.instants) {
            if fails_at(rule, trace, instant) {
                return Some(Failure { rule: i, instant });
            }
        }
    }
    None
}

// Whether a rule fails at an instant k of its place: its body is worth more than its head. A literal is looked up where it may decide.
#[tactic(auto, using(crate::proofs::Words::may_look, crate::proofs::Words::by_body, crate::proofs::Words::head_look, crate::proofs::Words::by_head, crate::proofs::Words::by_all))]
fn fails_at(rule: Rule, trace: &Filled, k: usize) -> bool
    requires { (bad_rule trace.now.width (rule_meant rule) ≡ false) × (k < trace.now.instants) }
    ensures { result ≡ not (holds (cell_of trace.now.width trace.now.cells.now) (rule_meant rule) k) }
{
    let u = trace.literal(rule.body[0], k);
    if u == 0 {
        return false;
    }
    let body = three::lesser(u, trace.literal(rule.body[1], k));
    for literal in rule.head {
        if body <= trace.literal(literal, k) {
            return false;
        }
    }
    true
}
