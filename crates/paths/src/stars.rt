// Which stars the translator takes: bodies that go one way and never stand still. Which ways a path goes is found from its parts, the record
// number rising; whether it may stand still is asked down the path, the record number falling.
ghost use Rattle.std.specs.Prelude.{◌<◌, ◌≡◌, [], ◌∷◌};
ghost use Rattle.meaning.specs.Record.{count};
ghost use Rattle.meaning.specs.Formula.{may_stand};
ghost use Rattle.meaning.specs.Tree.{path_at};
ghost use Rattle.meaning.specs.Refusal.{first_of, ground11, ground12, star_grounds};
ghost use Rattle.refusals.specs.Refused.{refused};
ghost use Rattle.paths.specs.Asking.{Formed, Scanned, MovesAt, joined};

use records::kind::{Kind, Way};
use records::layout;
use refusals::Refusal;

// The ways that a path's moves go. As two bools they would take two bytes, and an array of those is slower to clear for each small formula.
#[derive(Clone, Copy, Debug, PartialEq, Eq)]
enum Moves {
    Nowhere,
    Ahead,
    Back,
    BothWays,
}

impl Moves {
    // Those of a path made of two. By comparing: a `match` on both has a jump for each in the compiled code, which is slower.
    fn join(self, other: Moves) -> Moves
        ensures { result ≡ joined self other }
    {
        if self == Moves::Nowhere || self == other {
            return other;
        }
        if other == Moves::Nowhere {
            return self;
        }
        Moves::BothWays
    }
}

// Whether path p may stand still.
#[tactic(auto, using(crate::proofs::Moving::path_stands, crate::proofs::Moving::first_part, crate::proofs::Moving::second_part), unfolding(meaning::specs::Record::columns_of))]
fn may_stand(records: &[u8], p: usize) -> bool
    requires { Formed records.now × (p < count records.now) }
    ensures { result ≡ may_stand (path_at records.now p) }
{
    match layout::kind_of(records, p) {
        Kind::Test | Kind::Star => true,
        Kind::Choice => {
            may_stand(records, layout::field_a(records, p))
                || may_stand(records, layout::field_b(records, p))
        }
        Kind::Sequence => {
            may_stand(records, layout::field_a(records, p))
                && may_stand(records, layout::field_b(records, p))
        }
        _ => false,
    }
}

// The moves of record r, if it is a path; what a test's formula has does not count. `moves` has those of the paths before it.
#[tactic(auto, using(crate::proofs::Moving::path_moves, crate::proofs::Moving::known_first, crate::proofs::Moving::known_second), unfolding(meaning::specs::Record::columns_of, meaning::specs::Formula::same_way))]
fn moves_of(records: &[u8], moves: &[Moves; layout::MOST_RECORDS], r: usize) -> Moves
    requires { Scanned records.now r moves.now }
    ensures { MovesAt records.now r result }
{
    match layout::kind_of(records, r) {
        Kind::Move(Way::Ahead) => Moves::Ahead,
        Kind::Move(Way::Back) => Moves::Back,
        Kind::Choice | Kind::Sequence => {
            let first = moves[layout::field_a(records, r)];
            first.join(moves[layout::field_b(records, r)])
        }
        Kind::Star => moves[layout::field_a(records, r)],
        _ => Moves::Nowhere,
    }
}

// 12, then 11, of record r.
#[tactic(auto, using(crate::proofs::Moving::star_ground, crate::proofs::Moving::known_first, crate::proofs::Moving::first_part), unfolding(meaning::specs::Record::columns_of))]
fn star_refusal(
    records: &[u8],
    moves: &[Moves; layout::MOST_RECORDS],
    r: usize,
) -> Result<(), Refusal>
    requires { Scanned records.now r moves.now }
    ensures { refused result ≡ first_of (ground12 records.now r ∷ ground11 records.now r ∷ []) }
{
    let Kind::Star = layout::kind_of(records, r) else {
        return Ok(());
    };
    let body = layout::field_a(records, r);
    if let Moves::BothWays = moves[body] {
        return Err(Refusal::StarTurns);
    }
    if may_stand(records, body) {
        return Err(Refusal::StarStands);
    }
    Ok(())
}

// The first refusal of a star, stars from the first. A struct of records that are known to be formed would be no plainer than `Formed` in the
// contracts: the public functions are given bytes, so each would build it and show its fact.
pub fn stars_refusal(records: &[u8]) -> Result<(), Refusal>
    requires { Formed records.now }
    ensures { refused result ≡ first_of (star_grounds records.now) }
{
    let mut moves = [Moves::Nowhere; layout::MOST_RECORDS];
    for r in 0..layout::record_count(records) {
        star_refusal(records, &moves, r)?;
        moves[r] = moves_of(records, &moves, r);
    }
    Ok(())
}
