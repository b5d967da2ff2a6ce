// The rules of one record, as four rows of six words.
#![tactic(auto)]

ghost use Rattle.std.specs.Prelude.{◌≡◌, [], ◌∷◌, ◌++◌, map, replicate};
ghost use Rattle.meaning.specs.Rule.{rule, rule_size};
ghost use Rattle.meaning.specs.Translation.{rules_of, same_rules, edge_rule, join_rules, test_rules, move_rules, rule_number};
ghost use Rattle.records.specs.Kinds.{mode_meant, way_meant, kind_meant};
ghost use Rattle.rulings.specs.Rows.{row_of, rows_of, Small};

use records::kind::{Kind, Mode, Way};
use rules::{EVERY, FALSE, FIRST, FIRST_COLUMN, LAST, LATER, NEGATED, PREVIOUS, RULE_SIZE, TRUE};

// A rule's words, as they are written: the place, two of the body, three of the head. An unused word is true in the body and false in the head.
pub type Row = [u16; RULE_SIZE];

// A record's rules: the first row_count rows; the rest are NO_RULE.
pub type Rows = [Row; 4];

// Fills a record's rows up to four, which `rows_of` promises.
const NO_RULE: Row = [0; RULE_SIZE];

// At the place u and v have the same value; a third rule may follow.
fn same_rows(place: u16, u: u16, v: u16, third: Row) -> Rows
    ensures { result ≡ map row_of (same_rules place u v) ++ (third ∷ replicate rule_size 0 ∷ []) }
{
    [
        [place, u, TRUE, v, FALSE, FALSE],
        [place, v, TRUE, u, FALSE, FALSE],
        third,
        NO_RULE,
    ]
}

// x is the greater of u and v under a diamond, the smaller under a box.
#[tactic(auto, unfolding(meaning::specs::Translation::join_rules))]
fn join_rows(mode: Mode, x: u16, u: u16, v: u16) -> Rows
    ensures { result ≡ rows_of (join_rules (mode_meant mode) x u v) }
{
    match mode {
        Mode::Diamond => [
            [EVERY, x, TRUE, u, v, FALSE],
            [EVERY, u, TRUE, x, FALSE, FALSE],
            [EVERY, v, TRUE, x, FALSE, FALSE],
            NO_RULE,
        ],
        Mode::Box => [
            [EVERY, x, TRUE, u, FALSE, FALSE],
            [EVERY, x, TRUE, v, FALSE, FALSE],
            [EVERY, u, v, x, FALSE, FALSE],
            NO_RULE,
        ],
    }
}

// x is c after the test of a: other rules than a join's, so another table.
#[tactic(auto, unfolding(meaning::specs::Translation::test_rules))]
fn test_rows(mode: Mode, x: u16, a: u16, c: u16) -> Rows
    requires { Small a × Small c }
    ensures { result ≡ rows_of (test_rules (mode_meant mode) x a c) }
{
    match mode {
        Mode::Diamond => [
            [EVERY, x, TRUE, a, FALSE, FALSE],
            [EVERY, x, TRUE, c, FALSE, FALSE],
            [EVERY, a, c, x, FALSE, FALSE],
            NO_RULE,
        ],
        Mode::Box => {
            let not_a = a + NEGATED;
            let not_c = c + NEGATED;
            [
                [EVERY, x, a, c, FALSE, FALSE],
                [EVERY, not_a, TRUE, x, FALSE, FALSE],
                [EVERY, c, TRUE, x, FALSE, FALSE],
                [EVERY, TRUE, TRUE, x, a, not_c],
            ]
        }
    }
}

// The edge rule at a place: under a diamond x is false there, under a box it is true.
#[tactic(auto, unfolding(meaning::specs::Translation::edge_rule))]
fn edge_row(mode: Mode, place: u16, x: u16) -> Row
    ensures { result ≡ row_of (edge_rule (mode_meant mode) place x) }
{
    match mode {
        Mode::Diamond => [place, x, TRUE, FALSE, FALSE, FALSE],
        Mode::Box => [place, TRUE, TRUE, x, FALSE, FALSE],
    }
}

// Step: x is c at the next instant; back step: c at the previous one. Where there is none, x is false under a diamond, true under a box.
#[tactic(auto, unfolding(meaning::specs::Translation::move_rules))]
fn move_rows(way: Way, mode: Mode, x: u16, c: u16) -> Rows
    requires { Small x × Small c }
    ensures { result ≡ rows_of (move_rules (way_meant way) (mode_meant mode) x c) }
{
    match way {
        Way::Ahead => same_rows(LATER, x + PREVIOUS, c, edge_row(mode, LAST, x)),
        Way::Back => same_rows(LATER, x, c + PREVIOUS, edge_row(mode, FIRST, x)),
    }
}

// The labels that a record's rules speak of: its own, its children's, its continuation's.
#[derive(Clone, Copy)]
pub struct Labels {
    pub x: u16,
    pub a: u16,
    pub b: u16,
    pub c: u16,
}

// The rules of a record; i is its field a. Kinds that are not of the core have none.
#[tactic(auto, unfolding(meaning::specs::Translation::rules_of))]
pub fn rows_of(kind: Kind, mode: Mode, labels: Labels, i: u16) -> Rows
    requires { Small labels.x × Small labels.a × Small labels.c × Small i }
    ensures { result ≡ rows_of (rules_of (kind_meant kind) (mode_meant mode) labels.x labels.a labels.b labels.c i) }
{
    let Labels { x, a, b, c } = labels;
    match kind {
        Kind::Constant(false) => same_rows(EVERY, x, FALSE, NO_RULE),
        Kind::Constant(true) => same_rows(EVERY, x, TRUE, NO_RULE),
        Kind::Atom => same_rows(EVERY, x, FIRST_COLUMN + i, NO_RULE),
        Kind::Move(way) => move_rows(way, mode, x, c),
        Kind::Test => test_rows(mode, x, a, c),
        Kind::Choice => join_rows(mode, x, a, b),
        Kind::Star => join_rows(mode, x, c, a),
        Kind::Modal(_) | Kind::Sequence => same_rows(EVERY, x, a, NO_RULE),
        Kind::Shorthand(_) | Kind::Unknown => [NO_RULE; 4],
    }
}

// How many rules a record has.
#[tactic(auto, unfolding(meaning::specs::Translation::rule_number))]
pub fn row_count(kind: Kind, mode: Mode) -> usize
    ensures { result ≡ rule_number (kind_meant kind) (mode_meant mode) }
{
    match kind {
        Kind::Constant(_) | Kind::Atom | Kind::Modal(_) | Kind::Sequence => 2,
        Kind::Test => match mode {
            Mode::Diamond => 3,
            Mode::Box => 4,
        },
        Kind::Move(_) | Kind::Choice | Kind::Star => 3,
        Kind::Shorthand(_) | Kind::Unknown => 0,
    }
}

// The rule that asserts the label x at the first instant.
pub fn assert_row(x: u16) -> Row
    ensures { result ≡ row_of (rule 1 [] (x ∷ [])) }
{
    [FIRST, TRUE, TRUE, x, FALSE, FALSE]
}
