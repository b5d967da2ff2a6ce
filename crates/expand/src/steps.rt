// What each kind is written as: a row of steps, in the order of the records that come out. Until is the tree of field a, a test, a step,
// a sequence, a star, the tree of field b, a diamond.
ghost use Rattle.std.specs.Prelude.{◌≡◌, map};
ghost use Rattle.records.specs.Kinds.{kind_meant};
ghost use Rattle.expand.specs.Steps.{steps_of, next_under};
ghost use Rattle.expand.specs.Rows.{step_meant};

use Step::{Atom, Leaf, One, PartA, PartB, Two};
use records::kind::{Kind, Mode, Shorthand, Way};

// A kind of the core, by its number, which each record that is written begins with. A `Kind` in its place is slower: its number is looked up.
#[derive(Clone, Copy, Debug, PartialEq, Eq)]
pub enum Core {
    False = 0,
    True = 1,
    Atom = 2,
    Diamond = 3,
    Box = 4,
    Ahead = 5,
    Back = 6,
    Test = 7,
    Choice = 8,
    Sequence = 9,
    Star = 10,
}

impl From<Core> for u8 {
    ghost use Rattle.std.specs.Prelude.{◌≡◌};
    ghost use Rattle.meaning.specs.Record.{number_of};
    ghost use Rattle.expand.specs.Rows.{core_meant};

    ghost from_gives = { λ core number. number ≡ number_of (core_meant core) };

    #[tactic(auto, unfolding(meaning::specs::Record::number_of))]
    fn from(core: Core) -> u8 {
        core as u8
    }
}

// The tree of a field, or one record: an atom's, or one with no child, one child or two.
#[derive(Clone, Copy, Debug, PartialEq, Eq)]
pub enum Step {
    PartA,
    PartB,
    Atom,
    Leaf(Core),
    One(Core),
    Two(Core),
}

const FALSE: Step = Leaf(Core::False);

const TRUE: Step = Leaf(Core::True);

const AHEAD: Step = Leaf(Core::Ahead);

const BACK: Step = Leaf(Core::Back);

const TEST: Step = One(Core::Test);

const STAR: Step = One(Core::Star);

const CHOICE: Step = Two(Core::Choice);

const SEQUENCE: Step = Two(Core::Sequence);

const DIAMOND: Step = Two(Core::Diamond);

const BOX: Step = Two(Core::Box);

// The table of all rows.
#[tactic(auto, unfolding(crate::specs::Steps::steps_of, crate::specs::Steps::form_steps, crate::specs::Steps::path_steps, meaning::specs::Shorthand::expansion))]
pub fn row_of(kind: Kind) -> &'static [Step]
    ensures { map step_meant result.now ≡ steps_of (kind_meant kind) }
{
    match kind {
        Kind::Constant(false) => &[FALSE],
        Kind::Constant(true) => &[TRUE],
        Kind::Atom => &[Atom],
        Kind::Modal(Mode::Diamond) => &[PartA, PartB, DIAMOND],
        Kind::Modal(Mode::Box) => &[PartA, PartB, BOX],
        Kind::Move(Way::Ahead) => &[AHEAD],
        Kind::Move(Way::Back) => &[BACK],
        Kind::Test => &[PartA, TEST],
        Kind::Choice => &[PartA, PartB, CHOICE],
        Kind::Sequence => &[PartA, PartB, SEQUENCE],
        Kind::Star => &[PartA, STAR],
        Kind::Shorthand(shorthand) => match shorthand {
            Shorthand::Denied => &[PartA, TEST, FALSE, BOX],
            Shorthand::Both => &[PartA, TEST, PartB, DIAMOND],
            Shorthand::Either => &[PartA, TEST, PartB, TEST, CHOICE, TRUE, DIAMOND],
            Shorthand::Implies => &[PartA, TEST, PartB, BOX],
            Shorthand::End(Way::Ahead) => &[AHEAD, FALSE, BOX],
            Shorthand::End(Way::Back) => &[BACK, FALSE, BOX],
            Shorthand::Beside(Way::Ahead, Mode::Diamond) => &[AHEAD, PartA, DIAMOND],
            Shorthand::Beside(Way::Ahead, Mode::Box) => &[AHEAD, PartA, BOX],
            Shorthand::Beside(Way::Back, Mode::Diamond) => &[BACK, PartA, DIAMOND],
            Shorthand::Beside(Way::Back, Mode::Box) => &[BACK, PartA, BOX],
            Shorthand::Along(Way::Ahead, Mode::Diamond) => &[AHEAD, STAR, PartA, DIAMOND],
            Shorthand::Along(Way::Ahead, Mode::Box) => &[AHEAD, STAR, PartA, BOX],
            Shorthand::Along(Way::Back, Mode::Diamond) => &[BACK, STAR, PartA, DIAMOND],
            Shorthand::Along(Way::Back, Mode::Box) => &[BACK, STAR, PartA, BOX],
            Shorthand::Until => &[PartA, TEST, AHEAD, SEQUENCE, STAR, PartB, DIAMOND],
            Shorthand::Since => &[PartA, TEST, BACK, SEQUENCE, STAR, PartB, DIAMOND],
        },
        Kind::Unknown => &[],
    }
}

// Where the second of two trees begins, after a step that began at number n: one that takes no tree for a child begins one.
#[tactic(auto, unfolding(crate::specs::Steps::next_under))]
pub fn next_under(step: Step, under: usize, n: usize) -> usize
    ensures { result ≡ next_under (step_meant step) under n }
{
    match step {
        One(_) | Two(_) => under,
        _ => n,
    }
}
