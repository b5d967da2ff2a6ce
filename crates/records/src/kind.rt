// The kinds of records: formulas and paths of the core, and the shorthands, which are formulas. Kinds that the specification lists in pairs
// are one variant with a parameter.
ghost use Rattle.std.specs.Prelude.{◌≡◌};
ghost use Rattle.records.specs.Kinds.{kind_meant};

// Whether a modality asks for one way along its path or for all.
#[derive(Clone, Copy, Debug, PartialEq, Eq)]
pub enum Mode {
    Diamond,
    Box,
}

// By the number of a modality's kind: a diamond's, and any other is a box's.
impl From<u8> for Mode {
    ghost use Rattle.std.specs.Prelude.{◌≡◌};
    ghost use Rattle.records.specs.Kinds.{mode_meant};
    ghost use Rattle.records.specs.Code.{mode_of};

    ghost from_gives = { λ number mode. mode_meant mode ≡ mode_of number };

    #[tactic(auto, unfolding(crate::specs::Code::mode_of))]
    fn from(number: u8) -> Mode {
        match number {
            3 => Mode::Diamond,
            _ => Mode::Box,
        }
    }
}

// Whether a move leads to the next instant or to the one before.
#[derive(Clone, Copy, Debug, PartialEq, Eq)]
pub enum Way {
    Ahead,
    Back,
}

// By the number of a move's kind: a step's, and any other is a back step's.
impl From<u8> for Way {
    ghost use Rattle.std.specs.Prelude.{◌≡◌};
    ghost use Rattle.records.specs.Kinds.{way_meant};
    ghost use Rattle.records.specs.Code.{way_of};

    ghost from_gives = { λ number way. way_meant way ≡ way_of number };

    #[tactic(auto, unfolding(crate::specs::Code::way_of))]
    fn from(number: u8) -> Way {
        match number {
            5 => Way::Ahead,
            _ => Way::Back,
        }
    }
}

// `End` is final and initial; `Beside` next, weak next, previous and weak previous; `Along` eventually, always, once and so far.
#[derive(Clone, Copy, Debug, PartialEq, Eq)]
pub enum Shorthand {
    Denied,
    Both,
    Either,
    Implies,
    End(Way),
    Beside(Way, Mode),
    Along(Way, Mode),
    Until,
    Since,
}

#[derive(Clone, Copy, Debug, PartialEq, Eq)]
pub enum Kind {
    Constant(bool),
    Atom,
    Modal(Mode),
    Move(Way),
    Test,
    Choice,
    Sequence,
    Star,
    Shorthand(Shorthand),
    Unknown,
}

// The kinds by their numbers: the core from 0, the shorthands from 32. Each byte has its kind.
impl From<u8> for Kind {
    ghost use Rattle.std.specs.Prelude.{◌≡◌};
    ghost use Rattle.meaning.specs.Record.{kind_of};
    ghost use Rattle.records.specs.Kinds.{kind_meant};

    ghost from_gives = { λ number kind. kind_meant kind ≡ kind_of number };

    #[tactic(auto, unfolding(meaning::specs::Record::kinds, meaning::specs::Record::kind_of))]
    fn from(number: u8) -> Kind {
        match number {
            0 => Kind::Constant(false),
            1 => Kind::Constant(true),
            2 => Kind::Atom,
            3 => Kind::Modal(Mode::Diamond),
            4 => Kind::Modal(Mode::Box),
            5 => Kind::Move(Way::Ahead),
            6 => Kind::Move(Way::Back),
            7 => Kind::Test,
            8 => Kind::Choice,
            9 => Kind::Sequence,
            10 => Kind::Star,
            32 => Kind::Shorthand(Shorthand::Denied),
            33 => Kind::Shorthand(Shorthand::Both),
            34 => Kind::Shorthand(Shorthand::Either),
            35 => Kind::Shorthand(Shorthand::Implies),
            36 => Kind::Shorthand(Shorthand::End(Way::Ahead)),
            37 => Kind::Shorthand(Shorthand::End(Way::Back)),
            38 => Kind::Shorthand(Shorthand::Beside(Way::Ahead, Mode::Diamond)),
            39 => Kind::Shorthand(Shorthand::Beside(Way::Ahead, Mode::Box)),
            40 => Kind::Shorthand(Shorthand::Beside(Way::Back, Mode::Diamond)),
            41 => Kind::Shorthand(Shorthand::Beside(Way::Back, Mode::Box)),
            42 => Kind::Shorthand(Shorthand::Along(Way::Ahead, Mode::Diamond)),
            43 => Kind::Shorthand(Shorthand::Along(Way::Ahead, Mode::Box)),
            44 => Kind::Shorthand(Shorthand::Along(Way::Back, Mode::Diamond)),
            45 => Kind::Shorthand(Shorthand::Along(Way::Back, Mode::Box)),
            46 => Kind::Shorthand(Shorthand::Until),
            47 => Kind::Shorthand(Shorthand::Since),
            _ => Kind::Unknown,
        }
    }
}

// And back. A number that no kind has stands for the unknown.
impl From<Kind> for u8 {
    ghost use Rattle.std.specs.Prelude.{◌≡◌};
    ghost use Rattle.meaning.specs.Record.{number_of};
    ghost use Rattle.records.specs.Kinds.{kind_meant};

    ghost from_gives = { λ kind number. number ≡ number_of (kind_meant kind) };

    #[tactic(auto, unfolding(meaning::specs::Record::number_of, meaning::specs::Record::shorthand_number))]
    fn from(kind: Kind) -> u8 {
        match kind {
            Kind::Constant(false) => 0,
            Kind::Constant(true) => 1,
            Kind::Atom => 2,
            Kind::Modal(Mode::Diamond) => 3,
            Kind::Modal(Mode::Box) => 4,
            Kind::Move(Way::Ahead) => 5,
            Kind::Move(Way::Back) => 6,
            Kind::Test => 7,
            Kind::Choice => 8,
            Kind::Sequence => 9,
            Kind::Star => 10,
            Kind::Shorthand(Shorthand::Denied) => 32,
            Kind::Shorthand(Shorthand::Both) => 33,
            Kind::Shorthand(Shorthand::Either) => 34,
            Kind::Shorthand(Shorthand::Implies) => 35,
            Kind::Shorthand(Shorthand::End(Way::Ahead)) => 36,
            Kind::Shorthand(Shorthand::End(Way::Back)) => 37,
            Kind::Shorthand(Shorthand::Beside(Way::Ahead, Mode::Diamond)) => 38,
            Kind::Shorthand(Shorthand::Beside(Way::Ahead, Mode::Box)) => 39,
            Kind::Shorthand(Shorthand::Beside(Way::Back, Mode::Diamond)) => 40,
            Kind::Shorthand(Shorthand::Beside(Way::Back, Mode::Box)) => 41,
            Kind::Shorthand(Shorthand::Along(Way::Ahead, Mode::Diamond)) => 42,
            Kind::Shorthand(Shorthand::Along(Way::Ahead, Mode::Box)) => 43,
            Kind::Shorthand(Shorthand::Along(Way::Back, Mode::Diamond)) => 44,
            Kind::Shorthand(Shorthand::Along(Way::Back, Mode::Box)) => 45,
            Kind::Shorthand(Shorthand::Until) => 46,
            Kind::Shorthand(Shorthand::Since) => 47,
            Kind::Unknown => 48,
        }
    }
}
