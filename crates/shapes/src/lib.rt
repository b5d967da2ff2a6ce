// What a record's kind says: its sort, what its fields hold, and which services take it.
#![tactic(auto)]

ghost use Rattle.std.specs.Prelude.{◌≡◌};
ghost use Rattle.meaning.specs.Record.{sort_of, use_a, use_b, known};
ghost use Rattle.records.specs.Kinds.{kind_meant};
ghost use Rattle.shapes.specs.Uses.{sort_meant, use_meant, language_meant};

use records::kind::{Kind, Shorthand};

// Whether a record is a formula or a path.
#[derive(Clone, Copy, Debug, PartialEq, Eq)]
pub enum Sort {
    Formula,
    Path,
}

// What a field holds: nothing, an atom's number, or a record of a sort.
#[derive(Clone, Copy, Debug, PartialEq, Eq)]
pub enum Use {
    Unused,
    AtomNumber,
    Child(Sort),
}

// The languages of formulas: core kinds alone, or shorthands too.
#[derive(Clone, Copy, Debug, PartialEq, Eq)]
pub enum Language {
    Core,
    Full,
}

// By number: 1 is the full one, and any other the core.
impl From<u8> for Language {
    ghost use Rattle.std.specs.Prelude.{◌≡◌};
    ghost use Rattle.shapes.specs.Uses.{language_meant, language_of};

    ghost from_gives = { λ number language. language_meant language ≡ language_of number };

    #[tactic(auto, unfolding(crate::specs::Uses::language_of))]
    fn from(number: u8) -> Language {
        match number {
            1 => Language::Full,
            _ => Language::Core,
        }
    }
}

// What field a holds, by kind.
#[tactic(auto, unfolding(meaning::specs::Record::columns_of, meaning::specs::Record::arguments_of))]
pub fn use_a(kind: Kind) -> Use
    ensures { use_meant result ≡ use_a (kind_meant kind) }
{
    match kind {
        Kind::Atom => Use::AtomNumber,
        Kind::Modal(_) | Kind::Choice | Kind::Sequence | Kind::Star => Use::Child(Sort::Path),
        Kind::Shorthand(Shorthand::End(_)) => Use::Unused,
        Kind::Test | Kind::Shorthand(_) => Use::Child(Sort::Formula),
        Kind::Constant(_) | Kind::Move(_) | Kind::Unknown => Use::Unused,
    }
}

// What field b holds: another column of the specification's table than field a's.
#[tactic(auto, unfolding(meaning::specs::Record::columns_of, meaning::specs::Record::arguments_of))]
pub fn use_b(kind: Kind) -> Use
    ensures { use_meant result ≡ use_b (kind_meant kind) }
{
    // The sort is found first: with a way out for each sort in the match below, callers run longer.
    let sort = match kind {
        Kind::Choice | Kind::Sequence => Sort::Path,
        _ => Sort::Formula,
    };
    match kind {
        Kind::Modal(_) | Kind::Choice | Kind::Sequence => Use::Child(sort),
        Kind::Shorthand(shorthand) => match shorthand {
            Shorthand::Denied
            | Shorthand::End(_)
            | Shorthand::Beside(_, _)
            | Shorthand::Along(_, _) => Use::Unused,
            _ => Use::Child(sort),
        },
        _ => Use::Unused,
    }
}

// The sort of a record.
#[tactic(auto, unfolding(meaning::specs::Record::columns_of))]
pub fn sort_of(kind: Kind) -> Sort
    ensures { sort_meant result ≡ sort_of (kind_meant kind) }
{
    match kind {
        Kind::Move(_) | Kind::Test | Kind::Choice | Kind::Sequence | Kind::Star => Sort::Path,
        _ => Sort::Formula,
    }
}

// Whether the kind is one of the language.
#[tactic(auto, unfolding(meaning::specs::Record::known))]
pub fn takes(language: Language, kind: Kind) -> bool
    ensures { result ≡ known (language_meant language) (kind_meant kind) }
{
    match kind {
        Kind::Shorthand(_) => language == Language::Full,
        Kind::Unknown => false,
        _ => true,
    }
}
