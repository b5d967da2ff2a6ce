// Where a rule is judged.
ghost use Rattle.std.specs.Prelude.{◌≡◌, ◌<◌};
ghost use Rattle.judge.specs.Read.{start_of, end_of};

use refusals::Refusal;
use rules::{EVERY, FIRST, LAST, LATER};

// At every instant, at the first, at all but the first, at the last.
#[derive(Clone, Copy)]
pub enum Place {
    Every,
    First,
    Later,
    Last,
}

// The place that a word names, if it names one.
impl TryFrom<u16> for Place {
    type Error = Refusal;

    ghost use Rattle.judge.specs.Read.{Names};

    ghost try_from_gives = { Names };

    fn try_from(word: u16) -> Result<Self, Refusal> {
        match word {
            EVERY => Ok(Place::Every),
            FIRST => Ok(Place::First),
            LATER => Ok(Place::Later),
            LAST => Ok(Place::Last),
            _ => Err(Refusal::WrongRules),
        }
    }
}

// A place's instants, of l, are those from its start up to its end.
impl Place {
    pub fn start(self, l: usize) -> usize
        requires { 0 < l }
        ensures { result ≡ start_of l self }
    {
        match self {
            Place::Every | Place::First => 0,
            Place::Later => 1,
            Place::Last => l - 1,
        }
    }

    pub fn end(self, l: usize) -> usize
        ensures { result ≡ end_of l self }
    {
        match self {
            Place::First => 1,
            Place::Every | Place::Later | Place::Last => l,
        }
    }
}
