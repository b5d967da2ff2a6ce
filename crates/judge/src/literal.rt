// A literal of a rule.
ghost use Rattle.std.specs.Prelude.{◌≡◌, pred, cond};
ghost use Rattle.meaning.specs.Rule.{symbol_of, is_previous, is_negated};

use rules::{NEGATED, PREVIOUS};

// Its word: a symbol, with marks for the value at the previous instant and for negation.
#[derive(Clone, Copy)]
pub struct Literal(pub u16);

impl Literal {
    pub fn symbol(self) -> u16
        ensures { result ≡ symbol_of self.0 }
    {
        self.0 % PREVIOUS
    }

    pub fn is_previous(self) -> bool
        ensures { result ≡ is_previous self.0 }
    {
        self.0 / PREVIOUS % 2 == 1
    }

    pub fn is_negated(self) -> bool
        ensures { result ≡ is_negated self.0 }
    {
        self.0 / NEGATED % 2 == 1
    }

    // The instant that it speaks of at instant k. Judging with `saturating_sub` here is slower by a twentieth and more.
    pub fn instant(self, k: usize) -> usize
        ensures { result ≡ cond (is_previous self.0) (pred k) k }
    {
        if !self.is_previous() {
            return k;
        }
        if k == 0 {
            return 0;
        }
        k - 1
    }
}
