// A filled trace, and the values of literals in it.
ghost use Rattle.std.specs.Prelude.{ℕ, ◌≡◌, ◌+◌, ◌*◌, ◌<◌, ◌≤◌, length, get_or};
ghost use Rattle.meaning.specs.Run.{cell_of};
ghost use Rattle.meaning.specs.Rule.{symbol_of, symbol_value, literal as literal_value};

use crate::literal::Literal;
use rules::{FALSE, FIRST_COLUMN, TRUE};

// A row of cells for each instant, at least one instant, and no cell over 2.
#[derive(Clone, Copy)]
pub struct Filled<'a> {
    pub width: usize,
    pub instants: usize,
    pub cells: &'a [u8],
    ghost size: { length cells.now ≡ width * instants },
    ghost some: { 0 < instants },
    ghost low: { (i : ℕ) → get_or cells.now i 0 ≤ 2 },
}

impl Filled<'_> {
    // The value of a literal at instant k.
    #[tactic(auto, unfolding(meaning::specs::Rule::literal, meaning::specs::Rule::plain))]
    pub fn literal(&self, literal: Literal, k: usize) -> u8
        requires { (symbol_of literal.0 < 2 + self.now.width) × (k < self.now.instants) }
        ensures { result ≡ literal_value (cell_of self.now.width self.now.cells.now) literal.0 k }
    {
        let u = self.symbol(literal.symbol(), literal.instant(k));
        if literal.is_negated() {
            three::negation(u)
        } else {
            u
        }
    }

    // The value of a symbol: that of a constant, or a column's cell.
    #[tactic(auto, using(crate::proofs::Words::column), unfolding(meaning::specs::Rule::symbol_value))]
    fn symbol(&self, symbol: u16, k: usize) -> u8
        requires { (symbol < 2 + self.now.width) × (k < self.now.instants) }
        ensures { result ≡ symbol_value (cell_of self.now.width self.now.cells.now) symbol k }
    {
        match symbol {
            FALSE => 0,
            TRUE => 2,
            _ => self.cell(usize::from(symbol - FIRST_COLUMN), k),
        }
    }

    #[tactic(auto, using(crate::proofs::Words::in_row))]
    fn cell(&self, column: usize, k: usize) -> u8
        requires { (column < self.now.width) × (k < self.now.instants) }
        ensures { result ≡ cell_of self.now.width self.now.cells.now k column }
    {
        self.cells[self.width * k + column]
    }
}
