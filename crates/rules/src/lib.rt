// What a rule's words are: a place, two literals of the body, three of the head.
#![tactic(auto)]

// The words of one rule, and the most rules of a list.
pub const RULE_SIZE: usize = 6;

pub const MOST_RULES: usize = 1021;

// Places: at every instant, at the first, at all but the first, at the last.
pub const EVERY: u16 = 0;

pub const FIRST: u16 = 1;

pub const LATER: u16 = 2;

pub const LAST: u16 = 3;

// A literal is a symbol, and may have marks: for the value at the previous instant, and for negation.
pub const PREVIOUS: u16 = 16384;

pub const NEGATED: u16 = 32768;

// Symbols: the two constants, which also fill unused words, 1 in the body and 0 in the head; then the atoms or columns.
pub const FALSE: u16 = 0;

pub const TRUE: u16 = 1;

pub const FIRST_COLUMN: u16 = 2;
