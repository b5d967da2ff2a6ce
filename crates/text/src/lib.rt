// Formulas as text: writing records as text, and reading text as records.
#![tactic(auto)]

pub mod reading;
pub mod writing;
