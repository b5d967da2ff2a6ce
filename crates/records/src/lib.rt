// A formula's records: their bytes and the names of their kinds. Nothing else knows the layout.
#![tactic(auto)]

pub mod kind;
pub mod layout;
