// What a path in the records may do: stand still, go ahead, go back; and which stars are refused for it.
#![tactic(auto)]

pub mod stars;
