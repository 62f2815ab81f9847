// Masks of tags and maps of states, for building a bitmap table (docs/RULES.md, 2 and 3).
#![tactic(auto)]

pub mod counting;
pub mod laying;
pub mod masks;
pub mod own;
