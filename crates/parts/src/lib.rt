// The eight parts of 01: their figures, and the frame addresses of each.
#![tactic(auto)]

pub mod frame;
pub mod table;
