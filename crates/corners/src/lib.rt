// The corners of a cell, and the cells, by their numbers.
#![tactic(auto)]

pub mod cells;
pub mod tables;
