// Layer 1: what the condition bytes of a table say of a timer: of all its values in a region at once, and as windows in half minutes.
#![tactic(auto)]

pub mod compare;
pub mod comparison;
pub mod windows;
