// Floats in their ranges, and their bits: below everything that reads, writes or computes floats.
#![tactic(auto)]

pub mod bits;
pub mod ranges;
pub mod same;
