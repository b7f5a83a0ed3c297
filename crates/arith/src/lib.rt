// Whole numbers in bytes, and rounded quotients.

#![tactic(auto)]

pub mod bytes; // bytes.rt: numbers read from bytes and written to them
pub mod rounding; // rounding.rt: quotients rounded down and up
