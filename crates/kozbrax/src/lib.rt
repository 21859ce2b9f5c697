// The functions that C and Rust link (include/kozbrax.h): thin, one to a definition.
#![tactic(auto)]

mod board;
mod calls;
mod cover;
mod hash;
mod label;
mod schedule;
mod signature;

// What answers where a number is out of range or there is none.
const NONE: u32 = u32::MAX;
