// What the programs share: the log's name, users' keys and places, what is printed, what a code says, a file of cases with its lines, and
// the numbers that a text lists.
#![tactic(auto)]

pub mod file;
pub mod key;
pub mod line;
pub mod numbers;
pub mod place;
pub mod print;
pub mod sentence;
