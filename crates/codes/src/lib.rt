// The numbers of documents 01 and 02 with their names: why a call is refused, and what a request asks for.
#![tactic(auto)]

pub mod kind;
pub mod refusal;
