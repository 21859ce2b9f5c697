// The server's and the user's calls over lent bytes at fixed offsets: a head, what a user keeps and a call that goes on, as C callers
// keep them.
#![tactic(auto)]

mod numbers;
pub mod serving;
pub mod user_answer;
mod user_call;
pub mod user_start;
mod user_state;
