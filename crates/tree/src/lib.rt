// The history tree: levels, labels, owners and waits of its nodes; its digests and covers; the layouts of messages; what servers and users
// share. The bytes are passed on to the crates above.
#![tactic(auto)]

pub mod cover;
pub mod digest;
pub mod first_labels;
pub mod label;
pub mod message;
pub mod setup;

pub use sha256::bytes;
