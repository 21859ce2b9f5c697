// Firing schedules (document 02, d and i): entries with first byte 3; and the shapes that an entry may have.
#![tactic(auto)]

pub mod entry;
pub mod schedule;
pub mod segment;
pub mod warm;
