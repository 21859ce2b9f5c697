// For programs: steps of a user and calls of a server of a log, over `c_layout`, each on its place in a slice; and whole runs of users and
// servers in one slice.
#![tactic(auto)]

pub mod run;
pub mod server_place;
pub mod user_place;
pub mod user_step;
