// Opening hours (document 02, j): when a firing may begin.
#![tactic(auto)]

pub mod opening;
pub mod windows;
