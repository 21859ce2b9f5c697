// For programs: firing schedules from and to text. The entry with the segments that a text lists; what is printed of an entry: its times,
// segments and curve, and when its firing may begin.
#![tactic(auto)]

mod curve;
pub mod kiln;
pub mod week;
