// A user's calls as one: what a start leaves, and what an answer, whichever call it is. The definitions stand in specs/; there is no code.
#![tactic(auto)]
