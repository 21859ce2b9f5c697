// Whole runs: lists of steps of users and of servers. What a step leaves stands in specs/, laws of steps in proofs/; there is no code.
#![tactic(auto)]
