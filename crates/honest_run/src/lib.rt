// Where all follow the rules, no valid call is refused. The claim stands in specs/, its proof in proofs/; there is no code.
#![tactic(auto)]
