// Views that differ part no longer than Q(d, N). The claim about lists of steps stands in specs/, its proof in proofs/; there is no code.
#![tactic(auto)]
