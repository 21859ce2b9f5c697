// Runs of the exported calls, over the bytes that C callers keep. The definitions and claims stand in specs/; there is no code.
#![tactic(auto)]
