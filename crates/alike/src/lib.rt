// Two boards on which all tests agree have the same runs: so a board read back from a file and the one that was lent. Definitions in specs/, theorems in proofs/; no code.
#![tactic(auto)]
