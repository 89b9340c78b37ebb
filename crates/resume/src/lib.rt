// Runs that are stopped, saved and taken up again, as the plain machine makes them. Definitions in specs/, theorems in proofs/; no code.
#![tactic(auto)]
