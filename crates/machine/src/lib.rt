// The plain machine: what `two_opt_moves` and `resolve_self_intersections` have to do, and what it is worth. Definitions in specs/, theorems in proofs/; no code.
#![tactic(auto)]
