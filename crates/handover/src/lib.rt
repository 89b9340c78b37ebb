// A run that is stopped, saved and taken up, beside the unstopped one: what `save` writes of what an entry leaves is taken up by `take_up` and goes on alike.
// Definitions in specs/, theorems in proofs/; no code.
#![tactic(auto)]
