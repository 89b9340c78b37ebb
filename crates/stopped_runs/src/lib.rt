// What `stop` saves `go_on` goes on with, as the unstopped run would have. Definitions in specs/, theorems in proofs/; no code.
#![tactic(auto)]
