// Demand 3: what holds after every sequence of calls. It is all theorems, in proofs/, over the rules and the contracts alone; no code.
#![tactic(auto)]
