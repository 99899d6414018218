// The mathematics of max-min fair rates: definitions in specs/, theorems in proofs/. It holds no code.
#![tactic(auto)]
