// What holds of one link and what every step of its task keeps, above all that the rates in F sum to at most C: definitions in specs/, theorems
// in proofs/. It holds no code.
#![tactic(auto)]
