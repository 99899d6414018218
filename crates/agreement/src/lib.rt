// Whenever the machine says that it is settled, its rates are the calculation's (00, demand 3): definitions in specs/, theorems in proofs/. It
// holds no code.
#![tactic(auto)]
