// The tables that are reached from the empty one, and that each of them passes the test of refusal 14 (00, demand 3, first part): definitions in
// specs/, theorems in proofs/. It holds no code.
#![tactic(auto)]
