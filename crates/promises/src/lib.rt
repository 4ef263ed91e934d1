// Demand 3 about the public operations: theorems alone (specs/ states them, proofs/ proves them), from what the
// operations' contracts ensure of a run.
#![tactic(auto)]
