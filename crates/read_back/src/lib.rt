// No code: what the writers leave is read back to the same numbers, and what the readers accept is written to the same
// bytes (specs, proofs).
#![tactic(auto)]
