// No code: what holds from end to end, and the one proved table of document 01's worked rows (specs/Rows.antt,
// proofs/Table.antt).
#![tactic(auto)]
