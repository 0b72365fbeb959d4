// SC-MS decoding (successive cancellation, min-sum) of polar codes over GF(64): what the decoder is and what it
// computes. No code: definitions in specs/, theorems in proofs/.
#![tactic(auto)]
