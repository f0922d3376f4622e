// The characters of a text are its own: theorems alone. No code: specs/Own, proofs/Own.

#![tactic(auto)]
