// The structure of a file as a meaning, and that judging accepts exactly it. No code: specs/Grammar, proofs/.

#![tactic(auto)]
