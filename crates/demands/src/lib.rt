// The page of promises: specs/Starred has the worked cases of RULES.md that are proved, proofs/Demands the headline
// theorems, each citing where it lives. No code.

#![tactic(auto)]
