// How many cells a file has after an edit, from counts of the words before it. Definition: specs/After; laws: proofs/After.

#![tactic(auto)]
