// What a function of the C interface answers: numbers at the front of the caller's slice, or one number for a refusal. No
// code: specs/Answers, proofs/Laws.

#![tactic(auto)]
