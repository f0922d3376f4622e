// The round trips of the writers (RULES.md, "Three demands"): what is written reads back the same, and accepted elements of a
// type that is written rewrite to the same bytes. Definitions and theorems alone: specs/Parts, specs/RoundTrip, proofs/.

#![tactic(auto)]
