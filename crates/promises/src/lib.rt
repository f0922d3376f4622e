// Laws for users of the library: theorems that a crate above may cite beside the definitions and the contracts. No code:
// specs/ states them, proofs/Promises is the page that has them all.

#![tactic(auto)]
