// The edits of a session as definitions, and the theorem over every list of calls (specs/, proofs/). The calls
// themselves are in the crate sessions, whose contracts are equations with these definitions.

#![tactic(auto)]

// What a call of a session that is made answers: the new used lengths in bytes.
#[derive(Clone, Copy)]
pub struct UsedLengths {
    pub used: usize,
    pub jused: usize,
}
