// The five calls of a session, without an index and with one. Contracts: one step of edits' specs/Calls each; demand 3 is proved
// over them for every list of calls (specs/Runs, proofs/Runs).

#![tactic(auto)]

pub use indexed::{
    insert as insert_indexed, mark as mark_indexed, remove as remove_indexed,
    rename as rename_indexed, undo as undo_indexed,
};
pub use marking::{mark, rename};
pub use moving::{insert, remove};
pub use undoing::undo;
