// A refusal, as each call answers it. Definitions: specs/Refusals.

#![tactic(auto)]

// A refusal: its number and its place.
#[derive(Clone, Copy, PartialEq, Eq)]
pub struct Refusal {
    pub number: usize,
    pub place: usize,
}
