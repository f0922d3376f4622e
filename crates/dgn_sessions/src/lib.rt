// The functions of a session in the C interface, with an index and without, over every list of their calls: demand 3
// (specs/Exports), and the history that dgn_record gives (specs/History). No code.

#![tactic(auto)]
