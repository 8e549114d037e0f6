#![tactic(auto)]

// The statements about nets of boxes, in specs/, and their proofs, in proofs/. There is no code here, so that a proof is checked once.
//
// It knows nothing of the crates that run. The functions that carry the theorems, so that the gate asks for each of them, are in the crate `promises`.
