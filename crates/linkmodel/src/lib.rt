#![tactic(auto)]

// The statements about boxes on wires, in specs/, and their proofs, in proofs/: hellos, which roads are open, and telling over roads that lose. There is no code here, so that a proof is checked once.
//
// It knows `model` beneath it and nothing of the crates that run.
