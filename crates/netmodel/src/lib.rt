#![tactic(auto)]

// The statements about whole boxes on wires that are laid and taken away, in specs/, and their proofs, in proofs/: that every run is a run of the model, what shown means, that what is sent fits into frames, and how a net comes to rest. There is no code here, so that a proof is checked once.
//
// It knows `model` and `linkmodel` beneath it and nothing of the crates that run.
