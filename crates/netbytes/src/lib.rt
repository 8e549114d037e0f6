#![tactic(auto)]

// What a net of boxes on wires is in bytes, in specs/, and the proofs of that, in proofs/: what a frame does to a box when its bytes come, and where the bytes of a packet end. There is no code here, so that a proof is checked once.
//
// It knows the model of the net and what the running box promises of bytes.
