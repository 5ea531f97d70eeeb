// Every message that a step sends is one of those that the round trip is about (crates/spoken): proofs/Sent.antt shows it. There is no code
// here.
#![tactic(auto)]
