// How much output a step can need (specs/Enough.antt), and that a host can read what is sent in it: of the step of the crate model. There is no
// code here.
#![tactic(auto)]
