// What the bytes of a value mean, said a second time: specs/ gives it as sets of texts, by each format's own grammar, and proofs/ shows that the
// readers of values (crate values) agree with it. There is no code here.
#![tactic(auto)]
