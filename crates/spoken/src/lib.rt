// The messages as a client speaks and hears them: specs/ says which bytes it writes, and how it reads what it is sent; proofs/ proves that each
// message comes back. There is no code here.
#![tactic(auto)]
