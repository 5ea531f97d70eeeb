// What the words of the demands mean: specs/Meaning.antt says it, of the definitions of the crates below; proofs/ cites their theorems. There
// is no code here.
#![tactic(auto)]
