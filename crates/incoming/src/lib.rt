// The messages taken in: specs/ says what they are and how bytes are read; the crate parser reads them.
#![tactic(auto)]
