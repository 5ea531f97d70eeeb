// What a conversion from one format into the other answers: of a value (specs/Converts.antt), and of a payload (specs/Carried.antt).
#![tactic(auto)]

// A value that was converted: the place past what was read of it, and the place past all that was written for it, as far as there was room.
#[derive(Clone, Copy)]
pub struct Converted {
    pub read: usize,
    pub written: usize,
}
