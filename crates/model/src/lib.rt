// The hub's state and steps: the types that the definitions of specs/ and the code share.
#![tactic(auto)]

use pattern::Row;
use seq::Format;

// A slot's status: closed, or attached or open in JSON or in MessagePack.
#[derive(Clone, Copy)]
pub enum Status {
    Closed,
    Attached,
    Open,
    AttachedMsgPack,
    OpenMsgPack,
}

// A slot, with its open session's ID, last request number and last invocation number; zeros where none is open.
#[derive(Clone, Copy)]
pub struct Session {
    pub status: Status,
    pub id: u64,
    pub request: u64,
    pub invocation: u64,
}

// The subscription or the registration rows, with the last ID given out.
#[derive(Clone, Copy)]
pub struct Table {
    pub counter: u64,
    pub rows: [Row; 32],
}

// A held call, by the slots of its caller and callee; request 0 is an unused row.
#[derive(Clone, Copy)]
pub struct HeldCall {
    pub caller: usize,
    pub request: u64,
    pub callee: usize,
    pub invocation: u64,
}

#[derive(Clone, Copy)]
pub struct Hub {
    pub sessions: [Session; 8],
    pub subscriptions: Table,
    pub registrations: Table,
    pub calls: [HeldCall; 32],
}

// What happens to a slot in a step. It is attached for a format; a message's bytes are beside it, and the lent number is the host's.
#[derive(Clone, Copy)]
pub enum Event {
    Attach(Format),
    Detach,
    Message(u64),
}

// How a step came out: done, or one of the five refusals.
#[derive(Clone, Copy)]
pub enum Outcome {
    Done,
    BadState,
    BadSlot,
    WrongTime,
    BadNumber,
    NoRoom,
}
