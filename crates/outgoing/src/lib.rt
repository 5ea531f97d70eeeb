// The messages sent: specs/ says what they are and which bytes stand for them; the crate replies has them as data.
#![tactic(auto)]

// The URIs that the hub itself sends.
#[derive(Clone, Copy)]
pub enum Uri {
    ProtocolViolation,
    NoSuchRealm,
    GoodbyeAndOut,
    InvalidArgument,
    InvalidUri,
    ProcedureAlreadyExists,
    NoSuchProcedure,
    NoSuchSubscription,
    NoSuchRegistration,
    NoRoom,
    NotConvertible,
    Canceled,
}
