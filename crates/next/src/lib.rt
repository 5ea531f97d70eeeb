// What a step leads to, before the output's room is looked at (PROTOCOL, "What each message does"): the sessions after it, its own
// message, and one thing beside them. It is an answer of changes and not of a whole state, so that a step copies little.
#![tactic(auto)]

ghost use Rattle.std.specs.Prelude.{◌≡◌, false, replicate};
ghost use Rattle.seq.specs.Lists.{joined};
ghost use Rattle.replies.specs.Meaning.{message_of};
ghost use Rattle.conversion.specs.Sources.{Sources, source_for};
ghost use Rattle.outbox.specs.Meaning.{own_mails, cancel_mails};
ghost use Rattle.pattern.specs.Choice.{no_row};
ghost use Rattle.model.specs.declared.Hub.{Hub};
ghost use Rattle.model.specs.State.{with_call, format_at};
ghost use Rattle.model.specs.Step.{silent, says, cancels, ends, violates};
ghost use Rattle.image.specs.Image.{with_sessions};
ghost use Rattle.next.specs.Next.{next_of, error_of, with_row_of, publishing};

use image::Kind;
use model::{HeldCall, Session, Status};
use outbox::{Cancel, Send};
use outgoing::Uri;
use pattern::Row;
use replies::{ErrorReply, Reply};
use seq::PayloadSpans;

// A publication: the publisher's slot, its request number and whether it asks for PUBLISHED, the ID, and the payload as spans of the message.
// Its topic is the message's text.
#[derive(Clone, Copy)]
pub struct Publication {
    pub slot: usize,
    pub request: u64,
    pub acknowledge: bool,
    pub id: u64,
    pub payload: PayloadSpans,
}

// What a step does beside its sessions and its own message: nothing; a held call is stored in a place; a table's row in a place, with the
// table's counter; a slot's session ends, so that its rows and held calls go and callers hear canceled; or a publication goes out, PUBLISHED
// and events, and no own message beside it.
#[derive(Clone, Copy)]
pub enum Effect {
    Nothing,
    Call(usize, HeldCall),
    Row(Kind, usize, u64),
    Ends(usize),
    Publishes(Publication),
}

// What a step leads to; the row is the one that is stored, if any, and `to` are the slots that a publication's events may go to.
#[derive(Clone, Copy)]
pub struct Next {
    pub sessions: [Session; 8],
    pub own: Option<Send>,
    pub effect: Effect,
    pub row: Row,
    pub to: [bool; 8],
}

// No row is stored, and no event goes out.
fn plain(sessions: [Session; 8], own: Option<Send>, effect: Effect) -> Next
    ensures { result ≡ record { sessions = sessions; own = own; effect = effect; row = no_row; to = replicate 8 false } }
{
    let row = image::no_row();
    Next {
        sessions,
        own,
        effect,
        row,
        to: [false; 8],
    }
}

pub fn silent(sessions: [Session; 8]) -> Next
    ensures { (h : Hub) (m : Sources) → next_of h m result ≡ silent (with_sessions h sessions) }
{
    plain(sessions, None, Effect::Nothing)
}

pub fn says(sessions: [Session; 8], slot: usize, reply: Reply) -> Next
    ensures { (h : Hub) (m : Sources) → next_of h m result ≡ says (with_sessions h sessions) slot (message_of (source_for m (format_at h slot)) reply) }
{
    let send = Send { slot, reply };
    plain(sessions, Some(send), Effect::Nothing)
}

// ERROR to a request other than CALL.
pub fn refuses(
    sessions: [Session; 8],
    slot: usize,
    kind: replies::Kind,
    request: u64,
    uri: Uri,
) -> Next
    ensures { (h : Hub) (m : Sources) → next_of h m result ≡ says (with_sessions h sessions) slot (error_of kind request uri) }
{
    let error = ErrorReply { kind, request, uri };
    says(sessions, slot, Reply::Error(error))
}

// A message, and a held call stored in place k.
pub fn holds(sessions: [Session; 8], slot: usize, reply: Reply, k: usize, call: HeldCall) -> Next
    ensures { (h : Hub) (m : Sources) → next_of h m result ≡ says (with_call (with_sessions h sessions) k call) slot (message_of (source_for m (format_at h slot)) reply) }
{
    let send = Send { slot, reply };
    plain(sessions, Some(send), Effect::Call(k, call))
}

// A message, and a row stored in place k of a table, with the table's counter.
pub fn stores(
    sessions: [Session; 8],
    slot: usize,
    reply: Reply,
    kind: Kind,
    k: usize,
    counter: u64,
    row: Row,
) -> Next
    ensures { (h : Hub) (m : Sources) → next_of h m result ≡ says (with_row_of kind (with_sessions h sessions) k counter row) slot (message_of (source_for m (format_at h slot)) reply) }
{
    let send = Send { slot, reply };
    Next {
        sessions,
        own: Some(send),
        effect: Effect::Row(kind, k, counter),
        row,
        to: [false; 8],
    }
}

// A publication goes out, its events to some of these slots.
pub fn publishes(sessions: [Session; 8], p: Publication, to: [bool; 8]) -> Next
    ensures { (h : Hub) (m : Sources) → next_of h m result ≡ publishing h (with_sessions h sessions) m to p }
{
    let row = image::no_row();
    Next {
        sessions,
        own: None,
        effect: Effect::Publishes(p),
        row,
        to,
    }
}

pub fn ends(sessions: [Session; 8], slot: usize, status: Status, own: Option<Send>) -> Next
    ensures { (h : Hub) (m : Sources) → next_of h m result ≡ ends (with_sessions h sessions) slot status (own_mails (format_at h) m own) }
{
    let s = state::with_status(status);
    let after = state::with_session(sessions, slot, s);
    plain(after, own, Effect::Ends(slot))
}

// A violation: ABORT, and the slot closes.
pub fn violates(sessions: [Session; 8], slot: usize) -> Next
    ensures { (h : Hub) (m : Sources) → next_of h m result ≡ violates (with_sessions h sessions) slot }
{
    let reply = Reply::Abort(Uri::ProtocolViolation);
    let send = Send { slot, reply };
    ends(sessions, slot, Status::Closed, Some(send))
}

// Canceled, by row, for each held call that the slot serves for another.
pub fn cancels(calls: [HeldCall; 32], slot: usize) -> [Cancel; 32]
    ensures { joined cancel_mails result ≡ cancels slot calls }
{
    let owed = state::cancels_of(calls, slot);
    let none = Cancel {
        slot: 0,
        request: 0,
    };
    let mut all = [none; 32];
    for i in 0..32 {
        let c = owed[i];
        all[i] = Cancel {
            slot: c.slot,
            request: c.request,
        };
    }
    all
}
